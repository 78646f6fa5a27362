//! Defines a stream that records what its calls do, so that the contract of `serve_stream` states
//! for it that no answer is owed when a read begins.
ghost use Rattle.std.specs.Prelude.{◌≡◌, [], ◌∷◌, Some, IfSome, false};
ghost use Rattle.ob0_session.specs.StreamSteps.{Records, read_gives, writes};
ghost use Rattle.ob0_session.specs.OwedAnswers.{NeverReadsOwing};
ghost use Rattle.ob0_tests_session.specs.RecordedSteps.{recorded_steps, step_view};

use ob0_session::{DeviceFault, InputDevice, OutputDevice, ServeFault, Stream, serve_stream};
use std::alloc::Global;

/// One thing that a call of a stream did.
#[derive(Drop)]
pub enum RecordedStep {
    ReadBegins,
    ReadGives(Vec<u8>),
    ReadFails,
    Writes(Vec<u8>),
    WriteFails,
    Flushes,
    FlushFails,
}

/// A record of steps, in order. If an allocation has failed, the record isn't complete.
#[derive(Drop)]
pub struct StepRecord {
    alloc: Global,
    steps: Vec<RecordedStep>,
    is_complete: bool,
}

impl StepRecord {
    /// Returns a record without steps.
    pub fn new(alloc: Global) -> StepRecord
        ensures { recorded_steps result ≡ Some [] }
    {
        StepRecord {
            alloc,
            steps: Vec::new(alloc),
            is_complete: true,
        }
    }

    /// Returns the steps, or None if the record isn't complete.
    pub fn complete_steps(&self) -> Option<&[RecordedStep]> {
        if self.is_complete {
            Some(self.steps.as_slice())
        } else {
            None
        }
    }

    /// Adds a step. If an allocation fails, the record isn't complete afterwards.
    fn add(&mut self, step: RecordedStep)
        ensures { Records (recorded_steps self.old) (recorded_steps self.new) (step_view step ∷ []) }
    {
        if !self.is_complete {
            return;
        }
        if self.steps.push(step).is_err() {
            self.is_complete = false;
        }
    }

    /// Adds that a read gives these bytes.
    fn add_given(&mut self, bytes: &[u8])
        ensures { Records (recorded_steps self.old) (recorded_steps self.new) (read_gives bytes.now ∷ []) }
    {
        match Vec::from_slice(self.alloc, bytes) {
            Ok(bytes) => self.add(RecordedStep::ReadGives(bytes)),
            Err(_) => self.is_complete = false,
        }
    }

    /// Adds that a write takes these bytes.
    fn add_written(&mut self, bytes: &[u8])
        ensures { Records (recorded_steps self.old) (recorded_steps self.new) (writes bytes.now ∷ []) }
    {
        match Vec::from_slice(self.alloc, bytes) {
            Ok(bytes) => self.add(RecordedStep::Writes(bytes)),
            Err(_) => self.is_complete = false,
        }
    }
}

/// A reader and a writer as one stream, with a record of what its calls do.
#[derive(Drop)]
pub struct Recorder<R, W> {
    pub reader: R,
    pub writer: W,
    pub record_of_steps: StepRecord,
}

impl<R: InputDevice, W: OutputDevice> Stream for Recorder<R, W> {
    ghost state = { λ s. record {
      input = record { remaining = R.remaining s.reader; reads = R.reads s.reader; has_failed = R.has_failed s.reader };
      output = record { contents = W.contents s.writer; is_flushed = W.is_flushed s.writer; has_failed = W.has_failed s.writer };
      steps = recorded_steps s.record_of_steps;
      references = [];
    } };

    fn read(&mut self, buf: &mut [u8]) -> Result<usize, DeviceFault> {
        self.record_of_steps.add(RecordedStep::ReadBegins);
        match self.reader.read(buf) {
            Ok(count) => {
                self.record_of_steps.add_given(&buf[..count]);
                Ok(count)
            }
            Err(fault) => {
                self.record_of_steps.add(RecordedStep::ReadFails);
                Err(fault)
            }
        }
    }

    fn write(&mut self, buf: &[u8]) -> Result<usize, DeviceFault> {
        match self.writer.write(buf) {
            Ok(count) => {
                self.record_of_steps.add_written(&buf[..count]);
                Ok(count)
            }
            Err(fault) => {
                self.record_of_steps.add(RecordedStep::WriteFails);
                Err(fault)
            }
        }
    }

    fn flush(&mut self) -> Result<(), DeviceFault> {
        match self.writer.flush() {
            Ok(()) => {
                self.record_of_steps.add(RecordedStep::Flushes);
                Ok(())
            }
            Err(fault) => {
                self.record_of_steps.add(RecordedStep::FlushFails);
                Err(fault)
            }
        }
    }
}

/// Serves a conversation over a reader and a writer, and records what their calls do. If the record
/// is complete, no answer was owed when a read began.
pub fn serve_recorded<R: InputDevice, W: OutputDevice>(
    alloc: Global,
    stream: &mut Recorder<R, W>,
) -> Result<u8, ServeFault>
    requires reads { R.has_failed stream.old.reader ≡ false }
    requires writes { W.has_failed stream.old.writer ≡ false }
    requires empty { recorded_steps stream.old.record_of_steps ≡ Some [] }
    ensures { IfSome (recorded_steps stream.new.record_of_steps) NeverReadsOwing }
{
    serve_stream(alloc, stream)
}
