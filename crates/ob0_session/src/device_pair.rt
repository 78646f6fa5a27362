//! Makes a stream of a reader and a writer.
ghost use Rattle.std.specs.Prelude.{[], ◌∷◌};
ghost use Rattle.ob0_session.specs.StreamSteps.{unrecorded_state};

use crate::devices::{DeviceFault, InputDevice, OutputDevice, Stream};

/// A reader and a writer as one stream. Neither knows the calls of the other, so what the calls did
/// isn't known in order.
#[derive(Drop)]
pub struct DevicePair<'a, R, W> {
    pub reader: &'a mut R,
    pub writer: &'a mut W,
}

impl<'a, R: InputDevice, W: OutputDevice> Stream for DevicePair<'a, R, W> {
    ghost state = { λ pair. unrecorded_state
        (record { remaining = R.remaining pair.reader.now; reads = R.reads pair.reader.now; has_failed = R.has_failed pair.reader.now })
        (record { contents = W.contents pair.writer.now; is_flushed = W.is_flushed pair.writer.now; has_failed = W.has_failed pair.writer.now })
        (pair.reader.ghost_name ∷ pair.writer.ghost_name ∷ []) };

    /// Reads by one call of the reader.
    fn read(&mut self, buf: &mut [u8]) -> Result<usize, DeviceFault> {
        self.reader.read(buf)
    }

    /// Writes by one call of the writer.
    fn write(&mut self, buf: &[u8]) -> Result<usize, DeviceFault> {
        self.writer.write(buf)
    }

    /// Flushes the writer.
    fn flush(&mut self) -> Result<(), DeviceFault> {
        self.writer.flush()
    }
}
