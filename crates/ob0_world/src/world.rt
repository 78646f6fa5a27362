//! Performs lists of events with an editor and a session.
//!
//! In contracts, a `Connection` consists of a model and a `Wire`. The model is a client and a
//! server (`ClientAndServer`), with their documents and messages. The `Wire` is the session, with
//! the contents of all messages in each direction, taken or still waiting.
//!
//! `EventChangesWire` states how each event changes the session and the contents, and `QueuesMatch`
//! states that the model and the `Wire` agree. (`Connection::prove_queues_match` is called only for
//! its contract.) The contract of `step` has two cases: the step performs its event (`WorldSteps`),
//! or it fails (`WorldFails`).
//!
//! The contract of `play` (`IsResultOfPlaying`) states the guarantees (`GuaranteesHoldForEvents`).
//! It also states that the events are a course of the connection (`IsConnectionCourse`) that begins
//! with an initialized session (`IsInitialConnection`). `play` also returns the exchanged contents,
//! and its contract states that they are a session's conversation. So a body that only invents
//! edits and publications doesn't meet the contract.
ghost use Rattle.std.specs.Prelude.{◌≡◌, ◌<◌, ◌-◌, ◌^◌, [], length, IfOk, OnOk, IfErr};
ghost use Rattle.ob0_text.specs.declared.position_types.Unit.TheVariants.{Utf16};
ghost use Rattle.ob0_world_rules.specs.Headline.{GuaranteesHold};
ghost use Rattle.ob0_world_rules.specs.MirroredDocuments.{ServerWillMirrorEditor};
ghost use Rattle.ob0_world.specs.ModelValues.{model_event_of, played_edits, played_publications};
ghost use Rattle.ob0_world.specs.EventReport.{model_report_of};
ghost use Rattle.ob0_world.specs.Worlds.{ResultsMatchModel, ContentsMatchWire, IsNewWorld, IsResultOfPlaying, IsFaultOfPlaying, WorldSteps, WorldFails};
ghost use Rattle.ob0_world.specs.declared.faults.WorldFault.TheVariants.{Memory};

use crate::connection::Connection;
use crate::events::{Event, Seen};
use crate::faults::{PlayFault, WorldFault};
use crate::play_results::Played;
use ob0_text::{TextStore, Unit};
use std::alloc::{AllocError, Global};
use std::collections::VecDeque;
use std::marker::Model;

/// An editor and a session with a queue of messages in each direction. A step performs one event.
/// `steps` is the number of steps that returned Ok, and `has_ended` is true if a step has failed.
#[derive(Drop)]
pub struct World<T: TextStore> {
    connection: Connection<T>,
    steps: u64,
    has_ended: bool,
}

impl<T: TextStore> Model for World<T> {
    ghost use Rattle.std.specs.Prelude.{◌≡◌, false};
    ghost use Rattle.std.specs.Coded.{codes};
    ghost use Rattle.ob0_text.specs.OpenDocuments.{coded_open_documents};
    ghost use Rattle.ob0_world_editor.specs.StoredDocuments.{coded_editor_documents};
    ghost use Rattle.ob0_world.specs.Worlds as worlds;
    ghost use Rattle.ob0_world.specs.Queues.{CountsAreAtMost, IsReachable};

    ghost Value = { worlds.World };

    ghost coded = { Prim.hlevel (codes, coded_open_documents, coded_editor_documents) };

    ghost view = { λ w.
        record { connection = w.connection; steps = w.steps; ended = w.has_ended } };

    ghost invariant = { λ w. w.has_ended ≡ false
        → CountsAreAtMost w.steps w.connection.model.editor × IsReachable w.connection.model };
}

impl<T: TextStore> World<T> {
    /// Returns a world in which no document is open and no message waits. The editor has
    /// initialized the session, and has declared that it accepts literal code actions, which
    /// contain their edits, and edits that mention their documents' versions. Both sides count
    /// positions in UTF-16 units.
    pub fn new(alloc: Global) -> Result<World<T>, WorldFault>
        ensures start { IfOk result (IsNewWorld Utf16) }
        ensures err { IfErr result (λ fault. fault ≡ Memory) }
    {
        World::new_in(alloc, Unit::Utf16)
    }

    /// Returns a world in which no document is open and no message waits. Both sides count
    /// positions in this unit.
    pub fn new_in(alloc: Global, unit: Unit) -> Result<World<T>, WorldFault>
        ensures start { IfOk result (IsNewWorld unit) }
        ensures err { IfErr result (λ fault. fault ≡ Memory) }
    {
        match Connection::new(alloc, unit) {
            Ok(connection) => Ok(World {
                connection,
                steps: 0,
                has_ended: false,
            }),
            Err(AllocError) => Err(WorldFault::Memory),
        }
    }

    /// Returns the number of steps that returned Ok.
    pub fn steps(&self) -> u64
        ensures { result ≡ self.now.steps }
    {
        self.steps
    }

    /// Performs one event and returns the report on it. For `Serve`, one call of `Session::step`
    /// takes the first waiting content. If an allocation fails, the world ends: each later step
    /// returns `Ended`.
    pub fn step(&mut self, event: &Event) -> Result<Seen, WorldFault>
        requires few { self.old.steps < 2 ^ 63 - 1 }
        ensures ok { IfOk result
            (λ seen. WorldSteps self.old (model_event_of event.now) (model_report_of seen) self.new) }
        ensures holds { OnOk result (GuaranteesHold self.new.connection.model) }
        ensures mirror { OnOk result (ServerWillMirrorEditor self.new.connection.model) }
        ensures err { IfErr result (λ fault. WorldFails self.old fault self.new) }
    {
        if self.has_ended {
            return Err(WorldFault::Ended);
        }
        match self.connection.perform_event(event) {
            Ok(seen) => {
                self.connection.prove_queues_match();
                self.steps += 1;
                Ok(seen)
            }
            Err(AllocError) => {
                self.has_ended = true;
                Err(WorldFault::Memory)
            }
        }
    }

    /// Returns the applied edits, the publications and the exchanged contents, up to the last step
    /// that returned Ok.
    pub fn into_played(self) -> Played
        ensures results_match { ResultsMatchModel self.connection.model result }
        ensures contents_match { ContentsMatchWire self.connection.wire result }
    {
        self.connection.into_played()
    }

    /// Performs a list of events in a new world, and returns the results. Both sides count
    /// positions in UTF-16 units.
    pub fn play(alloc: Global, events: &[Event]) -> Result<Played, PlayFault>
        requires few { length events.now < 2 ^ 63 - 1 }
        ensures ok { IfOk result (λ played. IsResultOfPlaying Utf16 events.now played) }
        ensures err { IfErr result (λ fault. IsFaultOfPlaying Utf16 events.now fault) }
    {
        World::<T>::play_in(alloc, Unit::Utf16, events)
    }

    /// Performs a list of events in a new world, with positions counted in this unit.
    ///
    /// In every interleaving of an editor and the server, each edit that the editor applies to a
    /// well-typed document leaves a well-typed module with the same run: the same output and end
    /// for every input and every bound on calls and loop turns; and an open document's latest
    /// diagnostics are empty exactly when the text they were made for is a well-typed module.
    ///
    /// The editor is the model's editor. The law `guarantees_hold_for_every_exchange` states the
    /// same for every editor that keeps ob0's rules.
    pub fn play_in(alloc: Global, unit: Unit, events: &[Event]) -> Result<Played, PlayFault>
        requires few { length events.now < 2 ^ 63 - 1 }
        ensures ok { IfOk result (λ played. IsResultOfPlaying unit events.now played) }
        ensures err { IfErr result (λ fault. IsFaultOfPlaying unit events.now fault) }
    {
        let mut world: World<T> = match World::new_in(alloc, unit) {
            Ok(world) => world,
            Err(_fault) => return Err(PlayFault {
                played: no_results(alloc),
                steps: 0,
            }),
        };
        for event in events {
            match world.step(event) {
                Ok(_seen) => {}
                Err(_fault) => {
                    let steps = world.steps();
                    return Err(PlayFault {
                        played: world.into_played(),
                        steps,
                    });
                }
            }
        }
        Ok(world.into_played())
    }
}

fn no_results(alloc: Global) -> Played
    ensures applied { played_edits result ≡ [] }
    ensures made { played_publications result ≡ [] }
    ensures taken { result.taken.items ≡ [] }
    ensures got { result.got.items ≡ [] }
    ensures unread { result.unread.items ≡ [] }
{
    Played {
        applied: Vec::new(alloc),
        made: Vec::new(alloc),
        taken: Vec::new(alloc),
        got: Vec::new(alloc),
        unread: VecDeque::new(alloc),
    }
}
