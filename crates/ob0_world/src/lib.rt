//! Performs lists of events of an editor and a session, with a queue of messages in each direction.
//! Whatever the order of the events, each edit that the editor applies leaves a well-typed module
//! with the same output and the same end.
#![tactic(auto)]

mod connection;
mod events;
mod faults;
pub mod laws;
mod play_results;
mod world;

pub use events::{Event, Seen};
pub use faults::{PlayFault, WorldFault};
pub use ob0_world_editor::{Applied, Ask};
pub use play_results::{Made, Played};
pub use world::World;
