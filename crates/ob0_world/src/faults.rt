//! Defines the faults of a world and of `play`. The only cause of a fault is a failed allocation.

use crate::play_results::Played;
use thiserror::Error;

/// The reason why a world wasn't made, or why a step failed.
#[derive(Clone, Copy, Debug, Drop, PartialEq, Eq, Error)]
pub enum WorldFault {
    #[error("out of memory")]
    Memory,
    #[error("an earlier step ran out of memory")]
    Ended,
}

/// The fault of `play` and `play_in`: an allocation failed. Before the failure, the first `steps`
/// events happened, and `played` has the results of these events.
#[derive(Debug, Drop, Error)]
#[error("out of memory")]
pub struct PlayFault {
    pub played: Played,
    pub steps: u64,
}
