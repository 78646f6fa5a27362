//! Tests sessions step by step, and worlds of an editor and a server. The tests are examples with
//! known answers. They also run with failing allocations.
#![tactic(auto)]

#[cfg(test)]
mod session;
#[cfg(test)]
mod short_events;
#[cfg(test)]
mod stories;
#[cfg(test)]
mod world;
