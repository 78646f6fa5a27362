//! Tests `serve`, the commands and command lines. The tests are examples with known answers, some
//! of them with failing or recording devices. Other tests check the output of the built program from end to end.
#![tactic(auto)]

#[cfg(test)]
mod commands;
#[cfg(test)]
mod conversations;
#[cfg(test)]
mod devices;
pub mod recorder;
