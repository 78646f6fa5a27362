//! Uses every specified public name of the crates from outside, in its specified form: each type
//! with its variants or fields, each trait, constant and function. The result of each call has a
//! written type, and each method is called with its receiver as the first argument. So this crate
//! doesn't compile if such a name is renamed, or if a parameter, a result, a variant or a field
//! changes. A name that has another form than specified is used in its present form:
//! docs/DECISIONS.md (Forms of public calls) lists these and says why. The tests run each call
//! once.
#![tactic(auto)]

#[cfg(test)]
mod command_lines;
#[cfg(test)]
mod edits;
#[cfg(test)]
mod frames;
#[cfg(test)]
mod lexemes;
#[cfg(test)]
mod messages;
#[cfg(test)]
mod modules;
#[cfg(test)]
mod questions;
#[cfg(test)]
mod sessions;
#[cfg(test)]
mod texts;
#[cfg(test)]
mod worlds;
