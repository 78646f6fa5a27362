//! Defines lowered code and its meaning, and the machine that runs lowered code. The machine stores
//! all variables in one list of cells. Each cell is a number of 32 bits.
#![tactic(auto)]

mod addresses;
mod call_arguments;
mod calls;
mod cell_copies;
pub mod code;
mod evaluator;
mod flat_outcome;
mod level;
mod machine;
mod memory;
mod operators;
mod program_runs;
mod statements;
mod stop_reasons;

pub use machine::Item;
pub use program_runs::{End, Outcome, run};
