//! Tests everything that needs a module: syntax and faults, names and types, runs and lowered code,
//! renaming, inlining and formatting. The tests are examples with known answers.
#![tactic(auto)]

#[cfg(test)]
mod declarations;
#[cfg(test)]
mod edits;
#[cfg(test)]
mod expression_forms;
#[cfg(test)]
mod faults;
#[cfg(test)]
mod layers;
#[cfg(test)]
mod lowered_nodes;
#[cfg(test)]
mod names;
#[cfg(test)]
mod runs;
#[cfg(test)]
mod test_questions;
