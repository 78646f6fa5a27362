//! Formats a module: finds the tokens that begin a line, and makes the edits that give the
//! formatted text.
#![tactic(auto)]

mod formatting_edits;
mod gap;
mod gap_sites;
pub mod laws;
mod line_role;
mod token_line_roles;

pub use formatting_edits::format;
pub use line_role::LineRole;
