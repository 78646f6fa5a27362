//! Reports the type faults and undeclared names of a module, each with its first and last token
//! (docs/LANGUAGE.md, Faults of scopes and types). If there are none, the report has the table of
//! the module's declarations.
//!
//! The laws (`laws`) state that nothing is reported exactly if the module passes the type check
//! (`passes_type_check`). This check ignores duplicate declarations and wrong closing names. In a
//! module that passes, every name is bound.
#![tactic(auto)]

pub mod laws;
mod reporting;

pub use reporting::{ModuleReport, module_report, module_report_walking_some_bodies};
