//! Defines the fields of a module's records, and the module that results from renaming fields.
#![tactic(auto)]
