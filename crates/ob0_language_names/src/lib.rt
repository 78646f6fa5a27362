//! Defines the scopes of a module (docs/LANGUAGE.md, Scopes): the declaration to which each name is
//! bound. Defines and states laws about renaming a declaration and inlining a constant.
#![tactic(auto)]
