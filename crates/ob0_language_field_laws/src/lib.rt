//! Laws about renamed fields: a well-typed module remains well-typed and has the same runs if
//! different fields of the same record get different names.
#![tactic(auto)]

pub mod laws;
