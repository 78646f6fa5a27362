//! Defines the cells of a run's store, as one list. States the law that a lowered program runs as
//! its module does. The lemmas in `proofs/` relate values, places and stores to their cells. They
//! also relate each production of the grammar to its lowered code.
#![tactic(auto)]

pub mod lowering_laws;
