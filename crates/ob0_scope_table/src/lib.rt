//! Defines the result of resolving a module's names: the ordinal of the declaration at each token,
//! the faults of names, and trees labelled with ordinals. An ordinal is a declaration's number: 0
//! to 6 for the predeclared names, then 7 upwards for the text's declarations in text order.
#![tactic(auto)]

mod faults;
mod one_body;
mod ordinal_entry;
mod predeclared_names;
mod resolved;
mod token_lookups;

pub use faults::{
    FaultAtTokens, collect_faults_with_spans, fault_at_token, is_duplicate_or_end_name_fault,
};
pub use one_body::{BodyBounds, body_bounds_in_tree};
pub use ordinal_entry::OrdinalEntry;
pub use predeclared_names::{
    FALSE_ORDINAL, PREDECLARED_COUNT, READ_ORDINAL, TRUE_ORDINAL, WRITE_LN_ORDINAL, WRITE_ORDINAL,
};
pub use resolved::{Bindings, Resolved};
pub use token_lookups::{has_spelling, ordinal_at, same_ordinal, token_span};
