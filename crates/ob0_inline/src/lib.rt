//! Inlines a constant, at one use or at all its uses. Returns the edits that write the constant's
//! value in place of its name, or a refusal (docs/PROTOCOL.md, Requests on documents and Refusals
//! of edits). If all uses are inlined, the edits also remove the constant's declaration.
#![tactic(auto)]

mod constant_uses;
mod declared_constants;
mod edit_at_use;
mod inlining_everywhere;
mod inlining_one_use;
mod nesting_limit;
mod shadowed_truth_names;
mod value_texts;

pub use constant_uses::ConstantUse;
pub use declared_constants::DeclaredConstant;
pub use inlining_everywhere::inline_all;
pub use inlining_one_use::inline_here;
