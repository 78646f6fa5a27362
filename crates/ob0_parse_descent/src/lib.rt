//! Parses the constructs of a module by recursive descent: expressions, types, statements,
//! declarations and blocks. Each function returns the tree of the construct that begins at a given
//! token, or the reason why it can't be parsed (`ParseRefusal`). The rules are in docs/LANGUAGE.md,
//! in the sections Grammar, Nesting and limits, and Syntax faults.
#![tactic(auto)]

mod declarations;
mod list_growth;
mod parser;
mod refusal;
mod statements;
mod types;

pub use list_growth::push_with_doubling;
pub use parser::{ConstructResult, ItemResult, Parser, syntax_error};
pub use refusal::{ExpectedSyntax, ParseRefusal};
