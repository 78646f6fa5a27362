//! Lowers a well-typed module to a program of the machine. The program has the module's meaning.
//!
//! There are three layers. The first lowers designators, expressions and arguments, the second the
//! statements of a body, and the third declarations, blocks and procedures. The first two layers
//! lower one body with a scene (`Scene`), which gives each declaration its site in lowered code.
//! For code in the body, a variable has a slot (`Slot`), from which its place is computed. A
//! procedure has a target (`Target`), which a call enters. The contracts of the first two layers
//! hold if the scene has the object, the slot or the target of each checked name
//! (`SceneAgreesWithChecker`). So these contracts mention no environments, placements or blocks.
//! The third layer proves `SceneAgreesWithChecker` for each body. If an expression has a type, its
//! code is correct (`LowersExpression`). If an expression has no type, nothing is claimed about its
//! code. So every tree is accepted and lowered.
#![tactic(auto)]

mod declaration_sites;
mod designators_and_expressions;
mod lowered_assignments;
mod lowered_calls;
mod lowered_expression;
mod lowering_context;
mod operation_chains;
mod operators;
mod places;
mod programs;
mod scene;
mod statement_operands;
mod statements;
mod type_layouts;

pub(crate) use lowered_expression::{LoweredExpression, TypedPlace};
pub use programs::{Program, lower};
pub(crate) use scene::{LoweredSite, Scene};
pub(crate) use statements::lower_body;
pub(crate) use type_layouts::TypeLayouts;
