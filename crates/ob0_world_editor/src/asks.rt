//! Defines the asks: the requests for edits that an editor sends and whose answers it may apply.
ghost use Rattle.std.specs.Prelude.{◌≡◌, IfOk};
ghost use Rattle.ob0_world_editor.specs.ModelValues.{model_ask_of};

use ob0_text::{Indent, Position};
use std::alloc::{AllocError, Global};

/// A request for edits of a document. The editor may apply the edits in the answer.
#[derive(Debug, Drop)]
pub enum Ask {
    Rename { position: Position, name: String },
    InlineHere { position: Position },
    InlineAll { position: Position },
    Format { indent: Indent },
}

/// Returns a copy of this request for edits.
pub fn copy_of_ask(alloc: Global, ask: &Ask) -> Result<Ask, AllocError>
    ensures { IfOk result (λ copy. model_ask_of copy ≡ model_ask_of ask.now) }
{
    match ask {
        Ask::Rename { position, name } => Ok(Ask::Rename {
            position: *position,
            name: String::from_str(alloc, name.as_str())?,
        }),
        Ask::InlineHere { position } => Ok(Ask::InlineHere {
            position: *position,
        }),
        Ask::InlineAll { position } => Ok(Ask::InlineAll {
            position: *position,
        }),
        Ask::Format { indent } => Ok(Ask::Format { indent: *indent }),
    }
}
