//! Writes the first message of an editor: `initialize`.
ghost use Rattle.std.specs.Prelude.{◌≡◌, [], ◌∷◌, ◌++◌, Some, IfOk, OnOk};
ghost use Rattle.serde_json.specs.Data.{no_members, object};
ghost use Rattle.ob0_rpc.specs.Messages.{IsJsonOfContent};
ghost use Rattle.ob0_world_editor.specs.InitializeRequest.{client_capability_members, initialize_message};

use crate::json_objects::{write_three_members, write_two_members};
use crate::params::Request;
use ob0_rpc::{OneMemberObject, WriteJson, content_of_message};
use ob0_text::Unit;
use std::alloc::{AllocError, Global};

/// Returns the content of the request `initialize`, which begins a conversation. The client
/// declares that it accepts literal code actions, which contain their edits, and edits that mention
/// their documents' versions. If the unit is UTF-8, the client also offers to count positions in
/// bytes of UTF-8.
pub fn initialize(alloc: Global, unit: Unit) -> Result<Vec<u8>, AllocError>
    ensures { IfOk result (λ content. IsJsonOfContent content.items
        (Some (initialize_message unit))) }
{
    let capabilities = ClientCapabilities { unit };
    let params = &OneMemberObject {
        key: "capabilities",
        value: capabilities,
    };
    let (id, method) = ("initialize", "initialize");
    content_of_message(alloc, &Request { id, method, params })
}

/// The capabilities of the client, as a JSON value.
#[derive(Drop)]
struct ClientCapabilities {
    unit: Unit,
}

impl WriteJson for ClientCapabilities {
    ghost value = { λ c. object (client_capability_members c.unit) };

    fn write(&self, out: &mut Vec<u8>) -> Result<(), AllocError> {
        // The client accepts literal code actions, of any kind.
        let actions = OneMemberObject {
            key: "codeAction",
            value: OneMemberObject {
                key: "codeActionLiteralSupport",
                value: EmptyObject {},
            },
        };
        // The client accepts edits that mention their documents' versions.
        let edits = OneMemberObject {
            key: "workspaceEdit",
            value: OneMemberObject {
                key: "documentChanges",
                value: true,
            },
        };
        match self.unit {
            Unit::Utf16 => write_two_members(out, "textDocument", &actions, "workspace", &edits),
            Unit::Utf8 => {
                let encodings = ["utf-8"];
                let general = OneMemberObject {
                    key: "positionEncodings",
                    value: encodings.as_slice(),
                };
                write_three_members(
                    out,
                    "general",
                    &general,
                    "textDocument",
                    &actions,
                    "workspace",
                    &edits,
                )
            }
        }
    }
}

/// A JSON object without members.
#[derive(Drop)]
struct EmptyObject {}

impl WriteJson for EmptyObject {
    ghost value = { λ _. object no_members };

    fn write(&self, out: &mut Vec<u8>) -> Result<(), AllocError> {
        write_empty_object(out)
    }
}

fn write_empty_object(out: &mut Vec<u8>) -> Result<(), AllocError>
    ensures { OnOk result (out.new.items ≡ out.old.items ++ 123 ∷ 125 ∷ []) }
{
    out.extend_from_slice(b"{}")
}
