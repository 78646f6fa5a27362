//! Writes the server's capabilities into the answer to `initialize`.
ghost use Rattle.std.specs.Prelude.{IfOk, OnOk};
ghost use Rattle.ob0_rpc.specs.AppendedJson.{AppendsMembersAndBrace};
ghost use Rattle.ob0_rpc.specs.MessageViews.{json_of_id};
ghost use Rattle.ob0_rpc.specs.JsonShapes.{result_message};
ghost use Rattle.ob0_rpc.specs.WrittenMessages.{Writes};
ghost use Rattle.ob0_session_json.specs.JsonShapes.{code_action_options, initialize_result, members_after_definition_provider, members_after_position_encoding, rename_provider, server_capabilities, document_sync_options};

use ob0_rpc::{
    ClientFeatures, Id, WriteJson, end_object, success_response_text, write_first_member,
    write_next_member,
};
use std::alloc::{AllocError, Global};

/// Returns the JSON text of the answer to `initialize`, with the server's capabilities for a client
/// that has the capabilities `client`.
pub fn initialize_answer(
    alloc: Global,
    id: &Id,
    client: ClientFeatures,
) -> Result<Vec<u8>, AllocError>
    ensures { IfOk result
        (λ bytes. Writes (result_message (json_of_id id.now) (initialize_result client)) bytes.items) }
{
    let capabilities = ServerCapabilities { client };
    success_response_text(alloc, id, &InitializeResult { capabilities })
}

/// The result of `initialize`: an object with the server's capabilities.
#[derive(Drop)]
pub struct InitializeResult {
    pub capabilities: ServerCapabilities,
}

impl WriteJson for InitializeResult {
    ghost value = { λ r. initialize_result r.capabilities.client };

    fn write(&self, out: &mut Vec<u8>) -> Result<(), AllocError> {
        write_first_member(out, "capabilities", &self.capabilities)?;
        end_object(out)
    }
}

/// The server's capabilities, which depend on the client's capabilities.
#[derive(Drop)]
pub struct ServerCapabilities {
    pub client: ClientFeatures,
}

impl WriteJson for ServerCapabilities {
    ghost value = { λ c. server_capabilities c.client };

    fn write(&self, out: &mut Vec<u8>) -> Result<(), AllocError> {
        if self.client.accepts_literal_actions {
            write_first_member(out, "codeActionProvider", &CodeActionOptions {})?;
            write_next_member(out, "definitionProvider", &true)?;
            self.write_members_after_definition_provider(out)
        } else {
            write_first_member(out, "definitionProvider", &true)?;
            self.write_members_after_definition_provider(out)
        }
    }
}

impl ServerCapabilities {
    /// Writes the members of the capabilities after `definitionProvider`, and the closing brace.
    fn write_members_after_definition_provider(&self, out: &mut Vec<u8>) -> Result<(), AllocError>
        ensures { OnOk result
            (AppendsMembersAndBrace 44 (members_after_definition_provider self.now.client) out.old.items out.new.items) }
    {
        write_next_member(out, "documentFormattingProvider", &true)?;
        write_next_member(out, "hoverProvider", &true)?;
        if self.client.offers_utf8 {
            write_next_member(out, "positionEncoding", &"utf-8")?;
            self.write_members_after_position_encoding(out)
        } else {
            self.write_members_after_position_encoding(out)
        }
    }

    /// Writes the last members of the capabilities, starting with `referencesProvider`, and the
    /// closing brace.
    fn write_members_after_position_encoding(&self, out: &mut Vec<u8>) -> Result<(), AllocError>
        ensures { OnOk result
            (AppendsMembersAndBrace 44 (members_after_position_encoding self.now.client) out.old.items out.new.items) }
    {
        let announces_prepare_rename = self.client.prepares_renames;
        write_next_member(out, "referencesProvider", &true)?;
        write_next_member(
            out,
            "renameProvider",
            &RenameProvider {
                announces_prepare_rename,
            },
        )?;
        write_next_member(out, "textDocumentSync", &TextDocumentSyncOptions {})?;
        end_object(out)
    }
}

/// The value of `codeActionProvider`: the kinds of code actions that the server offers.
#[derive(Drop)]
pub struct CodeActionOptions {}

impl WriteJson for CodeActionOptions {
    ghost value = { λ _. code_action_options };

    fn write(&self, out: &mut Vec<u8>) -> Result<(), AllocError> {
        let kinds = ["refactor.inline"];
        write_first_member(out, "codeActionKinds", &kinds.as_slice())?;
        end_object(out)
    }
}

/// The value of `renameProvider`. If the client sends requests `prepareRename`, the value announces
/// that the server answers them. Otherwise it is `true`.
#[derive(Drop)]
pub struct RenameProvider {
    pub announces_prepare_rename: bool,
}

impl WriteJson for RenameProvider {
    ghost value = { λ p. rename_provider p.announces_prepare_rename };

    fn write(&self, out: &mut Vec<u8>) -> Result<(), AllocError> {
        if self.announces_prepare_rename {
            write_first_member(out, "prepareProvider", &true)?;
            end_object(out)
        } else {
            true.write(out)
        }
    }
}

/// The value of `textDocumentSync`. It asks the client to report when a document is opened, changed
/// or closed. Each change is to be sent as a range with its new text.
#[derive(Drop)]
pub struct TextDocumentSyncOptions {}

impl WriteJson for TextDocumentSyncOptions {
    ghost value = { λ _. document_sync_options };

    fn write(&self, out: &mut Vec<u8>) -> Result<(), AllocError> {
        write_first_member(out, "change", &2u64)?;
        write_next_member(out, "openClose", &true)?;
        end_object(out)
    }
}
