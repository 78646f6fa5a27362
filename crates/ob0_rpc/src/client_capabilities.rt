//! Reads the capabilities that a client announces in the params of `initialize`.
//!
//! A capability counts as absent if its value, or an object on the path to it, has another JSON
//! type than expected.
ghost use Rattle.std.specs.Prelude.{◌≡◌, ◌∷◌, [], codes, is_some, option_map, option_and_then};
ghost use Rattle.serde_json.specs.Find.{as_object, as_str};
ghost use Rattle.serde_json.specs.View.{view, items_view};
ghost use Rattle.ob0_rpc.specs.Requests.{client_features as client_in, contains_text, is_equal_text as is_that_text, is_true as truth_of, member_at_path};

use serde_json::Value;

/// The client's capabilities that matter to this server.
#[derive(Clone, Copy, Debug, Drop, PartialEq, Eq)]
pub struct ClientFeatures {
    /// The client offers positions in bytes of UTF-8.
    pub offers_utf8: bool,
    /// The client sends `prepareRename` before it requests a rename.
    pub prepares_renames: bool,
    /// The client accepts literal code actions, which contain their edits and aren't commands.
    pub accepts_literal_actions: bool,
    /// The client accepts edits that mention their documents' versions.
    pub accepts_document_changes: bool,
}

/// Returns the capabilities that a client announces in the params of `initialize`. A member whose
/// JSON type isn't the expected one counts as absent.
pub fn client_features(params: &Value) -> ClientFeatures
    ensures { result ≡ client_in (view params.now) }
{
    ClientFeatures {
        offers_utf8: offers_utf8(params),
        prepares_renames: is_true(prepare_rename_support(params)),
        accepts_literal_actions: is_object(action_literal_support(params)),
        accepts_document_changes: is_true(document_changes_support(params)),
    }
}

/// Returns the value at the path `capabilities.textDocument.rename.prepareSupport` in params, or
/// None if it is absent.
fn prepare_rename_support(params: &Value) -> Option<&Value>
    ensures { option_map (λ v. view v.now) result
        ≡ member_at_path
        (codes "capabilities" ∷ codes "textDocument" ∷ codes "rename" ∷ codes "prepareSupport" ∷ [])
        (view params.now) }
{
    let document = params.get("capabilities")?.get("textDocument")?;
    document.get("rename")?.get("prepareSupport")
}

/// Returns the value at the path `capabilities.textDocument.codeAction.codeActionLiteralSupport` in
/// params, or None if it is absent.
fn action_literal_support(params: &Value) -> Option<&Value>
    ensures { option_map (λ v. view v.now) result
        ≡ member_at_path (codes "capabilities"
        ∷ codes "textDocument"
        ∷ codes "codeAction"
        ∷ codes "codeActionLiteralSupport"
        ∷ []) (view params.now) }
{
    let document = params.get("capabilities")?.get("textDocument")?;
    document.get("codeAction")?.get("codeActionLiteralSupport")
}

/// Returns the value at the path `capabilities.workspace.workspaceEdit.documentChanges` in params,
/// or None if it is absent.
fn document_changes_support(params: &Value) -> Option<&Value>
    ensures { option_map (λ v. view v.now) result
        ≡ member_at_path (codes "capabilities"
        ∷ codes "workspace"
        ∷ codes "workspaceEdit"
        ∷ codes "documentChanges"
        ∷ []) (view params.now) }
{
    let workspace = params.get("capabilities")?.get("workspace")?;
    workspace.get("workspaceEdit")?.get("documentChanges")
}

/// Returns the value at the path `capabilities.general.positionEncodings` in params, or None if it
/// is absent.
fn position_encodings(params: &Value) -> Option<&Value>
    ensures { option_map (λ v. view v.now) result
        ≡ member_at_path (codes "capabilities" ∷ codes "general" ∷ codes "positionEncodings" ∷ [])
        (view params.now) }
{
    params
        .get("capabilities")?
        .get("general")?
        .get("positionEncodings")
}

/// Returns whether the member is the JSON value `true`. Any other member, and an absent member,
/// gives false.
fn is_true(member: Option<&Value>) -> bool
    ensures { result ≡ truth_of (option_map (λ v. view v.now) member.entry) }
{
    match member {
        Some(value) => value.as_bool().unwrap_or(false),
        None => false,
    }
}

/// Returns whether the member is a JSON object. An absent member gives false.
fn is_object(member: Option<&Value>) -> bool
    ensures { result
        ≡ is_some (option_and_then as_object (option_map (λ v. view v.now) member.entry)) }
{
    match member {
        Some(value) => value.is_object(),
        None => false,
    }
}

/// Returns whether the client offers positions in bytes of UTF-8: whether
/// `capabilities.general.positionEncodings` is a list that contains `utf-8`.
fn offers_utf8(params: &Value) -> bool
    ensures { result ≡ (client_in (view params.now)).offers_utf8 }
{
    let Some(encodings) = position_encodings(params) else {
        return false;
    };
    match encodings.as_array() {
        Some(items) => contains_text(items, "utf-8"),
        None => false,
    }
}

/// Returns whether one of these JSON values is a JSON string that equals `text`.
fn contains_text(items: &[Value], text: &str) -> bool
    ensures { result ≡ contains_text text.now (items_view items.now) }
{
    for item in items {
        if is_equal_text(item, text) {
            return true;
        }
    }
    false
}

/// Returns whether this JSON value is a JSON string that equals `text`.
fn is_equal_text(item: &Value, text: &str) -> bool
    ensures { result ≡ is_that_text text.now (as_str (view item.now)) }
{
    match item.as_str() {
        Some(found) => found == text,
        None => false,
    }
}
