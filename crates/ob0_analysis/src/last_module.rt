//! Keeps the names and types of the last text that was a module, while the parser refuses the
//! changed texts.
//!
//! After most keystrokes in an unfinished statement the text has no tree. Meanwhile the names and
//! types of the earlier module are kept, as long as all differences from that module lie in one
//! body. The differences must come after the body's first identifier and before the END of its
//! block. When the text has a tree again, only that body is bound and checked
//! (`reuse_last_module`).
//!
//! The earlier module's tree isn't kept while the parser refuses the texts, so the body that
//! contains the differences can't be found again. Therefore the whole body counts as different from
//! the start (`keep_last_module`). Each further change must lie in the same body
//! (`keep_across_change`).

ghost use Rattle.std.specs.Prelude.{◌≡◌, IfSome};
ghost use Rattle.ob0_analysis.specs.LastModule.{IsEarlierModule, WidensDifference, KeepsLastModule, IsLastModuleOf};

use ob0_scan::{CommonPrefixAndSuffix, Tokens};
use ob0_scope_table::{Bindings, body_bounds_in_tree};
use ob0_tree::ModuleTree;
use ob0_types::CheckResult;

/// The names and types of the last text that was a module. `same` describes the tokens that the
/// current text is known to share with that module. The other tokens of that module are all tokens
/// of one body after its first identifier.
#[derive(Drop)]
pub(crate) struct LastModule {
    pub(crate) bindings: Bindings,
    pub(crate) types: CheckResult,
    pub(crate) same: CommonPrefixAndSuffix,
}

impl LastModule {
    /// Keeps the names and types of the previous text, a module (`tree`, `bindings`, `types`), for
    /// a changed text with the tokens `tokens`. All tokens of the previous text that may differ
    /// (`same.prefix..same.old_suffix`) must lie in one body, after its first identifier. Otherwise
    /// returns None. Later, all tokens of this body after its first identifier count as different.
    /// Also returns None if in the changed text they would end after the last token.
    pub(crate) fn keep_last_module(
        tokens: &Tokens,
        tree: &ModuleTree,
        bindings: Bindings,
        types: CheckResult,
        same: CommonPrefixAndSuffix,
    ) -> Option<LastModule>
        requires { IsEarlierModule tokens.now tree.now bindings types same }
        ensures { IfSome result (IsLastModuleOf tokens.now) }
    {
        let body = body_bounds_in_tree(tree, same.prefix, same.old_suffix)?;
        let prefix = body.first.checked_add(1)?;
        let end = body.closing.checked_sub(1)?;
        let wider = widen_difference(same, prefix, end)?;
        if wider.new_suffix > tokens.tokens().len() {
            return None;
        }
        Some(LastModule {
            bindings,
            types,
            same: wider,
        })
    }

    /// Keeps the names and types of the last module when the text changes again. `change` describes
    /// the tokens that this change keeps. Returns None if `last` is None, or if the change doesn't
    /// lie in the body that contains all earlier differences.
    pub(crate) fn keep_across_change(
        last: Option<LastModule>,
        change: CommonPrefixAndSuffix,
    ) -> Option<LastModule>
        ensures { KeepsLastModule last change result }
    {
        let Some(kept) = last else {
            return None;
        };
        let LastModule {
            bindings,
            types,
            same,
        } = kept;
        let wider = widen_difference(change, same.prefix, same.new_suffix)?;
        Some(LastModule {
            bindings,
            types,
            same: CommonPrefixAndSuffix {
                prefix: same.prefix,
                old_suffix: same.old_suffix,
                new_suffix: wider.new_suffix,
            },
        })
    }
}

/// Extends the range of tokens of the old text that may differ, from `same.prefix..same.old_suffix`
/// to `prefix..old_suffix`. In the new text the end of the range moves by the same number of tokens
/// as in the old text. Returns None if `prefix..old_suffix` doesn't contain the range of `same`.
fn widen_difference(
    same: CommonPrefixAndSuffix,
    prefix: usize,
    old_suffix: usize,
) -> Option<CommonPrefixAndSuffix>
    ensures wider { IfSome result (WidensDifference same) }
    ensures prefix { IfSome result (λ wider. wider.prefix ≡ prefix) }
    ensures suffix { IfSome result (λ wider. wider.old_suffix ≡ old_suffix) }
{
    if prefix > same.prefix {
        return None;
    }
    let more = old_suffix.checked_sub(same.old_suffix)?;
    let new_suffix = same.new_suffix.checked_add(more)?;
    Some(CommonPrefixAndSuffix {
        prefix,
        old_suffix,
        new_suffix,
    })
}
