//! Analyses a text without lexical faults. The result has the text's tokens, and its module or the
//! parser's refusal.

ghost use Rattle.std.specs.Prelude.{◌≡◌, [], true, IfErr, IfOk, IfSome, MatchOption, map};
ghost use Rattle.ob0_scan.specs.ScanRefusals.{AreFaultsOfRefusedText};
ghost use Rattle.ob0_scan.specs.TextWithTokens.{IsScan, IsScanOf};
ghost use Rattle.ob0_tree.specs.ParsedModule.{TreeMatchesText, parsed_module};
ghost use Rattle.ob0_scope_table.specs.Bindings.{resolution_with_bindings};
ghost use Rattle.ob0_scope_table.specs.Resolution.{IsResolution};
ghost use Rattle.ob0_parse.specs.KeptTreeTokens.{KeptTreesMatchTokens};
ghost use Rattle.ob0_analysis.specs.AnalysisInvariants.{IsValidParseOutcome, IsRefusedByParser, IsRightReanalysisFailure};
ghost use Rattle.ob0_analysis.specs.ReuseConditions.{KeptResultsMatchPreviousText, PreviousTextWasModule, IsRightScanFailureAfterModule, IsRightScanFailureAfterRefusal};
ghost use Rattle.ob0_analysis.specs.LastModule.{IsEarlierModule, IsLastModuleOf};
ghost use Rattle.ob0_analysis.specs.declared.scanned_text.ReanalysisFailure.TheVariants as reanalysis_failure;
ghost use Rattle.ob0_analysis.specs.declared.scanned_text.ParseOutcome.TheVariants.{NoTree};
ghost use Rattle.ob0_analysis.specs.ReportedErrors.{IsWellTypedModule, ReportsErrorsOf, reported_diagnosis_of};
ghost use Rattle.ob0_analysis.specs.OneBody.{IsEarlierModuleWithSameKinds};

use crate::changed_body::{rebind_names, recheck_types};
use crate::diagnoses::Diagnosis;
use crate::differences::TextDifference;
use crate::last_module::LastModule;
use crate::module_parts::ModuleParts;
use crate::replaced_body::reuse_last_module;
use crate::text_errors::{diagnose_module, diagnose_refusal};
use ob0_parse::{KeptTrees, reparse_tree};
use ob0_parse_descent::ParseRefusal;
use ob0_scan::laws::scan_is_unique;
use ob0_scan::{
    CommonPrefixAndSuffix, Fault, RescanFailure, RescanWithComparison, Tokens, rescan_in_place,
};
use ob0_scope::laws::{bindings_depend_only_on_names, bindings_depend_only_on_spellings};
use ob0_scope_table::{Bindings, Resolved, body_bounds_in_tree};
use ob0_tree::{Module, ModuleTree};
use ob0_types::CheckResult;
use ob0_types::laws::check_result_depends_only_on_spellings;
use std::alloc::{AllocError, Global};
use std::marker::Model;

/// A text without lexical faults that the parser refuses: its tokens and the refusal. `kept` has
/// the trees of procedures and of the module's body that the next parse can reuse. `last` has the
/// names and types of the last text that was a module. `last` is None if there was no such text, or
/// if the differences from that text aren't known to lie in one body.
#[derive(Drop)]
pub(crate) struct UnparsableText {
    tokens: Tokens,
    refusal: ParseRefusal,
    kept: KeptTrees,
    last: Option<LastModule>,
}

/// The result of parsing a text: the parser's refusal or a module.
#[derive(Drop)]
pub(crate) enum ParseOutcome {
    NoTree(UnparsableText),
    Module(ModuleParts),
}

/// The analysis of a text without lexical faults.
#[derive(Drop)]
pub(crate) struct ScannedTextAnalysis {
    parse_outcome: ParseOutcome,
}

impl Model for ScannedTextAnalysis {
    ghost use Rattle.std.specs.Prelude.{List, ℕ};

    ghost Value = { List ℕ };

    ghost use Rattle.ob0_analysis.specs.AnalysisInvariants.{text_of_parse_outcome, IsValidParseOutcome};

    ghost view = { λ r. text_of_parse_outcome r.parse_outcome };

    ghost invariant = { λ r. IsValidParseOutcome r.parse_outcome };
}

/// The reason why a changed text can't be analysed: its lexical faults, or lack of memory. The
/// analysis of the previous text is returned with the faults.
#[derive(Drop)]
pub(crate) enum ReanalysisFailure {
    Faults(Vec<Fault>, ScannedTextAnalysis),
    Memory,
}

impl From<AllocError> for ReanalysisFailure {
    ghost from_gives = { λ _ e. e ≡ reanalysis_failure.Memory };

    fn from(_error: AllocError) -> ReanalysisFailure {
        ReanalysisFailure::Memory
    }
}

impl ScannedTextAnalysis {
    /// Parses and analyses a text, given its tokens. The trees in `kept` and the names and types in
    /// `last` come from earlier texts and are reused if possible.
    pub(crate) fn analyse_tokens(
        alloc: Global,
        tokens: Tokens,
        kept: KeptTrees,
        last: Option<LastModule>,
    ) -> Result<ScannedTextAnalysis, AllocError>
        requires kept { KeptTreesMatchTokens tokens.tokens kept }
        requires last { IfSome last (IsLastModuleOf tokens) }
        ensures { IfOk result (λ r. r ≡ tokens.text) }
    {
        let mut kept = kept;
        match reparse_tree(alloc, &tokens, &mut kept) {
            Ok(tree) => ScannedTextAnalysis::analyse_tree(alloc, tokens, tree, last),
            Err(ParseRefusal::Memory) => Err(AllocError),
            Err(refusal) => Ok(ScannedTextAnalysis {
                parse_outcome: ParseOutcome::NoTree(UnparsableText {
                    tokens,
                    refusal,
                    kept,
                    last,
                }),
            }),
        }
    }

    /// Binds the names and checks the types of a text that has the tree `tree`. If an earlier
    /// module (`last`) differs from this module in only one body, the earlier module's names and
    /// types outside this body are reused.
    fn analyse_tree(
        alloc: Global,
        tokens: Tokens,
        tree: ModuleTree,
        last: Option<LastModule>,
    ) -> Result<ScannedTextAnalysis, AllocError>
        requires parsed { TreeMatchesText (parsed_module tokens tree) }
        requires last { IfSome last (IsLastModuleOf tokens) }
        ensures { IfOk result (λ r. r ≡ tokens.text) }
    {
        let parts = match last {
            Some(last) => reuse_last_module(alloc, tokens, tree, last)?,
            None => ModuleParts::bind_and_check(alloc, tokens, tree)?,
        };
        Ok(ScannedTextAnalysis::from_module(parts))
    }

    /// Returns the analysis of a text, given the parts of its module.
    fn from_module(parts: ModuleParts) -> ScannedTextAnalysis
        ensures { result ≡ parts.module_read.source.text }
    {
        ScannedTextAnalysis {
            parse_outcome: ParseOutcome::Module(parts),
        }
    }

    /// Analyses the changed text `text`. These results for the previous text are reused:
    /// - always: the tokens and the trees of procedures that both texts have in common;
    /// - if all tokens have the same kinds as before: the tree or the parser's refusal;
    /// - if in addition all identifiers have the same spelling and no name has a fault: the
    ///   bindings;
    /// - if all differences lie in one body: the bindings and types outside this body;
    /// - if all tokens have the same spelling: everything.
    ///
    /// If the new text has lexical faults, the error has these faults and the analysis of the
    /// previous text.
    pub(crate) fn reanalyse(
        self,
        alloc: Global,
        text: &str,
    ) -> Result<ScannedTextAnalysis, ReanalysisFailure>
        ensures ok { IfOk result (λ r. r ≡ text.now) }
        ensures err { IfErr result (IsRightReanalysisFailure text.now) }
    {
        let ScannedTextAnalysis { parse_outcome } = self;
        match parse_outcome {
            ParseOutcome::NoTree(ill) => ScannedTextAnalysis::analyse_after_refusal(
                alloc, ill, text,
            ),
            ParseOutcome::Module(parts) => ScannedTextAnalysis::analyse_after_module(
                alloc, parts, text,
            ),
        }
    }

    /// Scans and analyses the changed text `text`. The parser refused the previous text (`ill`).
    fn analyse_after_refusal(
        alloc: Global,
        ill: UnparsableText,
        text: &str,
    ) -> Result<ScannedTextAnalysis, ReanalysisFailure>
        requires { IsValidParseOutcome (NoTree ill) }
        ensures ok { IfOk result (λ r. r ≡ text.now) }
        ensures err { IfErr result (IsRightReanalysisFailure text.now) }
    {
        let UnparsableText {
            tokens,
            refusal,
            kept,
            last,
        } = ill;
        let TextDifference {
            start,
            removed,
            added,
        } = TextDifference::between(tokens.text(), text);
        match rescan_in_place(alloc, tokens, text, start, removed, added) {
            Ok(changed) => Ok(ScannedTextAnalysis::reanalyse_refused_text(
                alloc, changed, refusal, kept, last,
            )?),
            Err(unread) => Err(ScannedTextAnalysis::reanalysis_failure_after_refusal(
                text, unread, refusal, kept, last,
            )),
        }
    }

    /// Returns the error for a changed text that can't be scanned. The parser refused the previous
    /// text. If the reason is lexical faults, the error also has the analysis of the previous text.
    fn reanalysis_failure_after_refusal(
        _text: &str,
        unread: RescanFailure,
        refusal: ParseRefusal,
        kept: KeptTrees,
        last: Option<LastModule>,
    ) -> ReanalysisFailure
        requires { IsRightScanFailureAfterRefusal _text.now refusal kept last unread }
        ensures { IsRightReanalysisFailure _text.now result }
    {
        match unread {
            RescanFailure::Faults(faults, tokens) => {
                let before = ScannedTextAnalysis {
                    parse_outcome: ParseOutcome::NoTree(UnparsableText {
                        tokens,
                        refusal,
                        kept,
                        last,
                    }),
                };
                ReanalysisFailure::Faults(faults, before)
            }
            RescanFailure::Memory => ReanalysisFailure::Memory,
        }
    }

    /// Analyses a changed text, given its scan (`changed`). The parser refused the previous text.
    /// If all tokens have the same kinds as before, the refusal is kept. Otherwise the text is
    /// parsed. The kept trees (`kept`) and the names and types of the last module (`last`) are then
    /// reused if possible.
    fn reanalyse_refused_text(
        alloc: Global,
        changed: RescanWithComparison,
        refusal: ParseRefusal,
        kept: KeptTrees,
        last: Option<LastModule>,
    ) -> Result<ScannedTextAnalysis, AllocError>
        requires same_kinds { changed.same_kinds ≡ true → IsRefusedByParser changed.rescan.tokens
            refusal }
        requires before { KeptResultsMatchPreviousText changed kept last }
        ensures { IfOk result (λ r. r ≡ changed.rescan.tokens.text) }
    {
        let RescanWithComparison {
            rescan,
            same,
            same_kinds,
            same_names: _,
            same_words: _,
        } = changed;
        let tokens = rescan.tokens;
        let last = LastModule::keep_across_change(last, same);
        if !same_kinds {
            return ScannedTextAnalysis::analyse_tokens(
                alloc,
                tokens,
                kept.move_to_changed_text(same),
                last,
            );
        }
        Ok(ScannedTextAnalysis {
            parse_outcome: ParseOutcome::NoTree(UnparsableText {
                tokens,
                refusal,
                kept,
                last,
            }),
        })
    }

    /// Scans and analyses the changed text `text`. The previous text was a module (`old`).
    fn analyse_after_module(
        alloc: Global,
        old: ModuleParts,
        text: &str,
    ) -> Result<ScannedTextAnalysis, ReanalysisFailure>
        ensures ok { IfOk result (λ r. r ≡ text.now) }
        ensures err { IfErr result (IsRightReanalysisFailure text.now) }
    {
        let (tokens, tree, bindings, types) = old.into_parts();
        // The proof needs the invariant of the tokens, which this call's contract states.
        let _text = tokens.text();
        let TextDifference {
            start,
            removed,
            added,
        } = TextDifference::between(tokens.text(), text);
        match rescan_in_place(alloc, tokens, text, start, removed, added) {
            Ok(changed) => Ok(ScannedTextAnalysis::reanalyse_module(
                alloc, changed, tree, bindings, types,
            )?),
            Err(unread) => Err(ScannedTextAnalysis::reanalysis_failure_after_module(
                text, unread, tree, bindings, types,
            )),
        }
    }

    /// Returns the error for a changed text that can't be scanned. The previous text was a module.
    /// If the reason is lexical faults, the error also has the analysis of that module.
    fn reanalysis_failure_after_module(
        _text: &str,
        unread: RescanFailure,
        tree: ModuleTree,
        bindings: Bindings,
        types: CheckResult,
    ) -> ReanalysisFailure
        requires { IsRightScanFailureAfterModule _text.now tree bindings types unread }
        ensures { IsRightReanalysisFailure _text.now result }
    {
        match unread {
            RescanFailure::Faults(faults, tokens) => {
                let last = ModuleParts::from_parts(tokens, tree, bindings, types);
                ReanalysisFailure::Faults(faults, ScannedTextAnalysis::from_module(last))
            }
            RescanFailure::Memory => ReanalysisFailure::Memory,
        }
    }

    /// Analyses a changed text, given its scan (`changed`). The previous text was a module with the
    /// tree `tree`. If all tokens have the same spellings as before, everything is kept. If they
    /// have the same kinds, the tree is kept. The bindings and types are reused if possible.
    fn reanalyse_module(
        alloc: Global,
        changed: RescanWithComparison,
        tree: ModuleTree,
        bindings: Bindings,
        types: CheckResult,
    ) -> Result<ScannedTextAnalysis, AllocError>
        requires { PreviousTextWasModule changed tree bindings types }
        ensures { IfOk result (λ r. r ≡ changed.rescan.tokens.text) }
    {
        bindings_depend_only_on_names();
        bindings_depend_only_on_spellings();
        check_result_depends_only_on_spellings();
        let RescanWithComparison {
            rescan,
            same,
            same_kinds,
            same_names,
            same_words,
        } = changed;
        let tokens = rescan.tokens;
        if !same_kinds {
            return ScannedTextAnalysis::reanalyse_with_changed_kinds(
                alloc, tokens, tree, bindings, types, same,
            );
        }
        if same_words {
            let parts = ModuleParts::from_parts(tokens, tree, bindings, types);
            return Ok(ScannedTextAnalysis::from_module(parts));
        }
        ScannedTextAnalysis::reanalyse_with_same_tree(
            alloc, tokens, tree, bindings, types, same, same_names,
        )
    }

    /// Parses and analyses a changed text whose tokens may have other kinds than the tokens of the
    /// previous text, a module. Unchanged procedures of the previous tree are reused. If the
    /// changed text is a module that differs from the previous one in only one body, names and
    /// types outside this body are reused.
    fn reanalyse_with_changed_kinds(
        alloc: Global,
        tokens: Tokens,
        tree: ModuleTree,
        bindings: Bindings,
        types: CheckResult,
        same: CommonPrefixAndSuffix,
    ) -> Result<ScannedTextAnalysis, AllocError>
        requires { IsEarlierModule tokens tree bindings types same }
        ensures { IfOk result (λ r. r ≡ tokens.text) }
    {
        let last = LastModule::keep_last_module(&tokens, &tree, bindings, types, same);
        let kept = KeptTrees::from_tree(alloc, tree)?;
        ScannedTextAnalysis::analyse_tokens(alloc, tokens, kept.move_to_changed_text(same), last)
    }

    /// Analyses a text that has the same tree as the previous text. `same_names` says that the
    /// identifiers have the same spellings as before. If the texts differ in only one body, the
    /// bindings and types outside this body are reused.
    fn reanalyse_with_same_tree(
        alloc: Global,
        tokens: Tokens,
        tree: ModuleTree,
        bindings: Bindings,
        types: CheckResult,
        same: CommonPrefixAndSuffix,
        same_names: bool,
    ) -> Result<ScannedTextAnalysis, AllocError>
        requires parsed { TreeMatchesText (parsed_module tokens tree) }
        requires before { IsEarlierModuleWithSameKinds tokens tree bindings types same }
        requires resolved { same_names ≡ true
            → bindings.faults.items ≡ []
            → IsResolution (resolution_with_bindings (parsed_module tokens tree) bindings) }
        ensures { IfOk result (λ r. r ≡ tokens.text) }
    {
        let body = body_bounds_in_tree(&tree, same.prefix, same.old_suffix);
        let names = rebind_names(
            alloc,
            &Module::from_parts(&tokens, &tree),
            bindings,
            same,
            same_names,
            body,
        )?;
        let types = recheck_types(
            alloc,
            &Resolved::from_parts(&Module::from_parts(&tokens, &tree), &names),
            types,
            body,
        )?;
        let parts = ModuleParts::from_parts(tokens, tree, names, types);
        Ok(ScannedTextAnalysis::from_module(parts))
    }

    /// Returns the text that was analysed.
    pub(crate) fn text(&self) -> &str
        ensures { result.now ≡ self.now }
    {
        match &self.parse_outcome {
            ParseOutcome::NoTree(ill) => ill.tokens.text(),
            ParseOutcome::Module(parts) => parts.tokens().text(),
        }
    }

    /// Returns the module of the text with its tokens, tree, bindings and types. Returns None if
    /// the text has no tree.
    pub(crate) fn module_parts(&self) -> Option<&ModuleParts>
        ensures { MatchOption result (¬ IsWellTypedModule self.now)
            (λ m. IsScanOf self.now m.now.module_read.source) }
    {
        scan_is_unique();
        match &self.parse_outcome {
            ParseOutcome::NoTree(ill) => {
                // The proof needs the invariant of the tokens, which this call's contract states.
                let _text = ill.tokens.text();
                None
            }
            ParseOutcome::Module(parts) => {
                // The proof needs the invariant of the tokens, which this call's contract states.
                let _text = parts.tokens().text();
                Some(parts)
            }
        }
    }

    /// Returns the errors of the text: the parser's refusal, or the faults of names and types.
    pub(crate) fn diagnoses(&self, alloc: Global) -> Result<Vec<Diagnosis>, AllocError>
        ensures { IfOk result (λ list. ReportsErrorsOf self.now
            (map reported_diagnosis_of list.items)) }
    {
        match &self.parse_outcome {
            ParseOutcome::NoTree(ill) => diagnose_refusal(alloc, &ill.tokens, &ill.refusal),
            ParseOutcome::Module(parts) => diagnose_module(alloc, parts),
        }
    }
}
