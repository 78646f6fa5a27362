//! Keeps the analysis of a text as one value, and updates it when the text changes.
//!
//! An `Analysis` owns one of two things:
//! - For a text without lexical faults, a `ScannedTextAnalysis`. It has the parts of the module, or
//!   the parser's refusal and the tokens.
//! - For a text with lexical faults, an `UnscannableTextAnalysis`. It has the text, its faults and,
//!   if it is kept, the `ScannedTextAnalysis` of the last text without lexical faults.
//!
//! In contracts, the value of an `Analysis` is only the text. The invariant of `Analysis` says that
//! the analysis is right for that text (`IsValidAnalysisResult`, `IsValidParseOutcome`). So
//! `analyse_text` and `reanalyse` have the same `ensures` clause, which doesn't mention the results
//! that are reused. The crates that use an `Analysis` don't depend on how much is reused.
//!
//! `reanalyse` finds the common beginning and end of the old and the new text
//! (`TextDifference::between`). It scans only the rest, and replaces the old tokens there
//! (`rescan_in_place`). The next step depends on the tokens:
//! - All tokens have the same kinds as before, and the old text has a tree: the tree is kept. It
//!   has token indexes instead of names and numbers, so the new text has the same tree
//!   (`tree_stays` of `ob0_parse`). Bindings are kept if the identifiers have the same spelling and
//!   no name has a fault. Otherwise names are bound again. Types are checked again unless all
//!   tokens have the same spelling (see below). If all tokens that may differ in spelling lie in
//!   one body, only names and types in that body are bound and checked again (`changed_body.rt`).
//! - All tokens have the same kinds as before, and the parser refused the old text: the refusal is
//!   kept (`refusal_stays`). The parser reads only the kinds of tokens, so it would stop at the
//!   same token. This saves the parsing for half of the keystrokes in an unfinished statement.
//! - A kind has changed: the text is parsed, but unchanged procedures of the module's own block are
//!   reused. So is an unchanged module body if the module has procedures (`reparse_tree`). If the
//!   tokens that differ lie in one body of both modules, after its first identifier, all results
//!   outside the body are kept. Their token indexes are adapted (`replaced_body.rt`). The two
//!   modules are equal outside this body (`body_replaced` in `proofs/NewBody.antt`). Between the
//!   two modules there may be texts that the parser refuses. Meanwhile the results for the earlier
//!   module are kept (`last_module.rt`).
//!
//! If all tokens have the same spelling (`words_of_tokens`), for example after a change of blanks,
//! line endings or comments, everything is kept. The tree has the same names and numbers, and the
//! places of the kept faults are token indexes (`bindings_depend_only_on_spellings` of `ob0_scope`,
//! `check_result_depends_only_on_spellings` of `ob0_types`). The faults get their spans only when
//! the errors of the text are requested.
//!
//! If a new text has lexical faults, all results for the last text without lexical faults are kept.
//! This is possible because a failing scan returns the old tokens (`IsRightRescanFailure`). The
//! next successful scan starts from these tokens, after any number of texts with lexical faults. So
//! if a bad character is typed and removed, nothing is lost. If the new text is much shorter than
//! the previous text or an earlier one (`MAX_SPARE_BYTES`, `room`), nothing is kept.

ghost use Rattle.std.specs.Prelude.{◌≡◌, ◌≤◌, IfErr, IfOk, MatchOption, length, map};
ghost use Rattle.std.specs.Str.{IsUtf8};
ghost use Rattle.ob0_scan.specs.ScanRefusals.{AreFaultsOfRefusedText};
ghost use Rattle.ob0_scan.specs.TextWithTokens.{IsScannable, IsScanOf};
ghost use Rattle.ob0_analysis.specs.ReportedErrors.{IsWellTypedModule, ReportsErrorsOf, reported_diagnosis_of};

use crate::diagnoses::{Diagnosis, diagnoses_of_faults};
use crate::module_parts::ModuleParts;
use crate::scanned_text::{ReanalysisFailure, ScannedTextAnalysis};
use ob0_parse::KeptTrees;
use ob0_scan::{Fault, ScanRefusal, scan};
use std::alloc::{AllocError, Global};
use std::marker::Model;

/// Limits the spare room, in bytes, of an old analysis. If half of its `room` exceeds the new
/// text's length by more than this number, the analysis is dropped and nothing of it is reused.
const MAX_SPARE_BYTES: usize = 4096;

/// The analysis of a text with lexical faults: the text, its lexical faults, and the analysis of
/// the last earlier text without lexical faults (`last`). `last` is None if no such analysis is
/// kept.
#[derive(Drop)]
pub(crate) struct UnscannableTextAnalysis {
    text: String,
    faults: Vec<Fault>,
    last: Option<ScannedTextAnalysis>,
}

/// The result of analysing a text: `Unscannable` for a text with lexical faults, otherwise
/// `Scannable` with the analysis of its tokens.
#[derive(Drop)]
pub(crate) enum AnalysisResult {
    Unscannable(UnscannableTextAnalysis),
    Scannable(ScannedTextAnalysis),
}

/// The analysis of a text. In contracts its value is only the text, because an analysis that reuses
/// earlier results answers like one from scratch.
pub struct Analysis {
    outcome: AnalysisResult,
    /// The length, in bytes, of the longest text for which the lists of this analysis were used:
    /// this text or an earlier one. The lists may have room for that much text, because reused
    /// lists keep their capacity. If a text with lexical faults has no kept analysis, `room` is 0.
    room: usize,
}

// This impl is written by hand, because each crate that drops an `Analysis` would have to prove a
// derived impl again.
impl Drop for Analysis {
    fn drop(self) {
        let Analysis {
            outcome: _found,
            room: _,
        } = self;
    }
}

impl Model for Analysis {
    ghost use Rattle.std.specs.Prelude.{List, ℕ};

    ghost Value = { List ℕ };

    ghost use Rattle.ob0_analysis.specs.AnalysisInvariants.{text_of_analysis_result, IsValidAnalysisResult};

    ghost view = { λ a. text_of_analysis_result a.outcome };

    ghost invariant = { λ a. IsValidAnalysisResult a.outcome };
}

impl Analysis {
    /// Analyses a text from scratch. Fails only if an allocation fails.
    pub fn analyse_text(alloc: Global, text: &str) -> Result<Analysis, AllocError>
        ensures { IfOk result (λ a. a ≡ text.now) }
    {
        match scan(alloc, text) {
            Ok(tokens) => {
                let read = ScannedTextAnalysis::analyse_tokens(
                    alloc,
                    tokens,
                    KeptTrees::empty(alloc),
                    None,
                )?;
                Ok(Analysis {
                    outcome: AnalysisResult::Scannable(read),
                    room: text.len(),
                })
            }
            Err(refusal) => match refusal {
                ScanRefusal::Faults(faults) => Analysis::unscannable_text_analysis(
                    alloc, text, faults, None, 0,
                ),
                ScanRefusal::Memory => Err(AllocError),
            },
        }
    }

    /// Analyses the changed text `text`, and reuses results for the parts that the old and the new
    /// text have in common (`ScannedTextAnalysis::reanalyse`). If the new text has lexical faults,
    /// the results for the last text without lexical faults are kept. If an earlier text was much
    /// longer than the new text, nothing is reused or kept. Fails only if an allocation fails.
    pub fn reanalyse(self, alloc: Global, text: &str) -> Result<Analysis, AllocError>
        ensures { IfOk result (λ a. a ≡ text.now) }
    {
        let Analysis { outcome, room } = self;
        let last = match outcome {
            AnalysisResult::Unscannable(ill) => ill.last,
            AnalysisResult::Scannable(read) => Some(read),
        };
        match last {
            None => Analysis::analyse_text(alloc, text),
            Some(last) => Analysis::analyse_after_scanned_text(alloc, last, room, text),
        }
    }

    /// Analyses a changed text (`text`), and reuses the analysis `read` of an earlier text, which
    /// has no lexical faults. The lists of `read` may have room for a text of `room` bytes. If
    /// `room` is much more than `text` needs, `read` is dropped, because reused lists keep their
    /// capacity.
    fn analyse_after_scanned_text(
        alloc: Global,
        read: ScannedTextAnalysis,
        room: usize,
        text: &str,
    ) -> Result<Analysis, AllocError>
        ensures { IfOk result (λ a. a ≡ text.now) }
    {
        if room / 2 > text.len().saturating_add(MAX_SPARE_BYTES) {
            return Analysis::analyse_text(alloc, text);
        }
        match read.reanalyse(alloc, text) {
            Ok(read) => Ok(Analysis {
                outcome: AnalysisResult::Scannable(read),
                room: room.max(text.len()),
            }),
            Err(refusal) => match refusal {
                ReanalysisFailure::Faults(faults, last) => {
                    Analysis::unscannable_text_analysis(alloc, text, faults, Some(last), room)
                }
                ReanalysisFailure::Memory => Err(AllocError),
            },
        }
    }

    /// Returns the analysis of a text with these lexical faults. `last` is the kept analysis of the
    /// last text without lexical faults, or None. `room` is the number of bytes of text for which
    /// the lists of `last` may have room.
    fn unscannable_text_analysis(
        alloc: Global,
        text: &str,
        faults: Vec<Fault>,
        last: Option<ScannedTextAnalysis>,
        room: usize,
    ) -> Result<Analysis, AllocError>
        requires faults { AreFaultsOfRefusedText text.now faults.items }
        requires unscannable { IsScannable text.now → ⊥ }
        ensures { IfOk result (λ a. a ≡ text.now) }
    {
        let text = String::from_str(alloc, text)?;
        Ok(Analysis {
            outcome: AnalysisResult::Unscannable(UnscannableTextAnalysis { text, faults, last }),
            room,
        })
    }

    /// Returns the text that was analysed.
    pub fn text(&self) -> &str
        ensures { result.now ≡ self.now }
    {
        match &self.outcome {
            AnalysisResult::Unscannable(ill) => ill.text.as_str(),
            AnalysisResult::Scannable(read) => read.text(),
        }
    }

    /// Returns a measure of the memory that the analysis uses, in bytes of text. The measure is the
    /// text's length or the field `room`, whichever is greater. If the text has lexical faults, the
    /// measure is the text's length plus `room`.
    pub fn size_in_bytes(&self) -> usize
        ensures { length self.now ≤ result }
    {
        let own = self.text().len();
        match &self.outcome {
            AnalysisResult::Unscannable(_) => own.saturating_add(self.room),
            AnalysisResult::Scannable(_) => own.max(self.room),
        }
    }

    /// Returns the module of the text with its tokens, tree, bindings and types. Returns None if
    /// the text has no tree.
    pub(crate) fn module_parts(&self) -> Option<&ModuleParts>
        ensures { MatchOption result (¬ IsWellTypedModule self.now)
            (λ m. IsScanOf self.now m.now.module_read.source) }
    {
        match &self.outcome {
            AnalysisResult::Unscannable(_) => None,
            AnalysisResult::Scannable(read) => read.module_parts(),
        }
    }

    /// Returns the errors of the text. The list is empty exactly if the text is a well-typed
    /// module.
    /// - If the text has lexical faults, the errors are the first hundred lexical faults, in text
    ///   order.
    /// - If the text has no lexical faults and the parser refuses it, the only error is the
    ///   refusal, at the token where parsing stops.
    /// - If the text has a tree, the errors are the first hundred faults of names and types.
    pub fn diagnoses(&self, alloc: Global) -> Result<Vec<Diagnosis>, AllocError>
        ensures reported { IfOk result (λ list. ReportsErrorsOf self.now
            (map reported_diagnosis_of list.items)) }
        ensures utf8 { IsUtf8 self.now }
    {
        // The proof needs the invariant of the analysis, which this call's contract states.
        let _text = self.text();
        match &self.outcome {
            AnalysisResult::Unscannable(ill) => diagnoses_of_faults(alloc, ill.faults.as_slice()),
            AnalysisResult::Scannable(read) => read.diagnoses(alloc),
        }
    }
}
