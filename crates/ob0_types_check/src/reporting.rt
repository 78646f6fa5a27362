//! Reports the type faults of a module in one walk over its tree. If there are none, the walk has
//! also found the meaning of each declaration.
//!
//! The type of an expression with a fault is unknown. If a written type has a fault, this type or a
//! part of it is unknown. An unknown type causes no further fault.
//!
//! No other code decides whether a module passes the type check (`passes_type_check`). The laws
//! connect this walk with the definition of the check. If no fault is reported, the module passes
//! (`modules_without_fault_pass_type_check`). If the module passes, no fault is reported
//! (`typed_modules_have_no_fault`). If no fault is reported, the walk has found the meaning of
//! every declaration (`walk_without_fault_finds_correct_meanings`).
//!
//! The definitions give the faults of each production of the grammar, in order, with codes and
//! tokens. They also give the result of the production, for example the type of an expression. A
//! `ResultWithFaults` has this result and the faults. The operator `>>=` puts the faults of one
//! step before the faults of the next step. Statements have faults but no result. The contract of a
//! function that returns a value has one clause, `ReturnsAndReports before after x t`. Here `t` is
//! the `ResultWithFaults` of the definitions, and `x` is the value that the function returns. The
//! clause states that `x` is the result of `t`, and that the list `after` is the list `before`
//! followed by the faults of `t`. One walk over an expression finds its `Operand`: its type, its
//! value if constants determine one, whether it may be a variable, and its tokens.
//!
//! The definitions work over any representation of types that has an unknown type (`Types`). One
//! such representation is the code's `TypeId`, which refers to array and record types by their
//! indexes in a list (`type_id_representation`). Another is `Option Shape`, which needs no list and
//! has None for the unknown type.
//!
//! The faults of written types, declarations and blocks depend on a state, `KnownDeclarations`.
//! This state has the meanings of the declarations, by ordinal, and a list of the array and record
//! types with their parts. `declarations_in_state` converts the code's `CheckerState` to a
//! `KnownDeclarations`. So the definitions of faults don't mention `CheckerState`. For blocks the
//! state also has the list of the bodies with faults (`WalkProgress`). `CheckerState` and the list
//! of faults are separate values. The functions for expressions and statements take `&self` and the
//! list. The functions for declarations take a `ReportingWalk`, which has both.
//!
//! The trees of the definitions don't contain the tokens ARRAY and RECORD. Definitions and code
//! both find these tokens by the tokens next to them. ARRAY is the token before the array's length.
//! Between RECORD and the name of the first field there are only semicolons, one for each empty
//! group of fields before that name (`record_keyword_token`). At the end of the text,
//! `next_token_index` returns the index unchanged. A token that doesn't exist counts as the last
//! token (`fault_with_span`), so every fault has a span.
//!
//! A body declares nothing. So if only some bodies changed, the types and meanings known everywhere
//! else are unchanged, even if the tokens there have other indexes now. Any other body that had no
//! faults still has none (`walking_changed_and_faulty_bodies_suffices`).
//! `module_report_walking_some_bodies` therefore walks the declarations, the changed bodies and the
//! bodies that had faults, and skips all others. The report lists the bodies with faults, for the
//! next change.
//!
//! The ordinal of a word ARRAY or RECORD is the number of words ARRAY and RECORD before it in the
//! text. The walk doesn't count these words. Each word makes one type, and inner types are made
//! first. So, if nothing is reported, a word's ordinal is the number of types made so far plus the
//! number of types around the word (`next_type_ordinal`). If this sum doesn't fit in 64 bits, the
//! function returns the error of a failed allocation, so the definition needs no upper limit. No
//! text is long enough for this.
//!
//! The faults at undeclared names are copied from the faults that were found when the names were
//! bound (`Resolved::faults`). The walk itself reports nothing at an undeclared name.

mod checker_state;
mod declarations;
mod expressions;
mod objects;
mod statements;
mod written_types;

ghost use Rattle.std.specs.Prelude.{◌≡◌, ◌++◌, [], IfOk, OnOk, map, option_map, None};
ghost use Rattle.std.specs.List.{filter};
ghost use Rattle.ob0_scope_table.specs.Resolution.{is_undeclared_fault};
ghost use Rattle.ob0_types_table.specs.DeclarationTableView.{AreValidEntries};
ghost use Rattle.ob0_types_check.specs.KnownDeclarations.{known_declarations_at_module_start};
ghost use Rattle.ob0_types_check.specs.DeclarationFaults.{includes_every_body, report_on_module};
ghost use Rattle.ob0_types_check.specs.WalksOverSomeBodies.{IsFinishedWalk, IsReportOfModule, IncludesChangedAndFaultyBodies, is_body_in_list, includes_body};
ghost use Rattle.ob0_types_check.specs.CheckerViews.{meaning_view, declarations_in_state, table_in_state};

use crate::laws::{
    walk_without_fault_finds_correct_meanings, walking_changed_and_faulty_bodies_suffices,
};
use crate::reporting::checker_state::{CheckerState, Meaning, predeclared_meanings};
use crate::reporting::objects::{define_standard_procedures, objects_of_meanings};
use ob0_scan::FaultCode;
use ob0_scope_table::{FaultAtTokens, PREDECLARED_COUNT, Resolved};
use ob0_types_table::DeclarationTable;
use std::alloc::{AllocError, Global};

/// The report of a module: its faults, its declarations if there are no faults, and the bodies in
/// which a type fault is reported.
#[derive(Drop)]
pub struct ModuleReport {
    /// The faults at undeclared names, in text order, and then the type faults.
    pub faults: Vec<FaultAtTokens>,
    /// The table of declarations, or None if there is a fault.
    pub known: Option<DeclarationTable>,
    /// The bodies in which a type fault is reported, in text order. Each body is given by the token
    /// index of its block's closing name.
    pub bodies_with_faults: Vec<usize>,
}

/// The bodies to walk: all bodies if `includes_every_body` is true, otherwise only the bodies in
/// the list `listed_bodies`. Each body in the list is given by the token index of its block's
/// closing name.
#[derive(Clone, Copy)]
struct BodiesToWalk<'b> {
    includes_every_body: bool,
    listed_bodies: &'b [usize],
}

impl<'b> BodiesToWalk<'b> {
    /// Returns whether to walk the body of the block whose closing name is the token `closing`.
    fn includes_body(&self, closing: usize) -> bool
        ensures { result ≡ includes_body self.now closing }
    {
        self.includes_every_body || self.listed_bodies.contains(&closing)
    }
}

/// Returns the report of a module: its undeclared names in text order and then its type faults. If
/// there are no faults, the report has the module's declarations. Duplicate declarations and wrong
/// closing names aren't reported here.
pub fn module_report<'t>(
    alloc: Global,
    resolved: &'t Resolved<'t>,
) -> Result<ModuleReport, AllocError>
    ensures { IfOk result (IsReportOfModule resolved.now) }
{
    let none = Vec::new(alloc);
    let includes_every_body = BodiesToWalk {
        includes_every_body: true,
        listed_bodies: none.as_slice(),
    };
    module_report_walking_wanted_bodies(alloc, resolved, &includes_every_body)
}

/// Returns the same report as `module_report`, after a change of the module's text, but walks only
/// the declarations and the bodies in the list `bodies`. Each body in the list is given by the
/// token of its block's closing name. Without the listed bodies, the module must be equal to the
/// older one without the bodies that changed and those that had a type fault. Only the indexes of
/// tokens may differ.
pub fn module_report_walking_some_bodies<'t>(
    alloc: Global,
    resolved: &'t Resolved<'t>,
    bodies: &[usize],
) -> Result<ModuleReport, AllocError>
    requires { IncludesChangedAndFaultyBodies (is_body_in_list bodies.now) resolved.now }
    ensures { IfOk result (IsReportOfModule resolved.now) }
{
    walking_changed_and_faulty_bodies_suffices();
    // The proof needs this call: its contract states the module's invariant.
    let _module = resolved.module();
    let wanted = BodiesToWalk {
        includes_every_body: false,
        listed_bodies: bodies,
    };
    module_report_walking_wanted_bodies(alloc, resolved, &wanted)
}

/// Returns the report of a module, but walks only the declarations, and the bodies that `wanted`
/// includes. The other bodies must have no type faults.
fn module_report_walking_wanted_bodies<'t>(
    alloc: Global,
    resolved: &'t Resolved<'t>,
    wanted: &BodiesToWalk<'_>,
) -> Result<ModuleReport, AllocError>
    requires { report_on_module (includes_body wanted.now) resolved.now
        ≡ report_on_module includes_every_body resolved.now }
    ensures { IfOk result (IsReportOfModule resolved.now) }
{
    let read = resolved.module();
    let mut reporter = ReportingWalk::new(alloc, resolved)?;
    let mut bodies_with_faults = Vec::new(alloc);
    reporter.report_block(
        &mut bodies_with_faults,
        wanted,
        read.block(),
        read.closing_name(),
    )?;
    reporter.into_report(resolved, bodies_with_faults)
}

/// Makes the table of declarations and types from the final state of the walk. Each entry of
/// `composites` must refer only to earlier entries, and must have the size of its shape.
fn make_declaration_table<'t>(
    alloc: Global,
    checker_state: CheckerState<'t>,
) -> Result<DeclarationTable, AllocError>
    requires { AreValidEntries [] checker_state.composites.items }
    ensures { IfOk result (λ t. t ≡ table_in_state checker_state.entry) }
{
    let CheckerState {
        resolved: _,
        meanings,
        composites,
    } = checker_state;
    let mut objects = objects_of_meanings(alloc, meanings)?;
    define_standard_procedures(&mut objects);
    Ok(DeclarationTable::new(composites, objects))
}

/// The state of the walk over a module: the declarations and types found so far, and the faults
/// reported so far.
#[derive(Drop)]
struct ReportingWalk<'t> {
    alloc: Global,
    checker_state: CheckerState<'t>,
    faults: Vec<FaultAtTokens>,
}

impl<'t> ReportingWalk<'t> {
    /// Returns the state of the walk at the start of a module. Only the predeclared names have a
    /// meaning. The list of faults has the faults at undeclared names.
    fn new(alloc: Global, resolved: &'t Resolved<'t>) -> Result<ReportingWalk<'t>, AllocError>
        ensures checker_state { IfOk result (λ t. declarations_in_state t.checker_state
            ≡ known_declarations_at_module_start resolved.now) }
        ensures faults { IfOk result
            (λ t. t.faults.items ≡ filter is_undeclared_fault resolved.now.faults) }
    {
        let declarations = resolved.declaration_tokens();
        let count = declarations.len().saturating_add(PREDECLARED_COUNT);
        let mut meanings = predeclared_meanings(alloc, count)?;
        add_placeholder_meanings(&mut meanings, declarations)?;
        let checker_state = CheckerState {
            resolved,
            meanings,
            composites: Vec::new(alloc),
        };
        Ok(ReportingWalk {
            alloc,
            checker_state,
            faults: undeclared_name_faults(alloc, resolved)?,
        })
    }

    /// Returns the report of a module whose walk has ended. The report has a table of declarations
    /// exactly if there is no fault.
    fn into_report(
        self,
        resolved: &'t Resolved<'t>,
        bodies_with_faults: Vec<usize>,
    ) -> Result<ModuleReport, AllocError>
        requires { IsFinishedWalk resolved.now self.faults.items self.checker_state
            bodies_with_faults.items }
        ensures { IfOk result (IsReportOfModule resolved.now) }
    {
        walk_without_fault_finds_correct_meanings();
        // The proof needs this call: its contract states the module's invariant.
        let _module = resolved.module();
        let ReportingWalk {
            alloc,
            checker_state,
            faults,
        } = self;
        if faults.is_empty() {
            let known = make_declaration_table(alloc, checker_state)?;
            Ok(ModuleReport {
                faults,
                known: Some(known),
                bodies_with_faults,
            })
        } else {
            Ok(ModuleReport {
                faults,
                known: None,
                bodies_with_faults,
            })
        }
    }
}

/// Returns the faults with the code `Undeclared` among the faults that were found when the module's
/// names were bound, in the same order.
fn undeclared_name_faults(
    alloc: Global,
    resolved: &Resolved,
) -> Result<Vec<FaultAtTokens>, AllocError>
    ensures { IfOk result (λ faults. faults.items ≡ filter is_undeclared_fault
        resolved.now.faults) }
{
    let mut faults = Vec::new(alloc);
    for fault in resolved.faults() {
        if fault.code == FaultCode::Undeclared {
            faults.push(*fault)?;
        }
    }
    Ok(faults)
}

/// Appends None (an unknown meaning) to `meanings` for each declaration in the list `declarations`.
fn add_placeholder_meanings(
    meanings: &mut Vec<Option<Meaning>>,
    declarations: &[usize],
) -> Result<(), AllocError>
    ensures { OnOk result (map (option_map meaning_view) meanings.new.items
        ≡ map (option_map meaning_view) meanings.old.items
        ++ map (λ token. None) declarations.now) }
{
    for _declaration in declarations {
        meanings.push(None)?;
    }
    Ok(())
}
