//! Executes statements. A call is performed by the closure `enter`, which is passed to each
//! function that may reach a call. Each function returns the reason why the run stops
//! (`StopReason`), so `run_statement` returns the results of the functions that it calls unchanged.

ghost use Rattle.std.specs.Prelude.{◌≡◌, ◌++◌, ◌∷◌, [], drop, IfSome, List, ℕ, ℤ};
ghost use Rattle.ob0_run_machine.specs.StepOutcomes.{outcome_of_result};
ghost use Rattle.ob0_run_machine.specs.Evaluation.{Levels, place_address as address_of, gives, number_value, truth_value};
ghost use Rattle.ob0_run_machine.specs.CountingLoops.{IsCountingLimit, IsCountingCondition, limit_value};
ghost use Rattle.ob0_run_machine.specs.declared.code.Comparator.TheVariants.{Less};
ghost use Rattle.ob0_run_machine.specs.declared.code.Instruction.{Increase};
ghost use Rattle.ob0_run_machine.specs.Execution.{CallEffect, execute};
ghost use Rattle.ob0_run_machine.specs.Levels.{levels_of, levels_of_option};
ghost use Rattle.ob0_run_machine.specs.LoweredSyntax as lowered;
ghost use Rattle.ob0_run_machine.specs.Machines.{ReplacesStatements, StepHasEffect, StepRunsStatement, IsProgressAfterStep, procedure_entry_effect, statement_effect, sequence_effect, elsifs_effect, state_of};
ghost use Rattle.ob0_run_machine.specs.LoweredCodeViews.{operation_with_link, conditional_of, call_of, chain_of, variable_comparison, variable_increase, number_of, elsif_branches, else_statements, place_of, repeat_of, variable_element_of, sequence_of, statement_of, truth_of, variable_of, while_of};

use crate::addresses::VarParameterAddresses;
use crate::call_arguments::pass_arguments;
use crate::code::{
    Chain, ChainLink, Comparator, Conditional, Instruction, Number, Place, ProcedureCall,
    RepeatLoop, Truth, Variable, VariableElement, WhileLoop,
};
use crate::evaluator::{
    cell_at, evaluate_chain, evaluate_number, evaluate_truth, evaluate_update, locate_place,
    variable_address, variable_element_address,
};
use crate::level::{Level, enclosing_level};
use crate::machine::{Item, Machine, copy_existing_cells, store_in_cell};
use crate::operators::{add, compare, truth_as_cell};
use crate::stop_reasons::{EvaluationFault, StopReason};

/// Assigns the value of `n` to a place of any form. Returns a fault if the evaluation of the place
/// or of `n` has one. This function isn't inlined, so `run_statement` is small enough to be
/// inlined.
#[tactic(auto, unfolding(crate::specs::Execution::execute))]
#[inline(never)]
fn store_number(
    place: &Place,
    n: &Number,
    level: &Level<'_>,
    machine: &mut Machine<'_>,
) -> Result<(), StopReason>
    ensures { StepRunsStatement result machine.old machine.new (levels_of level.now)
        (lowered.stores_number (place_of place.now) (number_of n.now)) }
{
    let a = locate_place(place, level, machine.cells.as_slice())?;
    let v = evaluate_number(n, level, machine.cells.as_slice())?;
    store_in_cell(&mut machine.cells, a, v);
    Ok(())
}

/// Assigns the value of `n` to a variable. Returns a fault if the evaluation of `n` has one.
#[tactic(auto, unfolding(crate::specs::Execution::execute))]
#[inline(always)]
fn store_number_in_variable(
    variable: &Variable,
    n: &Number,
    level: &Level<'_>,
    machine: &mut Machine<'_>,
) -> Result<(), StopReason>
    ensures { StepRunsStatement result machine.old machine.new (levels_of level.now)
        (lowered.stores_number (variable_of variable.now) (number_of n.now)) }
{
    let v = evaluate_number(n, level, machine.cells.as_slice())?;
    store_in_cell(&mut machine.cells, variable_address(variable, level), v);
    Ok(())
}

/// Assigns the result of a chain of operations to a variable. Returns the first fault that occurs
/// in the chain. Like `store_number`, this function isn't inlined.
#[tactic(auto, unfolding(crate::specs::Execution::execute))]
#[inline(never)]
fn store_chain(
    variable: &Variable,
    c: &Chain,
    level: &Level<'_>,
    machine: &mut Machine<'_>,
) -> Result<(), StopReason>
    ensures { StepRunsStatement result machine.old machine.new (levels_of level.now)
        (lowered.stores_number (variable_of variable.now) (chain_of c.now)) }
{
    // The address comes first, which takes two instructions less.
    let address = variable_address(variable, level);
    let v = evaluate_chain(c, level, machine.cells.as_slice())?;
    store_in_cell(&mut machine.cells, address, v);
    Ok(())
}

/// Adds the number `by` to the variable at an address. Returns the fault Overflow if the sum has
/// more than 32 bits.
#[tactic(auto, unfolding(crate::specs::Execution::execute))]
#[inline(always)]
fn increase_cell(address: usize, by: i32, machine: &mut Machine<'_>) -> Result<(), StopReason>
    ensures { (ls : Levels) (v : Variable)
        → address_of ls machine.old.cells.items (variable_of v) ≡ gives address
        → StepRunsStatement result machine.old machine.new ls (variable_increase v by) }
{
    let v = add(cell_at(machine.cells.as_slice(), address), by)?;
    store_in_cell(&mut machine.cells, address, v);
    Ok(())
}

/// Adds the number `by` to a variable. Returns the fault Overflow if the sum has more than 32 bits.
#[inline(always)]
fn increase_variable(
    variable: &Variable,
    by: i32,
    level: &Level<'_>,
    machine: &mut Machine<'_>,
) -> Result<(), StopReason>
    ensures { StepRunsStatement result machine.old machine.new (levels_of level.now)
        (variable_increase variable.now by) }
{
    increase_cell(variable_address(variable, level), by, machine)
}

/// Assigns to a variable the result of an operation on this variable, or returns the operation's
/// fault. Like `store_number`, this function isn't inlined. It leaves operands that are neither a
/// literal nor a variable to `update_variable_with_expression`.
#[tactic(auto, unfolding(crate::specs::Execution::execute))]
#[inline(never)]
fn update_variable(
    variable: &Variable,
    link: &ChainLink,
    level: &Level<'_>,
    machine: &mut Machine<'_>,
) -> Result<(), StopReason>
    ensures { StepRunsStatement result machine.old machine.new (levels_of level.now)
        (lowered.stores_number (variable_of variable.now)
        (operation_with_link link.now (lowered.cell (variable_of variable.now)))) }
{
    if let ChainLink::Other(_operator, _n) = link {
        return update_variable_with_expression(variable, link, level, machine);
    }
    let v = evaluate_update(variable, link, level, machine.cells.as_slice())?;
    store_in_cell(&mut machine.cells, variable_address(variable, level), v);
    Ok(())
}

/// Does the same as `update_variable`. Because this function is separate, `update_variable` has no
/// registers to save.
#[tactic(auto, unfolding(crate::specs::Execution::execute))]
#[inline(never)]
fn update_variable_with_expression(
    variable: &Variable,
    link: &ChainLink,
    level: &Level<'_>,
    machine: &mut Machine<'_>,
) -> Result<(), StopReason>
    ensures { StepRunsStatement result machine.old machine.new (levels_of level.now)
        (lowered.stores_number (variable_of variable.now)
        (operation_with_link link.now (lowered.cell (variable_of variable.now)))) }
{
    let v = evaluate_update(variable, link, level, machine.cells.as_slice())?;
    store_in_cell(&mut machine.cells, variable_address(variable, level), v);
    Ok(())
}

/// Assigns the value of `t` to a place. Returns a fault if the evaluation of the place or of `t`
/// has one. Like `store_number`, this function isn't inlined.
#[tactic(auto, unfolding(crate::specs::Execution::execute))]
#[inline(never)]
fn store_truth(
    place: &Place,
    t: &Truth,
    level: &Level<'_>,
    machine: &mut Machine<'_>,
) -> Result<(), StopReason>
    ensures { StepRunsStatement result machine.old machine.new (levels_of level.now)
        (lowered.stores_truth (place_of place.now) (truth_of t.now)) }
{
    let a = locate_place(place, level, machine.cells.as_slice())?;
    let v = evaluate_truth(t, level, machine.cells.as_slice())?;
    store_in_cell(&mut machine.cells, a, truth_as_cell(v));
    Ok(())
}

/// Assigns TRUE or FALSE to an array's element whose array and index are variables. Returns the
/// fault Index if the array has no such element.
#[tactic(auto, unfolding(crate::specs::Execution::execute))]
#[inline(never)]
fn store_truth_constant_in_element(
    r: &VariableElement,
    b: bool,
    level: &Level<'_>,
    machine: &mut Machine<'_>,
) -> Result<(), StopReason>
    ensures { StepRunsStatement result machine.old machine.new (levels_of level.now)
        (lowered.stores_truth (variable_element_of r.now) (lowered.constant b)) }
{
    let a = variable_element_address(r, level, machine.cells.as_slice())?;
    store_in_cell(&mut machine.cells, a, truth_as_cell(b));
    Ok(())
}

#[tactic(auto, unfolding(crate::specs::Execution::execute))]
fn copy_block(
    to: &Place,
    from: &Place,
    count: usize,
    level: &Level<'_>,
    machine: &mut Machine<'_>,
) -> Result<(), StopReason>
    ensures { StepRunsStatement result machine.old machine.new (levels_of level.now)
        (lowered.copies (place_of to.now) (place_of from.now) count) }
{
    let a = locate_place(to, level, machine.cells.as_slice())?;
    let b = locate_place(from, level, machine.cells.as_slice())?;
    copy_existing_cells(&mut machine.cells, a, b, count);
    Ok(())
}

#[tactic(auto, unfolding(crate::specs::Execution::execute))]
fn run_read(place: &Place, level: &Level<'_>, machine: &mut Machine<'_>) -> Result<(), StopReason>
    ensures { (enters : CallEffect) (t : ℕ)
        → IsProgressAfterStep result machine.new (execute enters t (levels_of level.now)
        (lowered.reads (place_of place.now)) (state_of machine.old)) }
{
    let a = locate_place(place, level, machine.cells.as_slice())?;
    machine.read_number(a)
}

#[tactic(auto, unfolding(crate::specs::Execution::execute))]
fn run_write(n: &Number, level: &Level<'_>, machine: &mut Machine<'_>) -> Result<(), StopReason>
    ensures { (enters : CallEffect) (t : ℕ)
        → IsProgressAfterStep result machine.new (execute enters t (levels_of level.now)
        (lowered.writes (number_of n.now)) (state_of machine.old)) }
{
    let v = evaluate_number(n, level, machine.cells.as_slice())?;
    machine.append_output(Item::Number(v))?;
    Ok(())
}

#[tactic(auto, unfolding(crate::specs::Execution::execute))]
fn run_write_line(level: &Level<'_>, machine: &mut Machine<'_>) -> Result<(), StopReason>
    ensures { (enters : CallEffect) (t : ℕ)
        → IsProgressAfterStep result machine.new
        (execute enters t (levels_of level.now) lowered.writes_line (state_of machine.old)) }
{
    machine.append_output(Item::Line)?;
    Ok(())
}

/// Enters the procedure of a call whose arguments have been passed. `base` is the address of the
/// first cell of the procedure's activation, `addresses` are the addresses of its VAR parameters, and
/// `enclosing` is the activation in which it is declared.
#[inline(always)]
fn enter_procedure<F: Fn(&mut Machine<'_>, usize, &Level<'_>) -> Result<(), StopReason>>(
    c: &ProcedureCall,
    base: usize,
    addresses: &[usize],
    enclosing: Option<&Level<'_>>,
    machine: &mut Machine<'_>,
    enter: &F,
) -> Result<(), StopReason>
    requires { F.IsAlwaysCallable enter.now }
    ensures { (ls : Levels)
        → levels_of_option enclosing.entry ≡ drop c.now.up ls
        → StepHasEffect (F.post enter.now) result machine.old machine.new
        (procedure_entry_effect c.now.procedure c.now.up ls base addresses.now) }
{
    let entered = Level {
        base,
        addresses,
        enclosing,
    };
    enter(machine, c.procedure, &entered)
}

/// Passes the arguments of a call, then enters its procedure.
#[inline(never)]
fn run_call<F: Fn(&mut Machine<'_>, usize, &Level<'_>) -> Result<(), StopReason>>(
    c: &ProcedureCall,
    level: &Level<'_>,
    machine: &mut Machine<'_>,
    enter: &F,
) -> Result<(), StopReason>
    requires { F.IsAlwaysCallable enter.now }
    ensures { (t : ℕ)
        → StepHasEffect (F.post enter.now) result machine.old machine.new
        (statement_effect t (levels_of level.now) (call_of c.now)) }
{
    let base = machine.cell_count();
    let mut addresses = VarParameterAddresses::new(&machine.memory);
    pass_arguments(
        &mut machine.memory,
        c.arguments.as_slice(),
        level,
        base,
        &mut machine.cells,
        &mut addresses,
    )?;
    let enclosing = enclosing_level(level, c.up);
    enter_procedure(c, base, addresses.as_slice(), enclosing, machine, enter)
}

/// Returns the value of a condition, or the fault that ends its evaluation.
#[inline(always)]
fn evaluate_condition(
    condition: &Truth,
    level: &Level<'_>,
    machine: &Machine<'_>,
) -> Result<bool, EvaluationFault>
    ensures { outcome_of_result result
        ≡ truth_value (levels_of level.now) machine.now.cells.items (truth_of condition.now) }
{
    evaluate_truth(condition, level, machine.cells.as_slice())
}

#[inline(always)]
#[cycle(execution)]
fn run_statement<F: Fn(&mut Machine<'_>, usize, &Level<'_>) -> Result<(), StopReason>>(
    s: &Instruction,
    level: &Level<'_>,
    turns: u32,
    machine: &mut Machine<'_>,
    enter: &F,
) -> Result<(), StopReason>
    requires { F.IsAlwaysCallable enter.now }
    ensures { StepHasEffect (F.post enter.now) result machine.old machine.new
        (statement_effect turns (levels_of level.now) (statement_of s.now)) }
{
    match s {
        Instruction::StoreNumber(place, n) => store_number(place, n, level, machine),
        Instruction::StoreNumberInVariable(variable, n) => {
            store_number_in_variable(variable, n, level, machine)
        }
        Instruction::StoreChain(variable, c) => store_chain(variable, c, level, machine),
        Instruction::Update(variable, link) => update_variable(variable, link, level, machine),
        Instruction::Increase(variable, by) => increase_variable(variable, *by, level, machine),
        Instruction::StoreTruth(place, t) => store_truth(place, t, level, machine),
        Instruction::StoreConstantInElement(r, b) => {
            store_truth_constant_in_element(r, *b, level, machine)
        }
        Instruction::Copy(to, from, count) => copy_block(to, from, *count, level, machine),
        Instruction::Read(place) => run_read(place, level, machine),
        Instruction::Write(n) => run_write(n, level, machine),
        Instruction::WriteLine => run_write_line(level, machine),
        Instruction::If(i) => run_conditional(i, level, turns, machine, enter),
        Instruction::While(w) => run_while(w, level, turns, machine, enter),
        Instruction::Repeat(r) => run_repeat(r, level, turns, machine, enter),
        Instruction::Call(c) => run_call(c, level, machine, enter),
    }
}

/// Runs statements in order, until one of them ends the run. This function is inlined, so loops and
/// procedures run their bodies without a function call.
#[inline(always)]
#[cycle(execution)]
fn run_sequence_inline<F: Fn(&mut Machine<'_>, usize, &Level<'_>) -> Result<(), StopReason>>(
    statements: &[Instruction],
    level: &Level<'_>,
    turns: u32,
    machine: &mut Machine<'_>,
    enter: &F,
) -> Result<(), StopReason>
    requires { F.IsAlwaysCallable enter.now }
    ensures { StepHasEffect (F.post enter.now) result machine.old machine.new
        (sequence_effect turns (levels_of level.now) (sequence_of statements.now)) }
{
    for s in statements {
        run_statement(s, level, turns, machine, enter)?;
    }
    Ok(())
}

/// Returns the statements that have the same effect as `statements`. If these are a single IF
/// without ELSIF parts, evaluates its condition and returns the statements of its THEN or ELSE
/// part. Otherwise returns `statements`. Returns a fault if the evaluation of the condition has
/// one.
#[inline(always)]
fn choose_statements<'s>(
    statements: &'s [Instruction],
    level: &Level<'_>,
    machine: &Machine<'_>,
) -> Result<&'s [Instruction], EvaluationFault>
    ensures { ReplacesStatements result machine.now (levels_of level.now) statements.now }
{
    let [first] = statements else {
        return Ok(statements);
    };
    match first {
        Instruction::If(i) => {
            let others = i.others.as_slice();
            let count = others.len();
            if count > 0 {
                return Ok(statements);
            }
            match evaluate_condition(&i.condition, level, machine) {
                Ok(true) => Ok(&i.body),
                Ok(false) => Ok(&i.otherwise),
                Err(fault) => Err(fault),
            }
        }
        _ => Ok(statements),
    }
}

/// Runs the statements of a procedure's body in order, until one of them ends the run. If the body
/// is a single IF, as in most recursive procedures, runs the statements of its branch without a
/// function call (`choose_statements`).
#[inline(always)]
pub(crate) fn run_body<F: Fn(&mut Machine<'_>, usize, &Level<'_>) -> Result<(), StopReason>>(
    statements: &[Instruction],
    level: &Level<'_>,
    turns: u32,
    machine: &mut Machine<'_>,
    enter: &F,
) -> Result<(), StopReason>
    requires { F.IsAlwaysCallable enter.now }
    ensures { StepHasEffect (F.post enter.now) result machine.old machine.new
        (sequence_effect turns (levels_of level.now) (sequence_of statements.now)) }
{
    let chosen = choose_statements(statements, level, machine)?;
    run_sequence_inline(chosen, level, turns, machine, enter)
}

/// Runs statements in order, until one of them ends the run. This function isn't inlined. It runs
/// the chosen statements of an IF, and the program's own statements.
#[inline(never)]
#[cycle(execution)]
pub(crate) fn run_sequence<F: Fn(&mut Machine<'_>, usize, &Level<'_>) -> Result<(), StopReason>>(
    statements: &[Instruction],
    level: &Level<'_>,
    turns: u32,
    machine: &mut Machine<'_>,
    enter: &F,
) -> Result<(), StopReason>
    requires { F.IsAlwaysCallable enter.now }
    ensures { StepHasEffect (F.post enter.now) result machine.old machine.new
        (sequence_effect turns (levels_of level.now) (sequence_of statements.now)) }
{
    run_sequence_inline(statements, level, turns, machine, enter)
}

/// Runs statements in order. If there are none, as for an IF without ELSE, returns without a call
/// of `run_sequence`, which isn't inlined.
#[inline(always)]
#[cycle(execution)]
fn run_sequence_unless_empty<F: Fn(&mut Machine<'_>, usize, &Level<'_>) -> Result<(), StopReason>>(
    statements: &[Instruction],
    level: &Level<'_>,
    turns: u32,
    machine: &mut Machine<'_>,
    enter: &F,
) -> Result<(), StopReason>
    requires { F.IsAlwaysCallable enter.now }
    ensures { StepHasEffect (F.post enter.now) result machine.old machine.new
        (sequence_effect turns (levels_of level.now) (sequence_of statements.now)) }
{
    let count = statements.len();
    if count == 0 {
        return Ok(());
    }
    run_sequence(statements, level, turns, machine, enter)
}

/// Runs an IF: the statements of its first TRUE condition, or its ELSE part if no condition is
/// TRUE.
#[inline(always)]
#[cycle(execution)]
fn run_conditional<F: Fn(&mut Machine<'_>, usize, &Level<'_>) -> Result<(), StopReason>>(
    i: &Conditional,
    level: &Level<'_>,
    turns: u32,
    machine: &mut Machine<'_>,
    enter: &F,
) -> Result<(), StopReason>
    requires { F.IsAlwaysCallable enter.now }
    ensures { StepHasEffect (F.post enter.now) result machine.old machine.new
        (statement_effect turns (levels_of level.now) (conditional_of i.now)) }
{
    if evaluate_condition(&i.condition, level, machine)? {
        return run_sequence(&i.body, level, turns, machine, enter);
    }
    let others = i.others.as_slice();
    let count = others.len();
    if count == 0 {
        return run_sequence_unless_empty(&i.otherwise, level, turns, machine, enter);
    }
    run_elsifs(i, level, turns, machine, enter)
}

/// Runs the statements of the first ELSIF part whose condition is TRUE, or the ELSE part if there
/// is no such ELSIF part.
#[inline(never)]
#[cycle(execution)]
fn run_elsifs<F: Fn(&mut Machine<'_>, usize, &Level<'_>) -> Result<(), StopReason>>(
    i: &Conditional,
    level: &Level<'_>,
    turns: u32,
    machine: &mut Machine<'_>,
    enter: &F,
) -> Result<(), StopReason>
    requires { F.IsAlwaysCallable enter.now }
    ensures { StepHasEffect (F.post enter.now) result machine.old machine.new
        (elsifs_effect turns (levels_of level.now) (elsif_branches i.now) (else_statements i.now)) }
{
    for branch in &i.others {
        if evaluate_condition(&branch.condition, level, machine)? {
            return run_sequence(&branch.body, level, turns, machine, enter);
        }
    }
    run_sequence_unless_empty(&i.otherwise, level, turns, machine, enter)
}

/// The limit of a counting loop: a literal, or the address of the variable that is the limit.
#[derive(Clone, Copy, PartialEq, Eq, Debug)]
enum CountingLimit {
    Literal(i32),
    Address(usize),
}

/// A condition `variable < limit`.
#[derive(Clone, Copy, PartialEq, Eq, Debug)]
struct CountingCondition {
    variable: Variable,
    limit: CountingLimit,
}

/// Returns the variable and the limit of a condition that compares a variable by `<` with a literal
/// or a variable. Returns None for any other condition.
#[inline(always)]
fn recognize_counting_condition(condition: &Truth, level: &Level<'_>) -> Option<CountingCondition>
    ensures { IfSome result (λ c. IsCountingCondition (levels_of level.now) condition.now c) }
{
    match condition {
        Truth::VariableLessThanLiteral(v, n) => Some(CountingCondition {
            variable: *v,
            limit: CountingLimit::Literal(*n),
        }),
        Truth::VariableComparedToVariable(relation, v, w) => match relation {
            Comparator::Less => Some(CountingCondition {
                variable: *v,
                limit: CountingLimit::Address(variable_address(w, level)),
            }),
            _ => None,
        },
        _ => None,
    }
}

/// Returns the value of a limit: its literal, or the number in the cell at its address.
#[inline(always)]
fn current_limit(limit: CountingLimit, cells: &[i32]) -> i32
    ensures { result ≡ limit_value cells.now limit }
{
    match limit {
        CountingLimit::Literal(n) => n,
        CountingLimit::Address(address) => cell_at(cells, address),
    }
}

/// Returns whether the number in the cell at an address is less than the value of a limit.
#[tactic(auto, using(crate::proofs::Executing::compared_at))]
#[inline(always)]
fn is_below_limit(address: usize, limit: CountingLimit, machine: &Machine<'_>) -> bool
    ensures { (ls : Levels) (v : Variable) (n : lowered.Number)
        → address_of ls machine.now.cells.items (variable_of v) ≡ gives address
        → number_value ls machine.now.cells.items n ≡ gives (limit_value machine.now.cells.items limit)
        → gives result ≡ truth_value ls machine.now.cells.items (variable_comparison Less v n) }
{
    let cells = machine.cells.as_slice();
    compare(
        Comparator::Less,
        cell_at(cells, address),
        current_limit(limit, cells),
    )
}

/// Runs the body of a counting loop once. `statements` are all its statements except the last one.
/// The last one adds the number `by` to the variable at `address`.
#[inline(always)]
#[cycle(execution)]
fn run_counting_loop_body<F: Fn(&mut Machine<'_>, usize, &Level<'_>) -> Result<(), StopReason>>(
    statements: &[Instruction],
    address: usize,
    by: i32,
    level: &Level<'_>,
    turns: u32,
    machine: &mut Machine<'_>,
    enter: &F,
) -> Result<(), StopReason>
    requires { F.IsAlwaysCallable enter.now }
    ensures { (v : Variable)
        → ((cells : List ℤ)
        → address_of (levels_of level.now) cells (variable_of v) ≡ gives address)
        → StepHasEffect (F.post enter.now) result machine.old machine.new
        (sequence_effect turns (levels_of level.now)
        (sequence_of (statements.now ++ Increase v by ∷ []))) }
{
    run_sequence_inline(statements, level, turns, machine, enter)?;
    increase_cell(address, by, machine)
}

/// Runs a counting loop. The condition of this WHILE is that a variable is less than a literal or a
/// variable. Its last statement adds a literal to a variable. The variables may differ. Their
/// addresses are computed once, before the first iteration. The loop ends the run with TurnBound as
/// `run_while` does.
#[inline(always)]
#[cycle(execution)]
fn run_counting_loop<F: Fn(&mut Machine<'_>, usize, &Level<'_>) -> Result<(), StopReason>>(
    condition: CountingCondition,
    statements: &[Instruction],
    increased: &Variable,
    by: i32,
    level: &Level<'_>,
    turns: u32,
    machine: &mut Machine<'_>,
    enter: &F,
) -> Result<(), StopReason>
    requires { F.IsAlwaysCallable enter.now }
    ensures { (n : lowered.Number)
        → IsCountingLimit (levels_of level.now) n condition.limit
        → StepHasEffect (F.post enter.now) result machine.old machine.new
        (statement_effect turns (levels_of level.now) (lowered.while_loop
        (variable_comparison Less condition.variable n)
        (sequence_of (statements.now ++ Increase increased.now by ∷ [])))) }
{
    let compared = variable_address(&condition.variable, level);
    let changed = variable_address(increased, level);
    let mut left = turns;
    'again: loop {
        if !is_below_limit(compared, condition.limit, machine) {
            return Ok(());
        }
        if left == 0 {
            return Err(StopReason::TurnBound);
        }
        left -= 1;
        run_counting_loop_body(statements, changed, by, level, turns, machine, enter)?;
    }
}

/// Runs a WHILE. Ends the run with TurnBound if the condition is still TRUE after `turns`
/// iterations.
#[inline(never)]
#[cycle(execution)]
fn run_while<F: Fn(&mut Machine<'_>, usize, &Level<'_>) -> Result<(), StopReason>>(
    w: &WhileLoop,
    level: &Level<'_>,
    turns: u32,
    machine: &mut Machine<'_>,
    enter: &F,
) -> Result<(), StopReason>
    requires { F.IsAlwaysCallable enter.now }
    ensures { StepHasEffect (F.post enter.now) result machine.old machine.new
        (statement_effect turns (levels_of level.now) (while_of w.now)) }
{
    if let Some(condition) = recognize_counting_condition(&w.condition, level)
        && let Some((Instruction::Increase(u, by), statements)) = w.body.as_slice().split_last()
    {
        return run_counting_loop(condition, statements, u, *by, level, turns, machine, enter);
    }
    run_general_while(w, level, turns, machine, enter)
}

/// Runs a WHILE of any form, whether or not it is a counting loop. Ends the run with TurnBound if
/// the condition is still TRUE after `turns` iterations.
#[inline(always)]
#[cycle(execution)]
fn run_general_while<F: Fn(&mut Machine<'_>, usize, &Level<'_>) -> Result<(), StopReason>>(
    w: &WhileLoop,
    level: &Level<'_>,
    turns: u32,
    machine: &mut Machine<'_>,
    enter: &F,
) -> Result<(), StopReason>
    requires { F.IsAlwaysCallable enter.now }
    ensures { StepHasEffect (F.post enter.now) result machine.old machine.new
        (statement_effect turns (levels_of level.now) (while_of w.now)) }
{
    let mut left = turns;
    loop {
        if !evaluate_condition(&w.condition, level, machine)? {
            return Ok(());
        }
        if left == 0 {
            return Err(StopReason::TurnBound);
        }
        left -= 1;
        run_sequence_inline(&w.body, level, turns, machine, enter)?;
    }
}

/// Runs a REPEAT. Ends the run with TurnBound if the condition is still FALSE after `turns`
/// iterations. The first iteration is made even if `turns` is 0.
#[inline(never)]
#[cycle(execution)]
fn run_repeat<F: Fn(&mut Machine<'_>, usize, &Level<'_>) -> Result<(), StopReason>>(
    r: &RepeatLoop,
    level: &Level<'_>,
    turns: u32,
    machine: &mut Machine<'_>,
    enter: &F,
) -> Result<(), StopReason>
    requires { F.IsAlwaysCallable enter.now }
    ensures { StepHasEffect (F.post enter.now) result machine.old machine.new
        (statement_effect turns (levels_of level.now) (repeat_of r.now)) }
{
    let mut further = turns.saturating_sub(1);
    loop {
        run_sequence_inline(&r.body, level, turns, machine, enter)?;
        if evaluate_condition(&r.condition, level, machine)? {
            return Ok(());
        }
        if further == 0 {
            return Err(StopReason::TurnBound);
        }
        further -= 1;
    }
}
