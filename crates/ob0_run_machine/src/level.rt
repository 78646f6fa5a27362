//! Represents the activations that running code can see, as a linked list.
//!
//! The list is the static chain. Each `Level` is a local variable of the Rust function that makes
//! the call. It refers to the level of the activation in which the called procedure is declared.
//! `levels_of` reads the list by structural recursion, so no invariant about a table of
//! activations is needed.
//!
//! A call's addresses of VAR parameters are in a `VarParameterAddresses`, which stores up to two addresses
//! without allocating memory. Only the cells, the output and more than two such addresses are in
//! lists that allocate memory.

ghost use Rattle.std.specs.Prelude.{◌≡◌, drop, slice_index_or};
ghost use Rattle.ob0_run_machine.specs.Evaluation.{innermost_level, level_at};
ghost use Rattle.ob0_run_machine.specs.Levels.{levels_of, levels_of_option};

/// An activation: the address of its first cell, the addresses of its VAR parameters, and the
/// activation in which its procedure is declared (`enclosing`). `enclosing` is None for the
/// module's activation.
#[derive(Clone, Copy)]
pub(crate) struct Level<'l> {
    pub base: usize,
    pub addresses: &'l [usize],
    pub enclosing: Option<&'l Level<'l>>,
}

/// Returns the activation that is `up` levels out from `level`, which is `level` itself if `up` is
/// 0. Returns None if there are fewer levels. If `up` is 0 or 1, no function is called.
#[inline(always)]
pub(crate) fn enclosing_level<'l>(level: &'l Level<'l>, up: usize) -> Option<&'l Level<'l>>
    ensures { levels_of_option result ≡ drop up (levels_of level.now) }
{
    if up == 1 {
        return level.enclosing;
    }
    if up == 0 {
        return Some(level);
    }
    enclosing_level_out_of_line(level, up)
}

#[inline(never)]
fn enclosing_level_out_of_line<'l>(level: &'l Level<'l>, up: usize) -> Option<&'l Level<'l>>
    ensures { levels_of_option result ≡ drop up (levels_of level.now) }
{
    if up == 0 {
        return Some(level);
    }
    match level.enclosing {
        None => None,
        Some(level) => enclosing_level_out_of_line(level, up - 1),
    }
}

/// Returns the address of the first cell of the activation that is `up` levels out from `level`.
/// Returns 0 if there are fewer levels.
pub(crate) fn base_of_enclosing_level(level: &Level<'_>, up: usize) -> usize
    ensures { result ≡ (level_at (levels_of level.now) up).base }
{
    match enclosing_level(level, up) {
        None => 0,
        Some(level) => level.base,
    }
}

/// Returns the address that was passed for a VAR parameter of the activation `level`. `index` is
/// the parameter's index among the VAR parameters. Returns 0 if there is no such parameter.
#[inline(always)]
pub(crate) fn var_parameter_address(level: &Level<'_>, index: usize) -> usize
    ensures { result ≡ slice_index_or (innermost_level (levels_of level.now)).addresses index 0 }
{
    match level.addresses.get(index) {
        None => 0,
        Some(address) => *address,
    }
}

/// Returns the address that was passed for a VAR parameter of the activation that is `up` levels
/// out from `level`. `index` is the parameter's index among the VAR parameters. Returns 0 if there
/// is no such parameter.
pub(crate) fn outer_var_parameter_address(level: &Level<'_>, up: usize, index: usize) -> usize
    ensures { result ≡ slice_index_or (level_at (levels_of level.now) up).addresses index 0 }
{
    match enclosing_level(level, up) {
        None => 0,
        Some(level) => var_parameter_address(level, index),
    }
}
