//! States the law on which a procedure's hover text relies: the names declared after a procedure's
//! name begin with the names of its parameters. The function does nothing, and its contract is the
//! law.

ghost use Rattle.ob0_refs.specs.HoverLaws.{ParametersFollowProcedureName};

/// Proves that the first names declared after a procedure's name are the names of its parameters,
/// in order.
pub fn parameters_follow_procedure_name()
    ensures { ParametersFollowProcedureName }
{}
