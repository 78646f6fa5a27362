//! Defines the reasons why an expression or a statement ends a run.

ghost use Rattle.std.specs.Prelude.{◌≡◌, Some};

use std::alloc::{AllocError, AllocFailed};

/// A fault that ends the evaluation of an expression, and with it the run. Each case has the same
/// name as the end of the run that it causes (`End`).
#[derive(Clone, Copy, PartialEq, Eq, Debug)]
pub(crate) enum EvaluationFault {
    Overflow,
    Divisor,
    Index,
}

/// The reason why a statement ends a run. A `StopReason` has no payload, so a
/// `Result<(), StopReason>` is returned in registers.
#[derive(Clone, Copy, PartialEq, Eq, Debug)]
pub(crate) enum StopReason {
    Overflow,
    Divisor,
    Index,
    InputEnd,
    CallBound,
    TurnBound,
    /// An allocation failed.
    Memory,
}

impl From<EvaluationFault> for StopReason {
    ghost use Rattle.ob0_run_machine.specs.StepOutcomes.{end_of_stop_reason, end_of};

    ghost from_gives = { λ x e. end_of_stop_reason e ≡ Some (end_of x) };

    #[inline(always)]
    fn from(ending: EvaluationFault) -> StopReason {
        match ending {
            EvaluationFault::Overflow => StopReason::Overflow,
            EvaluationFault::Divisor => StopReason::Divisor,
            EvaluationFault::Index => StopReason::Index,
        }
    }
}

impl From<AllocError> for StopReason {
    ghost use Rattle.ob0_run_machine.specs.declared.stop_reasons.StopReason.TheVariants.{Memory};

    ghost from_gives = { λ _ e. e ≡ Memory };

    fn from(_: AllocError) -> StopReason {
        StopReason::Memory
    }
}

impl<T: Drop> From<AllocFailed<T>> for StopReason {
    ghost use Rattle.ob0_run_machine.specs.declared.stop_reasons.StopReason.TheVariants.{Memory};

    ghost from_gives = { λ _ e. e ≡ Memory };

    fn from(_: AllocFailed<T>) -> StopReason {
        StopReason::Memory
    }
}
