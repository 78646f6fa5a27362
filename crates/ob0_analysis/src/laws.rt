//! States the law that the parser's refusal of a text is reported in only one way. With this law,
//! `ob0_world_determined` proves that a text determines its diagnoses.

ghost use Rattle.ob0_analysis.specs.ReportedErrors.{ReportedRefusalIsUnique};

use ob0_scan::laws::scan_is_unique;

/// Proves that any two reports of the parser's refusal of the same text are equal.
pub fn reported_refusal_is_unique()
    ensures { ReportedRefusalIsUnique }
{
    scan_is_unique();
    ob0_parse::laws::descent_end_is_unique();
}
