//! What things are called in a report.

ghost use Rattle.std.specs.Prelude.{◌≡◌, ◌≤◌, length};
ghost use Rattle.jr_report.specs.Report.{fault_name, kind_text, clause_kind_text, verdict_text};

use jr_base::{Fault, LimitKind, Verdict};
use jr_program::ClauseKind;

/// The name of an exception.
pub fn name_of_fault(fault: Fault) -> &'static str
    ensures name { result.now ≡ fault_name fault }
    ensures len { length result.now ≤ 40 }
{
    match fault {
        Fault::Exception => "Exception",
        Fault::RuntimeException => "RuntimeException",
        Fault::InterruptedException => "InterruptedException",
        Fault::ArithmeticException => "ArithmeticException",
        Fault::NullPointerException => "NullPointerException",
        Fault::NegativeArraySizeException => "NegativeArraySizeException",
        Fault::IllegalMonitorStateException => "IllegalMonitorStateException",
        Fault::IndexOutOfBoundsException => "IndexOutOfBoundsException",
        Fault::IllegalArgumentException => "IllegalArgumentException",
        Fault::ArrayIndexOutOfBoundsException => "ArrayIndexOutOfBoundsException",
        Fault::IllegalThreadStateException => "IllegalThreadStateException",
    }
}

/// What a limit is on.
pub fn name_of_kind(kind: LimitKind) -> &'static str
    ensures name { result.now ≡ kind_text kind }
    ensures len { length result.now ≤ 7 }
{
    match kind {
        LimitKind::Guests => "guests",
        LimitKind::Frames => "frames",
        LimitKind::Objects => "objects",
        LimitKind::Cells => "cells",
        LimitKind::Held => "held",
    }
}

/// What a clause is called.
pub fn name_of_clause_kind(kind: ClauseKind) -> &'static str
    ensures name { result.now ≡ clause_kind_text kind }
    ensures len { length result.now ≤ 12 }
{
    match kind {
        ClauseKind::Requires => "requires",
        ClauseKind::Ensures => "ensures",
        ClauseKind::When => "when",
        ClauseKind::Locks => "locks",
        ClauseKind::MonitorsFor => "monitors_for",
        ClauseKind::Invariant => "invariant",
        ClauseKind::Constraint => "constraint",
        ClauseKind::Assert => "assert",
        ClauseKind::Atomic => "atomic",
    }
}

/// What a verdict is called.
pub fn name_of_verdict(value: Verdict) -> &'static str
    ensures name { result.now ≡ verdict_text value }
    ensures len { length result.now ≤ 9 }
{
    match value {
        Verdict::True => "True",
        Verdict::False => "False",
        Verdict::Undefined => "Undefined",
        Verdict::Wide => "Wide",
    }
}
