//! One label of a switch (C99 6.8.4.2p3).

ghost use Rattle.std.specs.Prelude.{◌≡◌, ℤ, List, Option, not};
ghost use Rattle.std.specs.List.{list_any};
ghost use Rattle.pcc_base.specs.declared.fault.FaultKind.TheVariants.{CaseLabel};
ghost use Rattle.c_typing.specs.Checked.{Note};
ghost use Rattle.c_typing.specs.Faults.{fault};
ghost use Rattle.c_typing.specs.Statements.{one_label, same_label};
ghost use Rattle.c_check_expressions.specs.Said.{IsSaid};
ghost use Rattle.c_check_declarations.specs.DeclaratorAnswers.{IsSame};

use c_check_expressions::Judged;
use c_tree::Label;
use pcc_base::{Fault, FaultKind, Span};

/// The fault of a label that has no value, or stands twice.
pub(crate) fn label_fault(at: Span) -> Fault
    ensures { result ≡ fault CaseLabel at }
{
    Fault {
        kind: FaultKind::CaseLabel,
        at,
    }
}

/// A label, where its value is new.
pub fn one_label(is_new: bool, at: Span, before: u32, value: Option<i32>) -> Judged<Label>
    ensures { (earlier : List (Option ℤ)) (notes : List Note) → is_new ≡ not (list_any (same_label value) earlier)
        → IsSaid IsSame (one_label earlier at before value) result notes notes }
{
    if is_new {
        return Judged::Fits(Label { value, before });
    }
    Judged::Fails(label_fault(at))
}
