//! What comes of parts that were judged, put together.

ghost use Rattle.std.specs.Prelude.{◌≡◌, ◌++◌, ◌∷◌, [], IfOk};
ghost use Rattle.c_check_declarations.specs.Together.{
  fault_answered,
  items_answered,
  maybe_listed,
  one_behind,
  some_behind,
  with_fault,
};

use c_check_expressions::{Judged, both, earlier};
use pcc_base::{Fault, NoMemory};

/// A fault beside what is judged, where there is one.
pub fn also<T: Drop>(fault: Option<Fault>, part: Judged<T>) -> Judged<T>
    ensures { result ≡ with_fault fault part }
{
    match (fault, part) {
        (None, part) => part,
        (Some(fault), Judged::Fits(_)) => Judged::Fails(fault),
        (Some(fault), Judged::Fails(other)) => Judged::Fails(earlier(fault, other)),
    }
}

/// The fault that is answered, where there is one.
pub(crate) fn fault_of<T>(part: &Judged<T>) -> Option<Fault>
    ensures { result ≡ fault_answered part.now }
{
    match part {
        Judged::Fits(_) => None,
        Judged::Fails(fault) => Some(*fault),
    }
}

/// One more value behind others.
fn pushed<T: Drop>(mut values: Vec<T>, value: T) -> Result<Vec<T>, NoMemory>
    ensures { IfOk result (λ v. v.items ≡ values.items ++ value ∷ []) }
{
    values.push(value)?;
    Ok(values)
}

/// One more value behind others, where all fit.
pub fn behind<T: Drop>(so_far: Judged<Vec<T>>, part: Judged<T>) -> Result<Judged<Vec<T>>, NoMemory>
    ensures { IfOk result (λ j. items_answered j ≡ one_behind (items_answered so_far) part) }
{
    match both(so_far, part) {
        Judged::Fails(fault) => Ok(Judged::Fails(fault)),
        Judged::Fits((values, value)) => Ok(Judged::Fits(pushed(values, value)?)),
    }
}

/// One more value, or none, behind others.
fn maybe_pushed<T: Drop>(values: Vec<T>, value: Option<T>) -> Result<Vec<T>, NoMemory>
    ensures { IfOk result (λ v. v.items ≡ values.items ++ maybe_listed value) }
{
    match value {
        Some(value) => pushed(values, value),
        None => Ok(values),
    }
}

/// One more value, or none, behind others, where all fit.
pub fn maybe_behind<T: Drop>(
    so_far: Judged<Vec<T>>,
    part: Judged<Option<T>>,
) -> Result<Judged<Vec<T>>, NoMemory>
    ensures { IfOk result (λ j. items_answered j ≡ some_behind (items_answered so_far) part) }
{
    match both(so_far, part) {
        Judged::Fails(fault) => Ok(Judged::Fails(fault)),
        Judged::Fits((values, value)) => Ok(Judged::Fits(maybe_pushed(values, value)?)),
    }
}
