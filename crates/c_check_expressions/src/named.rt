//! Names that are no calls (C99 6.5.1).

ghost use Rattle.std.specs.Prelude.{◌≡◌, false, IfOk};
ghost use Rattle.c_tree.specs.Erased.{expression_of};
ghost use Rattle.c_tree.specs.Program as typed;
ghost use Rattle.c_tree.specs.declared.types.IntegerType.TheVariants.{Int};
ghost use Rattle.c_typing.specs.Checked.{fits};
ghost use Rattle.c_typing.specs.Constants.{has_constant_form};
ghost use Rattle.c_typing.specs.Expressions.{named};
ghost use Rattle.c_typing.specs.Names.{meaning_of};
ghost use Rattle.c_check_expressions.specs.Judged.{IsOperandOf};
ghost use Rattle.c_check_expressions.specs.Parts.{Stands};
ghost use Rattle.c_check_expressions.specs.Said.{IsSaid};

use crate::constant::Constant;
use crate::judged::{Judged, Operand, plain_node};
use crate::notes::Notes;
use c_check_names::{Meaning, Scopes};
use c_syntax::Identifier;
use c_tree::{ArrayRef, Expression, IntegerType, Place, ValueType};
use pcc_base::{Fault, FaultKind, NoMemory};
use std::alloc::Global;

/// A constant (C99 6.4.4), which is an `int`.
pub fn number(alloc: Global, value: i32) -> Result<Operand, NoMemory>
    ensures { IfOk result (λ o. IsOperandOf (typed.Constant Int value) o) }
{
    Ok(Operand {
        tree: Box::new(alloc, Expression::Constant(IntegerType::Int, value))?,
        constant: Constant::of_number(IntegerType::Int, value),
    })
}

/// A tree that is no constant expression, which fits.
pub fn fitting(alloc: Global, tree: Expression) -> Result<Judged<Operand>, NoMemory>
    requires { has_constant_form (expression_of tree) ≡ false }
    ensures { IfOk result (λ j. Stands IsOperandOf (fits (expression_of tree)) j) }
{
    Ok(Judged::Fits(plain_node(alloc, tree)?))
}

/// A name: a local or an object, or the first element of an array; a function's name that isn't called fits no row.
pub fn named(
    alloc: Global,
    scopes: &Scopes,
    notes: &mut Notes,
    name: &Identifier,
) -> Result<Judged<Operand>, NoMemory>
    ensures { IfOk result (λ j. IsSaid IsOperandOf
        (named scopes.now name.now (meaning_of scopes.now.names name.now.name)) j notes.old notes.new) }
{
    match scopes.meaning(&name.name) {
        None => Ok(Judged::Fails(Fault {
            kind: FaultKind::Undeclared,
            at: name.at,
        })),
        Some(Meaning::Local(number, of)) => {
            fitting(alloc, Expression::Read(*of, Place::Local(*number)))
        }
        Some(Meaning::LocalArray(number, element)) => {
            fitting(alloc, Expression::Start(*element, ArrayRef::Frame(*number)))
        }
        Some(Meaning::Object(entity, of)) => {
            let number = scopes.object_number(entity)?;
            notes.uses(alloc, entity, name.at)?;
            let place = Place::Static(number);
            fitting(alloc, Expression::Read(ValueType::Integer(*of), place))
        }
        Some(Meaning::ObjectArray(entity, element)) => {
            let number = scopes.object_number(entity)?;
            notes.uses(alloc, entity, name.at)?;
            fitting(alloc, Expression::Start(*element, ArrayRef::Static(number)))
        }
        Some(Meaning::Function(_, _)) => Ok(Judged::Fails(Fault {
            kind: FaultKind::TypeRule,
            at: name.at,
        })),
    }
}
