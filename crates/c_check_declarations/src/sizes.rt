//! The types that declarators of objects give, with the sizes of arrays (C99 6.7.5.2).

ghost use Rattle.std.specs.Prelude.{◌≡◌, ℕ, List, IfOk, length};
ghost use Rattle.c_syntax.specs.Declarations.{declarator_of, initialiser_of, maybe_expr_of, value_of};
ghost use Rattle.c_tree.specs.Program.{Expression as Typed};
ghost use Rattle.c_typing.specs.Checked.{Checked, Note, fits, if_fits, or_fails};
ghost use Rattle.c_typing.specs.Constants.{constant_value};
ghost use Rattle.c_typing.specs.Declarators.{
  at_least_one,
  count_by_value,
  count_given,
  object_declared,
  size_or,
};
ghost use Rattle.c_typing.specs.Expressions.{text_bytes};
ghost use Rattle.c_typing.specs.Types.{DeclaredArray};
ghost use Rattle.pcc_base.specs.declared.fault.FaultKind.TheVariants as kinds;
ghost use Rattle.c_check_expressions.specs.Judged.{IsOperandOf};
ghost use Rattle.c_check_expressions.specs.Said.{IsSaid};
ghost use Rattle.c_check_declarations.specs.DeclaratorAnswers.{IsDeclared, IsSame};
ghost use Rattle.c_check_declarations.specs.Forms.{values_by};
ghost use Rattle.c_check_declarations.specs.Views.{specified_of};

use crate::forms::letters_in;
use crate::specifiers::Specified;
use c_check_expressions::type_names::pointed;
use c_check_expressions::{Judged, Notes, Operand, expression};
use c_check_names::{Declared, Scopes, number};
use c_syntax::{Declarator, DeclaratorPart, Expression, Initialiser, InitialiserPart, TextPiece};
use c_tree::ValueType;
use pcc_base::{Fault, FaultKind, NoMemory, Span};
use std::alloc::Global;

/// How many bytes string literals have that stand one after the other, without the zero at their end.
pub fn text_length(pieces: &[TextPiece]) -> Result<usize, NoMemory>
    ensures { IfOk result (λ n. n ≡ length (text_bytes pieces.now)) }
{
    let mut length = 0_usize;
    for piece in pieces {
        // This sum is never refused: letters are no more than the bytes of a file.
        length = length
            .checked_add(piece.bytes.as_bytes().len())
            .ok_or(NoMemory)?;
    }
    Ok(length)
}

/// The size that an initialiser gives an array with such elements (C99 6.7.8p22).
fn count_given(of: Option<ValueType>, value: &Initialiser) -> Result<Option<u32>, NoMemory>
    ensures { IfOk result (λ n. n ≡ count_given (values_by of (initialiser_of value.now))) }
{
    if let Some(pieces) = letters_in(of, value) {
        // This sum is never refused: letters are no more than the bytes of a file.
        let count = text_length(pieces)?.checked_add(1).ok_or(NoMemory)?;
        return Ok(Some(number(count)?));
    }
    match value {
        Initialiser::Single(_) => Ok(None),
        Initialiser::List { values, .. } => Ok(Some(number(values.len())?)),
    }
}

/// The size that an initialiser gives, where there is one.
fn count_by_value(
    of: Option<ValueType>,
    value: &Option<InitialiserPart>,
) -> Result<Option<u32>, NoMemory>
    ensures { IfOk result (λ n. n ≡ count_by_value of (value_of value.now)) }
{
    match value {
        None => Ok(None),
        Some(part) => count_given(of, &part.value),
    }
}

/// The value of a size, which is 1 at least.
fn at_least_one(opening: Span, value: Option<i32>) -> Judged<u32>
    ensures { (notes : List Note) → IsSaid IsSame (at_least_one opening value) result notes notes }
{
    match value {
        Some(n) if n > 0 => Judged::Fits(n as u32),
        _ => Judged::Fails(Fault {
            kind: FaultKind::ArraySize,
            at: opening,
        }),
    }
}

/// The size that an expression gives, which was judged.
fn size_given(opening: Span, part: Judged<Operand>) -> Judged<u32>
    ensures { (c : Checked Typed) (before after : List Note) → IsSaid IsOperandOf c part before after
        → IsSaid IsSame (if_fits c (λ x. at_least_one opening (constant_value x))) result before after }
{
    match part {
        Judged::Fails(fault) => Judged::Fails(fault),
        Judged::Fits(operand) => {
            let value = operand.constant.value();
            drop(operand);
            at_least_one(opening, value)
        }
    }
}

/// The size that is given elsewhere, where there is one.
fn size_elsewhere(opening: Span, given: Option<u32>) -> Judged<u32>
    ensures { (notes : List Note) → IsSaid IsSame (or_fails given kinds.ArraySize opening) result notes notes }
{
    match given {
        Some(count) => Judged::Fits(count),
        None => Judged::Fails(Fault {
            kind: FaultKind::ArraySize,
            at: opening,
        }),
    }
}

/// The size that stands there. It may be missing where another one is given.
pub fn size_or(
    alloc: Global,
    scopes: &Scopes,
    notes: &mut Notes,
    opening: Span,
    given: Option<u32>,
    size: &Option<Box<Expression>>,
) -> Result<Judged<u32>, NoMemory>
    ensures { IfOk result (λ j. IsSaid IsSame (size_or scopes.now opening given (maybe_expr_of size.now)) j
        notes.old notes.new) }
{
    match size {
        None => Ok(size_elsewhere(opening, given)),
        Some(e) => {
            let part = expression(alloc, scopes, e, notes)?;
            Ok(size_given(opening, part))
        }
    }
}

/// An array with such elements, of a size that was judged.
fn array_declared(of: Option<ValueType>, count: Judged<u32>) -> Judged<Declared>
    ensures { (c : Checked ℕ) (before after : List Note) → IsSaid IsSame c count before after
        → IsSaid IsDeclared (if_fits c (λ n. fits (DeclaredArray of n))) result before after }
{
    match count {
        Judged::Fails(fault) => Judged::Fails(fault),
        Judged::Fits(count) => Judged::Fits(Declared::Array(of, count)),
    }
}

/// What the declarator of an object says. A function is none, whatever its parameters are, which aren't judged.
pub fn object_declared(
    alloc: Global,
    scopes: &Scopes,
    notes: &mut Notes,
    said: Specified,
    declarator: &Declarator,
    value: &Option<InitialiserPart>,
) -> Result<Judged<Declared>, NoMemory>
    ensures { IfOk result (λ j. IsSaid IsDeclared (object_declared scopes.now (specified_of said)
        (declarator_of declarator.now) (value_of value.now)) j notes.old notes.new) }
{
    let of = pointed(said.base, &declarator.pointer);
    match &declarator.part {
        DeclaratorPart::Plain => Ok(Judged::Fits(Declared::Value(of))),
        DeclaratorPart::Array(part) => {
            let given = count_by_value(of, value)?;
            let count = size_or(alloc, scopes, notes, part.opening, given, &part.size)?;
            Ok(array_declared(of, count))
        }
        DeclaratorPart::Function(_) => { Ok(Judged::Fits(Declared::Function(of, Vec::new(alloc)))) }
    }
}
