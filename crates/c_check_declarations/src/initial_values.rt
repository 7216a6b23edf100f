//! The values of initialisers (C99 6.7.8): typed trees, or constants.

ghost use Rattle.std.specs.Prelude.{◌≡◌, ℕ, List, Some, map, option_map, IfOk};
ghost use Rattle.c_check_expressions.specs.Constants.{IsConstant};
ghost use Rattle.c_syntax.specs.Expressions.{expr_of, exprs_of};
ghost use Rattle.c_tree.specs.Program.{Expression as Typed};
ghost use Rattle.c_tree.specs.Store.{converted};
ghost use Rattle.c_tree.specs.declared.types.IntegerType.{IntegerType as IntType};
ghost use Rattle.c_typing.specs.Checked.{Checked, Note, faults_in, if_fits};
ghost use Rattle.c_typing.specs.Constants.{constant_value};
ghost use Rattle.c_typing.specs.Expressions.{given};
ghost use Rattle.c_typing.specs.Faults.{least};
ghost use Rattle.c_typing.specs.Initialisers.{constant_for, no_values, values_for};
ghost use Rattle.c_typing.specs.Rows.{assigned};
ghost use Rattle.c_check_expressions.specs.Judged.{IsOperandOf};
ghost use Rattle.c_check_expressions.specs.Arguments.{AreTrees, given_of};
ghost use Rattle.c_check_expressions.specs.Said.{IsSaid};
ghost use Rattle.c_check_declarations.specs.DeclaratorAnswers.{AreSame, IsSame};
ghost use Rattle.c_check_declarations.specs.InitialValues.{row_within};

use crate::answers::behind;
use crate::initial_value::tree_value;
use c_check_expressions::{Constant, Judged, Notes, Operand, expression, first_token};
use c_check_names::Scopes;
use c_operators::convert;
use c_syntax::Expression;
use c_tree::{Expression as Tree, IntegerType, ValueType};
use pcc_base::{Fault, FaultKind, NoMemory, Span};
use std::alloc::Global;

/// The values of a list that has room for so many, as their object's type asks for them.
pub fn trees(
    alloc: Global,
    scopes: &Scopes,
    notes: &mut Notes,
    room: u32,
    to: ValueType,
    values: &[Expression],
) -> Result<Judged<Vec<Tree>>, NoMemory>
    ensures { IfOk result (λ j. IsSaid AreTrees
        (values_for (assigned to) room (given scopes.now (exprs_of (map expr_of values.now)))) j
        notes.old notes.new) }
{
    let mut trees = Judged::Fits(Vec::new(alloc));
    let mut free = room;
    for e in values {
        let part = tree_value(alloc, scopes, notes, free > 0, to, e)?;
        trees = behind(trees, part)?;
        free = free.saturating_sub(1);
    }
    Ok(trees)
}

/// The value of a constant expression, converted to the type of its object; none where it has no value.
fn converted_value(of: IntegerType, constant: Constant) -> Option<i32>
    ensures { (e : Typed) → IsConstant e constant → result ≡ option_map (converted of) (constant_value e) }
{
    match constant.value() {
        Some(n) => Some(convert(of, n)),
        None => None,
    }
}

/// The value of a constant expression as its object's type asks for it, where there is room for it.
fn constant_within(room: bool, of: IntegerType, at: Span, part: Judged<Operand>) -> Judged<i32>
    ensures { (c : Checked Typed) (before after : List Note) → IsSaid IsOperandOf c part before after
        → IsSaid IsSame (if_fits c (row_within room (constant_for of) at)) result before after }
{
    match part {
        Judged::Fails(fault) => Judged::Fails(fault),
        Judged::Fits(operand) => {
            let value = converted_value(of, operand.constant);
            drop(operand);
            constant_or_fault(room, at, value)
        }
    }
}

/// A value, where there is one and room for it.
fn constant_or_fault(room: bool, at: Span, value: Option<i32>) -> Judged<i32>
    ensures { (e : Typed) (of : IntType) (notes : List Note) → value ≡ option_map (converted of) (constant_value e)
        → IsSaid IsSame (row_within room (constant_for of) at e) result notes notes }
{
    match value {
        Some(n) if room => Judged::Fits(n),
        _ => Judged::Fails(Fault {
            kind: FaultKind::Initialiser,
            at,
        }),
    }
}

/// One constant of a list, as its object's type asks for it.
fn constant_given(
    alloc: Global,
    scopes: &Scopes,
    notes: &mut Notes,
    room: bool,
    of: IntegerType,
    e: &Expression,
) -> Result<Judged<i32>, NoMemory>
    ensures { IfOk result (λ j. IsSaid IsSame (if_fits (given_of scopes.now e.now).value
        (row_within room (constant_for of) (given_of scopes.now e.now).at)) j notes.old notes.new) }
{
    let part = expression(alloc, scopes, e, notes)?;
    Ok(constant_within(room, of, first_token(e), part))
}

/// The constants of a list that has room for so many, as their object's type asks for them.
pub fn constants(
    alloc: Global,
    scopes: &Scopes,
    notes: &mut Notes,
    room: u32,
    of: IntegerType,
    values: &[Expression],
) -> Result<Judged<Vec<i32>>, NoMemory>
    ensures { IfOk result (λ j. IsSaid AreSame
        (values_for (constant_for of) room (given scopes.now (exprs_of (map expr_of values.now)))) j
        notes.old notes.new) }
{
    let mut constants = Judged::Fits(Vec::new(alloc));
    let mut free = room;
    for e in values {
        let part = constant_given(alloc, scopes, notes, free > 0, of, e)?;
        constants = behind(constants, part)?;
        free = free.saturating_sub(1);
    }
    Ok(constants)
}

/// An expression that initialises no array: the fault at its first token, or the least of its own.
pub fn no_values(
    alloc: Global,
    scopes: &Scopes,
    notes: &mut Notes,
    e: &Expression,
) -> Result<Fault, NoMemory>
    ensures { IfOk result (λ f. least (faults_in (no_values {A = ℕ} scopes.now (expr_of e.now))) ≡ Some f) }
{
    match expression(alloc, scopes, e, notes)? {
        Judged::Fails(fault) => Ok(fault),
        Judged::Fits(operand) => {
            drop(operand);
            Ok(Fault {
                kind: FaultKind::Initialiser,
                at: first_token(e),
            })
        }
    }
}
