//! Values of statements: conditions, the value of a switch, and returned values (C99 6.8.4 to 6.8.6).

ghost use Rattle.std.specs.Prelude.{◌≡◌, List, Option, None, Some, IfOk};
ghost use Rattle.c_syntax.specs.Declarations.{maybe_expr_of};
ghost use Rattle.c_syntax.specs.Expressions.{expr_of};
ghost use Rattle.pcc_base.specs.declared.fault.FaultKind.TheVariants.{TypeRule};
ghost use Rattle.c_tree.specs.Program.{value_type, Expression as Typed};
ghost use Rattle.c_typing.specs.Checked.{Checked, Note, fits, if_fits};
ghost use Rattle.c_typing.specs.Expressions.{typed_expression, typed_if_any};
ghost use Rattle.c_typing.specs.Faults.{fault};
ghost use Rattle.c_typing.specs.Rows.{assigned, selected, tested};
ghost use Rattle.c_typing.specs.Statements.{condition, condition_if_any, returned};
ghost use Rattle.c_check_expressions.specs.Judged.{IsOperand, IsOperandOf};
ghost use Rattle.c_check_expressions.specs.Said.{IfFits, IsSaid};
ghost use Rattle.c_check_expressions.specs.Maybe.{IsOperandIfAny, IsOperandWhere};
ghost use Rattle.c_check_declarations.specs.InitialValues.{IsTree};
ghost use Rattle.c_check_declarations.specs.ItemAnswers.{IsTreeIfAny};

use c_check_expressions::{
    Judged, Notes, Operand, assigned, expression, expression_if_any, selected, tested,
};
use c_check_names::Scopes;
use c_syntax::Expression;
use c_tree::{Expression as Tree, ValueType};
use pcc_base::{Fault, FaultKind, NoMemory, Span};
use std::alloc::Global;

/// The tree of an operand.
fn tree_of(part: Judged<Operand>) -> Judged<Box<Tree>>
    ensures { (c : Checked Typed) (before after : List Note) → IsSaid IsOperandOf c part before after
        → IsSaid IsTree c result before after }
{
    match part {
        Judged::Fails(fault) => Judged::Fails(fault),
        Judged::Fits(operand) => Judged::Fits(operand.tree),
    }
}

/// The typed tree of an expression.
pub(crate) fn value(
    alloc: Global,
    scopes: &Scopes,
    notes: &mut Notes,
    e: &Expression,
) -> Result<Judged<Box<Tree>>, NoMemory>
    ensures { IfOk result (λ j. IsSaid IsTree (typed_expression scopes.now (expr_of e.now)) j
        notes.old notes.new) }
{
    Ok(tree_of(expression(alloc, scopes, e, notes)?))
}

/// The tree of an operand, where there is one.
fn tree_if_any(part: Judged<Option<Operand>>) -> Judged<Option<Box<Tree>>>
    ensures { (c : Checked (Option Typed)) (before after : List Note) → IsSaid IsOperandIfAny c part before after
        → IsSaid IsTreeIfAny c result before after }
{
    match part {
        Judged::Fails(fault) => Judged::Fails(fault),
        Judged::Fits(None) => Judged::Fits(None),
        Judged::Fits(Some(operand)) => Judged::Fits(Some(operand.tree)),
    }
}

/// The typed tree of an expression that may be absent.
pub(crate) fn value_if_any(
    alloc: Global,
    scopes: &Scopes,
    notes: &mut Notes,
    e: &Option<Box<Expression>>,
) -> Result<Judged<Option<Box<Tree>>>, NoMemory>
    ensures { IfOk result (λ j. IsSaid IsTreeIfAny (typed_if_any scopes.now (maybe_expr_of e.now)) j
        notes.old notes.new) }
{
    Ok(tree_if_any(expression_if_any(alloc, scopes, e, notes)?))
}

/// A condition, where it fits (C99 6.8.4.1p1 and 6.8.5p2).
fn tested_tree(at: Span, part: Judged<Operand>) -> Judged<Box<Tree>>
    requires { IfFits part IsOperand }
    ensures { (c : Checked Typed) (before after : List Note) → IsSaid IsOperandOf c part before after
        → IsSaid IsTree (if_fits c (tested at)) result before after }
{
    match part {
        Judged::Fails(fault) => Judged::Fails(fault),
        Judged::Fits(operand) => tree_of(tested(at, operand)),
    }
}

/// A condition.
pub(crate) fn condition(
    alloc: Global,
    scopes: &Scopes,
    notes: &mut Notes,
    at: Span,
    e: &Expression,
) -> Result<Judged<Box<Tree>>, NoMemory>
    ensures { IfOk result (λ j. IsSaid IsTree (condition scopes.now at (expr_of e.now)) j notes.old notes.new) }
{
    let part = expression(alloc, scopes, e, notes)?;
    Ok(tested_tree(at, part))
}

/// A tree where there is one.
fn some(part: Judged<Box<Tree>>) -> Judged<Option<Box<Tree>>>
    ensures { (c : Checked Typed) (before after : List Note) → IsSaid IsTree c part before after
        → IsSaid IsTreeIfAny (if_fits c (λ x. fits (Some x))) result before after }
{
    match part {
        Judged::Fails(fault) => Judged::Fails(fault),
        Judged::Fits(tree) => Judged::Fits(Some(tree)),
    }
}

/// A condition that may be absent.
pub(crate) fn condition_if_any(
    alloc: Global,
    scopes: &Scopes,
    notes: &mut Notes,
    at: Span,
    e: &Option<Box<Expression>>,
) -> Result<Judged<Option<Box<Tree>>>, NoMemory>
    ensures { IfOk result (λ j. IsSaid IsTreeIfAny (condition_if_any scopes.now at (maybe_expr_of e.now)) j
        notes.old notes.new) }
{
    match e {
        None => Ok(Judged::Fits(None)),
        Some(e) => {
            let part = condition(alloc, scopes, notes, at, e)?;
            Ok(some(part))
        }
    }
}

/// The value of a switch, where it fits (C99 6.8.4.2p1).
fn selected_tree(at: Span, part: Judged<Operand>) -> Judged<Box<Tree>>
    requires { IfFits part IsOperand }
    ensures { (c : Checked Typed) (before after : List Note) → IsSaid IsOperandOf c part before after
        → IsSaid IsTree (if_fits c (λ x. selected (value_type x) at x)) result before after }
{
    match part {
        Judged::Fails(fault) => Judged::Fails(fault),
        Judged::Fits(operand) => tree_of(selected(at, operand)),
    }
}

/// The value of a switch.
pub(crate) fn switch_value(
    alloc: Global,
    scopes: &Scopes,
    notes: &mut Notes,
    at: Span,
    e: &Expression,
) -> Result<Judged<Box<Tree>>, NoMemory>
    ensures { IfOk result (λ j. IsSaid IsTree (if_fits (typed_expression scopes.now (expr_of e.now))
        (λ x. selected (value_type x) at x)) j notes.old notes.new) }
{
    let part = expression(alloc, scopes, e, notes)?;
    Ok(selected_tree(at, part))
}

/// The fault of a value that is there, or not, against the function's type.
fn not_returned(at: Span) -> Fault
    ensures { result ≡ fault TypeRule at }
{
    Fault {
        kind: FaultKind::TypeRule,
        at,
    }
}

/// A value that the function's type asks for.
fn value_returned(of: ValueType, at: Span, operand: Operand) -> Judged<Option<Box<Tree>>>
    requires { IsOperand operand }
    ensures { (e : Typed) (notes : List Note) → IsOperandOf e operand
        → IsSaid IsTreeIfAny (if_fits (assigned of at e) (λ x. fits (Some x))) result notes notes }
{
    some(tree_of(assigned(of, at, operand)))
}

/// No value, which is returned exactly where the function is void (C99 6.8.6.4p1).
fn nothing_returned(of: ValueType, at: Span) -> Judged<Option<Box<Tree>>>
    ensures { (notes : List Note) → IsSaid IsTreeIfAny (returned of at None) result notes notes }
{
    match of {
        ValueType::Void => Judged::Fits(None),
        ValueType::Integer(_) | ValueType::Pointer(_) => Judged::Fails(not_returned(at)),
    }
}

/// A value, which is returned exactly where the function isn't void.
fn something_returned(of: ValueType, at: Span, operand: Operand) -> Judged<Option<Box<Tree>>>
    requires { IsOperand operand }
    ensures { (e : Typed) (notes : List Note) → IsOperandOf e operand
        → IsSaid IsTreeIfAny (returned of at (Some e)) result notes notes }
{
    match of {
        ValueType::Void => {
            drop(operand);
            Judged::Fails(not_returned(at))
        }
        ValueType::Integer(_) => value_returned(of, at, operand),
        ValueType::Pointer(_) => value_returned(of, at, operand),
    }
}

/// A returned value that fits, or none.
fn returned_value(of: ValueType, at: Span, value: Option<Operand>) -> Judged<Option<Box<Tree>>>
    requires { IsOperandWhere value }
    ensures { (x : Option Typed) (notes : List Note) → IsOperandIfAny x value
        → IsSaid IsTreeIfAny (returned of at x) result notes notes }
{
    match value {
        None => nothing_returned(of, at),
        Some(operand) => something_returned(of, at, operand),
    }
}

/// A returned value that was judged.
fn returned_tree(
    of: ValueType,
    at: Span,
    part: Judged<Option<Operand>>,
) -> Judged<Option<Box<Tree>>>
    requires { IfFits part IsOperandWhere }
    ensures { (c : Checked (Option Typed)) (before after : List Note) → IsSaid IsOperandIfAny c part before after
        → IsSaid IsTreeIfAny (if_fits c (returned of at)) result before after }
{
    match part {
        Judged::Fails(fault) => Judged::Fails(fault),
        Judged::Fits(value) => returned_value(of, at, value),
    }
}

/// What a function of a type returns.
pub(crate) fn returned(
    alloc: Global,
    scopes: &Scopes,
    notes: &mut Notes,
    of: ValueType,
    at: Span,
    e: &Option<Box<Expression>>,
) -> Result<Judged<Option<Box<Tree>>>, NoMemory>
    ensures { IfOk result (λ j. IsSaid IsTreeIfAny (if_fits (typed_if_any scopes.now (maybe_expr_of e.now))
        (returned of at)) j notes.old notes.new) }
{
    let part = expression_if_any(alloc, scopes, e, notes)?;
    Ok(returned_tree(of, at, part))
}
