//! Arguments that are judged, one behind the other (C99 6.5.2.2).

ghost use Rattle.std.specs.Prelude.{◌≡◌, ◌∷◌, ◌++◌, [], ◌&&◌, true, List, IfOk};
ghost use Rattle.c_tree.specs.Program.{Expression as Typed};
ghost use Rattle.c_typing.specs.Checked.{fits, Checked, Note};
ghost use Rattle.c_typing.specs.Expressions.{has_type};
ghost use Rattle.c_check_expressions.specs.Judged.{IsOperand, IsOperandOf};
ghost use Rattle.c_check_expressions.specs.Parts.{Stands};
ghost use Rattle.c_check_expressions.specs.Arguments.{AreTrees, for_parameter, one_behind};
ghost use Rattle.c_check_expressions.specs.Said.{IfFits, IsSaid};

use crate::judged::{Judged, Operand};
use crate::least_faults::both;
use crate::one_operand::assigned;
use c_tree::{Expression, ValueType};
use pcc_base::{NoMemory, Span};
use std::alloc::Global;

/// Arguments that were judged, and whether each has a type.
#[derive(Drop)]
pub struct Arguments {
    pub values: Judged<Vec<Expression>>,
    pub typed: bool,
}

/// Whether an expression has a type.
fn is_typed(part: &Judged<Operand>) -> bool
    ensures { (c : Checked Typed) → Stands IsOperandOf c part.now → result ≡ has_type c }
{
    match part {
        Judged::Fits(_) => true,
        Judged::Fails(_) => false,
    }
}

/// An argument, as its parameter asks for it; it may have none.
fn for_parameter(parameter: Option<ValueType>, at: Span, part: Judged<Operand>) -> Judged<Operand>
    requires { IfFits part IsOperand }
    ensures { (c : Checked Typed) (before after : List Note) → IsSaid IsOperandOf c part before after
        → IsSaid IsOperandOf (for_parameter parameter at c) result before after }
{
    match (parameter, part) {
        (None, part) => part,
        (Some(_), Judged::Fails(fault)) => Judged::Fails(fault),
        (Some(to), Judged::Fits(operand)) => assigned(to, at, operand),
    }
}

/// One more tree behind others.
fn pushed(mut values: Vec<Expression>, tree: Box<Expression>) -> Result<Vec<Expression>, NoMemory>
    ensures { IfOk result (λ v. v.items ≡ values.items ++ tree.value ∷ []) }
{
    values.push(Box::into_inner(tree))?;
    Ok(values)
}

/// One more argument behind others.
pub fn one_more(
    so_far: Arguments,
    parameter: Option<ValueType>,
    at: Span,
    part: Judged<Operand>,
) -> Result<Arguments, NoMemory>
    requires { IfFits part IsOperand }
    ensures said { IfOk result (λ r. (front : Checked (List Typed)) (c : Checked Typed)
        (before between after : List Note) → IsSaid AreTrees front so_far.values before between
        → IsSaid IsOperandOf c part between after
        → IsSaid AreTrees (one_behind front (for_parameter parameter at c)) r.values before after) }
    ensures typed { IfOk result (λ r. (c : Checked Typed) → Stands IsOperandOf c part
        → r.typed ≡ (so_far.typed && has_type c)) }
{
    let typed = so_far.typed && is_typed(&part);
    match both(so_far.values, for_parameter(parameter, at, part)) {
        Judged::Fails(fault) => Ok(Arguments {
            values: Judged::Fails(fault),
            typed,
        }),
        Judged::Fits((values, operand)) => {
            let values = pushed(values, operand.tree)?;
            Ok(Arguments {
                values: Judged::Fits(values),
                typed,
            })
        }
    }
}

/// No arguments, before the first one.
pub fn no_arguments(alloc: Global) -> Arguments
    ensures said { (before : List Note) → IsSaid AreTrees (fits []) result.values before before }
    ensures typed { result.typed ≡ true }
{
    Arguments {
        values: Judged::Fits(Vec::new(alloc)),
        typed: true,
    }
}
