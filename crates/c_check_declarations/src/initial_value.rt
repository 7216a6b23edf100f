//! One value of an initialiser (C99 6.7.8), as a typed tree.

ghost use Rattle.std.specs.Prelude.{List, IfOk};
ghost use Rattle.c_tree.specs.Program.{Expression as Typed};
ghost use Rattle.c_typing.specs.Checked.{Checked, Note, if_fits};
ghost use Rattle.c_typing.specs.Rows.{assigned};
ghost use Rattle.c_check_expressions.specs.Judged.{IsOperand, IsOperandOf};
ghost use Rattle.c_check_expressions.specs.Arguments.{given_of};
ghost use Rattle.c_check_expressions.specs.Said.{IfFits, IsSaid};
ghost use Rattle.c_check_declarations.specs.InitialValues.{IsPlainTree, row_within};

use c_check_expressions::{Judged, Notes, Operand, assigned, expression, first_token};
use c_check_names::Scopes;
use c_syntax::Expression;
use c_tree::{Expression as Tree, ValueType};
use pcc_base::{Fault, FaultKind, NoMemory, Span};
use std::alloc::Global;

/// A value as its object's type asks for it, where there is room for it.
fn assigned_within(room: bool, to: ValueType, at: Span, part: Judged<Operand>) -> Judged<Operand>
    requires { IfFits part IsOperand }
    ensures { (c : Checked Typed) (before after : List Note) → IsSaid IsOperandOf c part before after
        → IsSaid IsOperandOf (if_fits c (row_within room (assigned to) at)) result before after }
{
    match part {
        Judged::Fails(fault) => Judged::Fails(fault),
        Judged::Fits(operand) => {
            if room {
                return assigned(to, at, operand);
            }
            drop(operand);
            Judged::Fails(Fault {
                kind: FaultKind::Initialiser,
                at,
            })
        }
    }
}

/// The tree of an operand.
fn tree_of(part: Judged<Operand>) -> Judged<Tree>
    ensures { (c : Checked Typed) (before after : List Note) → IsSaid IsOperandOf c part before after
        → IsSaid IsPlainTree c result before after }
{
    match part {
        Judged::Fails(fault) => Judged::Fails(fault),
        Judged::Fits(operand) => Judged::Fits(Box::into_inner(operand.tree)),
    }
}

/// One value of a list, as its object's type asks for it.
pub(crate) fn tree_value(
    alloc: Global,
    scopes: &Scopes,
    notes: &mut Notes,
    room: bool,
    to: ValueType,
    e: &Expression,
) -> Result<Judged<Tree>, NoMemory>
    ensures { IfOk result (λ j. IsSaid IsPlainTree (if_fits (given_of scopes.now e.now).value
        (row_within room (assigned to) (given_of scopes.now e.now).at)) j notes.old notes.new) }
{
    let part = expression(alloc, scopes, e, notes)?;
    let part = assigned_within(room, to, first_token(e), part);
    Ok(tree_of(part))
}
