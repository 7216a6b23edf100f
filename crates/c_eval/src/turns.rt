//! Turns: calls of functions and loops.

ghost use Rattle.std.specs.Prelude.{◌≡◌};
ghost use Rattle.c_eval_state.specs.Left.{left_of};
ghost use Rattle.c_eval.specs.Turns.{Begun, IsReady, IsTurn};
ghost use Rattle.c_eval_laws.specs.Tasks.{Ahead, Task};
ghost use Rattle.c_tree.specs.Program as typed;

use crate::next::Turn;
use crate::{calls, statements};
use c_eval_state::{EvalEnd, Evaluation, Store};
use pcc_base::Trap;

/// A turn begins, where so many are left. A call too many traps before it takes one.
pub fn begin<'a>(
    left: &mut Evaluation<'a>,
    store: &mut Store,
    turn: Turn<'a>,
    rest: u64,
) -> Result<(), EvalEnd>
    requires way { (left_of left.old).way ≡ Ahead }
    requires ready { IsReady turn (left_of left.old) }
    ensures { (p : typed.Program) (task : Task) → IsTurn p turn.entry task
        → Begun rest p task (left_of left.old) store.old (left_of left.new) store.new result }
{
    match turn {
        Turn::Call(function, count) => {
            if store.is_full() {
                return Err(EvalEnd::Trapped(Trap::Check));
            }
            if rest == 0 {
                return Err(EvalEnd::TurnsSpent);
            }
            Ok(calls::call(left, store, function, count)?)
        }
        Turn::Loop(x) => {
            if rest == 0 {
                return Err(EvalEnd::TurnsSpent);
            }
            Ok(statements::begin_turn(left, x)?)
        }
    }
}
