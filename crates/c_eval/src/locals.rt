//! Declared locals (C99 6.7.8).

ghost use Rattle.std.specs.Prelude.{◌≡◌, ℕ, IfOk, option_map};
ghost use Rattle.c_eval_state.specs.Changes.{first_value_comes, item_done};
ghost use Rattle.c_eval_state.specs.Left.{left_of};
ghost use Rattle.c_eval_state.specs.Kept.{over};
ghost use Rattle.c_eval_laws.specs.Tasks.{Ahead};
ghost use Rattle.c_tree.specs.Erased.{boxed_of};
ghost use Rattle.c_tree.specs.Program.{Scalar};
ghost use Rattle.c_tree.specs.Store.{State, Gives, visited};
ghost use Rattle.pcc_base.specs.Outcome.{Listing};

use c_eval_state::{Evaluation, Store, Task};
use c_tree::{Expression, ValueType};
use pcc_base::NoMemory;

/// The first value of a local, if it has one.
fn start_value<'a>(
    left: &mut Evaluation<'a>,
    local: u32,
    of: ValueType,
    value: &'a Option<Box<Expression>>,
) -> Result<(), NoMemory>
    ensures { IfOk result (λ _. left_of left.new
        ≡ first_value_comes local of (option_map boxed_of value.now) (left_of left.old)) }
{
    match value {
        Some(e) => left.next_both(Task::Evaluates(e), Task::Initialises(local, of)),
        None => Ok(()),
    }
}

/// The declaration of a local runs: it is 0 or null, and then its first value comes.
pub fn declare_local<'a>(
    left: &mut Evaluation<'a>,
    store: &mut Store,
    local: u32,
    value: &'a Option<Box<Expression>>,
) -> Result<(), NoMemory>
    requires { (left_of left.old).way ≡ Ahead }
    ensures { IfOk result (λ _. (l : Listing) (s : State) (n : ℕ)
        → item_done l (Scalar n local (option_map boxed_of value.now)) (left_of left.old) (over s store.old)
        ≡ Gives (left_of left.new) (over (visited l n (over s store.old)) store.new)) }
{
    let of = left.type_of_local(local);
    start_value(left, local, of, value)?;
    store.declare_local(local, of);
    Ok(())
}
