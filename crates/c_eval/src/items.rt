//! Declared items (C99 6.7.8).

ghost use Rattle.std.specs.Prelude.{◌≡◌, ◌<◌, ℕ, IfOk, length, map, suc};
ghost use Rattle.c_eval_state.specs.Changes.{Comes, done, item_done, seen};
ghost use Rattle.c_eval_state.specs.Left.{left_of};
ghost use Rattle.c_eval_state.specs.Views.{elements_from};
ghost use Rattle.c_eval_state.specs.Kept.{over};
ghost use Rattle.c_eval_laws.specs.Tasks as tasks;
ghost use Rattle.c_eval_laws.specs.Tasks.{Ahead};
ghost use Rattle.c_tree.specs.Erased.{expression_of, initialiser_of, item_of};
ghost use Rattle.c_tree.specs.Program.{Array, Elements, Program, Text};
ghost use Rattle.c_tree.specs.declared.types.IntegerType.{IntegerType};
ghost use Rattle.c_tree.specs.Store.{State, Gives, visited};
ghost use Rattle.pcc_base.specs.Outcome.{Listing};

use crate::locals::declare_local;
use c_eval_state::{ArrayName, EvalEnd, Evaluation, Store, Task};
use c_tree::{Expression, Initialiser, IntegerType, Item, ValueType};
use pcc_base::{NoMemory, Trap};

/// The declaration of an array runs: it is zeros, and then its first elements come.
fn declare_list<'a>(
    left: &mut Evaluation<'a>,
    store: &mut Store,
    array: u32,
    element: IntegerType,
    first: &'a [Expression],
) -> Result<(), NoMemory>
    requires { (left_of left.old).way ≡ Ahead }
    ensures { IfOk result (λ _. (l : Listing) (s : State) (n : ℕ)
        → item_done l (Array n array element (Elements (map expression_of first.now))) (left_of left.old)
        (over s store.old) ≡ Gives (left_of left.new) (over (visited l n (over s store.old)) store.new)) }
{
    left.next(Task::Fills(array, element, first, 0))?;
    store.declare_array(array);
    Ok(())
}

/// The declaration of an array runs that a text initialises.
fn declare_text(left: &Evaluation<'_>, store: &mut Store, array: u32, object: u32)
    requires { (left_of left.now).way ≡ Ahead }
    ensures { (l : Listing) (s : State) (n : ℕ) (element : IntegerType)
        → item_done l (Array n array element (Text object)) (left_of left.now) (over s store.old)
        ≡ Gives (left_of left.now) (over (visited l n (over s store.old)) store.new) }
{
    store.declare_array(array);
    store.set_text(array, object);
}

/// The declaration of an array runs.
fn declare_array<'a>(
    left: &mut Evaluation<'a>,
    store: &mut Store,
    array: u32,
    element: IntegerType,
    first: &'a Initialiser,
) -> Result<(), NoMemory>
    requires { (left_of left.old).way ≡ Ahead }
    ensures { IfOk result (λ _. (l : Listing) (s : State) (n : ℕ)
        → item_done l (Array n array element (initialiser_of first.now)) (left_of left.old) (over s store.old)
        ≡ Gives (left_of left.new) (over (visited l n (over s store.old)) store.new)) }
{
    match first {
        Initialiser::List(first) => declare_list(left, store, array, element, first.as_slice()),
        Initialiser::Text(object) => {
            declare_text(left, store, array, *object);
            Ok(())
        }
    }
}

/// A declaration runs.
pub fn declare<'a>(
    left: &mut Evaluation<'a>,
    store: &mut Store,
    item: &'a Item,
) -> Result<(), NoMemory>
    requires { (left_of left.old).way ≡ Ahead }
    ensures { IfOk result (λ _. (l : Listing) (s : State)
        → item_done l (item_of item.now) (left_of left.old) (over s store.old)
        ≡ Gives (left_of left.new) (over (seen l (item_of item.now) (over s store.old)) store.new)) }
{
    match item {
        Item::Scalar(_, local, value) => declare_local(left, store, *local, value),
        Item::Array(_, array, element, first) => {
            declare_array(left, store, *array, *element, first)
        }
    }
}

/// The next item of a row, and those behind it.
pub(crate) fn declare_next<'a>(left: &mut Evaluation<'a>, items: &'a [Item]) -> Result<(), NoMemory>
    requires { (left_of left.old).way ≡ Ahead }
    ensures { IfOk result (λ _. (p : Program) (l : Listing) (s : State)
        → done p l (tasks.DeclaresAll (map item_of items.now)) (left_of left.old) s ≡ Gives (left_of left.new) s) }
{
    match items.split_first() {
        Some((first, others)) => {
            left.next_both(Task::Declares(first), Task::DeclaresAll(others))
        }
        None => Ok(()),
    }
}

/// The next element that an array begins with, and those behind it.
#[tactic(auto, using(c_eval_state::proofs::Stacking::elements_here, c_eval_state::proofs::Stacking::elements_past))]
pub fn fill<'a>(
    left: &mut Evaluation<'a>,
    array: u32,
    element: IntegerType,
    elements: &'a [Expression],
    place: usize,
) -> Result<(), NoMemory>
    requires { (left_of left.old).way ≡ Ahead }
    ensures { IfOk result (λ _. (p : Program) (l : Listing) (s : State)
        → done p l (tasks.Fills array element place (elements_from place elements.now)) (left_of left.old) s
        ≡ Gives (left_of left.new) s) }
{
    if place < elements.len() {
        left.next_both(
            Task::Evaluates(&elements[place]),
            Task::FillsElement(array, element, elements, place),
        )
    } else {
        Ok(())
    }
}

/// An element of an array gets its first value, and then those behind it come.
pub(crate) fn fill_element<'a>(
    left: &mut Evaluation<'a>,
    store: &mut Store,
    array: u32,
    element: IntegerType,
    elements: &'a [Expression],
    place: usize,
) -> Result<(), EvalEnd>
    requires { (left_of left.old).way ≡ Ahead }
    ensures { (p : Program) (l : Listing) (s : State)
        → Comes result (done p l (tasks.FillsElement array element place (elements_from (suc place) elements.now))
        (left_of left.old) (over s store.old)) (left_of left.new) (over s store.new) }
{
    let value = left.take_value().in_type(ValueType::Integer(element));
    let name = ArrayName::InFrame {
        array,
        depth: store.depth(),
    };
    if place >= store.elements(name).len() {
        return Err(EvalEnd::Trapped(Trap::Check));
    }
    if store.store_at(name, place, value) {
        left.next(Task::Fills(array, element, elements, place + 1))?;
        return Ok(());
    }
    Err(EvalEnd::Trapped(Trap::Check))
}
