//! The active calls: where the locals and arrays of each begin (C99 6.2.4).

ghost use Rattle.std.specs.Prelude.{◌≡◌, ◌≤◌, ◌+◌, ◌++◌, length, map, slice_index_or, slice_get, slice_set, pos};
ghost use Rattle.std.specs.Prelude.{take, [], ◌∷◌, MatchResult};
ghost use Rattle.c_eval_state.specs.Values.{held_of};
ghost use Rattle.c_tree.specs.Erased.{local_of, array_of};
ghost use Rattle.c_eval_state.specs.Kept.{first_value, frame_array, index_of};
ghost use Rattle.c_tree.specs.Store.{HoldsNumber, element_at, first_array, first_values};

use crate::arrays::Arrays;
use crate::value::Value;
use c_tree::{Function, Local, LocalArray, ValueType};
use pcc_base::NoMemory;

/// An active call: its first local among all, its first array among those of all active calls, and how many arrays
/// it has.
#[derive(Clone, Copy)]
pub struct Call {
    pub locals: usize,
    pub arrays: u32,
    pub count: u32,
}

/// The value of a local whose call has its first one there; 0 where it has no such local.
pub fn value_at(values: &[Value], first: usize, local: u32) -> Value
    requires { first ≤ length values.now }
    ensures { held_of result ≡ slice_index_or (map held_of values.now) (first + local) (HoldsNumber (pos 0)) }
{
    match values[first..].get(local as usize) {
        Some(value) => *value,
        None => Value::Number(0),
    }
}

/// Gives a local another value, where its call has it.
#[tactic(auto, using(crate::proofs::Pieces::values_set, crate::proofs::Pieces::values_past))]
pub(crate) fn set_value_at(values: &mut [Value], first: usize, local: u32, value: Value)
    requires { first ≤ length values.old }
    ensures { map held_of values.new ≡ slice_set (map held_of values.old) (first + local) (held_of value) }
{
    let local = local as usize;
    if local < values.len() - first {
        values[first + local] = value;
    }
}

/// What a local holds first: the argument at its place, in its type, or 0 or null.
fn first_value(of: ValueType, arguments: &[Value], place: usize) -> Value
    ensures { held_of result ≡ first_value of (slice_get (map held_of arguments.now) place) }
{
    match arguments.get(place) {
        Some(argument) => argument.in_type(of),
        None => Value::zero_of(of),
    }
}

/// Puts the locals of a function that begins behind the others: each parameter has its argument in its type, and every
/// other local is 0 or null (C99 6.5.2.2p7). Where there is no memory for them, nothing is changed.
fn push_locals(
    values: &mut Vec<Value>,
    locals: &[Local],
    arguments: &[Value],
) -> Result<(), NoMemory>
    ensures { MatchResult result
        (λ _. (map held_of values.new.items
        ≡ map held_of values.old.items ++ first_values (map local_of locals.now) (map held_of arguments.now))
        × (take (length values.old.items) values.new.items ≡ values.old.items))
        (λ _. values.new.items ≡ values.old.items) }
{
    let before = values.len();
    if push_each_local(values, locals, arguments).is_err() {
        values.truncate(before);
        return Err(NoMemory);
    }
    Ok(())
}

/// The same, but where there is no memory some may have come behind the others.
fn push_each_local(
    values: &mut Vec<Value>,
    locals: &[Local],
    arguments: &[Value],
) -> Result<(), NoMemory>
    ensures { MatchResult result
        (λ _. (map held_of values.new.items
        ≡ map held_of values.old.items ++ first_values (map local_of locals.now) (map held_of arguments.now))
        × (take (length values.old.items) values.new.items ≡ values.old.items))
        (λ _. take (length values.old.items) values.new.items ≡ values.old.items) }
{
    for i in 0..locals.len() {
        values.push(first_value(locals[i].of, arguments, i))?;
    }
    Ok(())
}

/// Puts the arrays of a function that begins behind the others, with zeros. Where there is no memory for them, nothing
/// is changed.
fn push_arrays(arrays: &mut Arrays, more: &[LocalArray]) -> Result<(), NoMemory>
    ensures { MatchResult result
        (λ _. arrays.new ≡ arrays.old ++ map first_array (map array_of more.now))
        (λ _. arrays.new ≡ arrays.old) }
{
    let before = arrays.len();
    if push_each_array(arrays, more).is_err() {
        arrays.truncate(before);
        return Err(NoMemory);
    }
    Ok(())
}

/// The same, but where there is no memory some may have come behind the others.
fn push_each_array(arrays: &mut Arrays, more: &[LocalArray]) -> Result<(), NoMemory>
    ensures { MatchResult result
        (λ _. arrays.new ≡ arrays.old ++ map first_array (map array_of more.now))
        (λ _. take (length arrays.old) arrays.new ≡ arrays.old) }
{
    for array in more {
        arrays.push_zeros(array.count as usize)?;
    }
    Ok(())
}

/// Puts the locals and the arrays of a function that begins behind the others. Where there is no memory for them,
/// nothing is changed.
fn push_parts(
    locals: &mut Vec<Value>,
    arrays: &mut Arrays,
    function: &Function,
    arguments: &[Value],
) -> Result<(), NoMemory>
    ensures { MatchResult result
        (λ _. (map held_of locals.new.items ≡ map held_of locals.old.items
        ++ first_values (map local_of function.now.locals.items) (map held_of arguments.now))
        × (arrays.new ≡ arrays.old ++ map first_array (map array_of function.now.arrays.items)))
        (λ _. (locals.new.items ≡ locals.old.items) × (arrays.new ≡ arrays.old)) }
{
    let before = locals.len();
    push_locals(locals, &function.locals, arguments)?;
    match push_arrays(arrays, &function.arrays) {
        Ok(()) => Ok(()),
        Err(_) => {
            locals.truncate(before);
            Err(NoMemory)
        }
    }
}

/// Puts a call of a function behind the others, with its locals and its arrays. Where there is no memory for it,
/// nothing is changed.
pub fn push_call(
    calls: &mut Vec<Call>,
    locals: &mut Vec<Value>,
    arrays: &mut Arrays,
    function: &Function,
    arguments: &[Value],
) -> Result<(), NoMemory>
    ensures { MatchResult result
        (λ _. (calls.new.items ≡ calls.old.items ++ record {
          locals = length locals.old.items;
          arrays = length arrays.old;
          count = length function.now.arrays.items;
        } ∷ [])
        × (map held_of locals.new.items ≡ map held_of locals.old.items
        ++ first_values (map local_of function.now.locals.items) (map held_of arguments.now))
        × (arrays.new ≡ arrays.old ++ map first_array (map array_of function.now.arrays.items)))
        (λ _. (calls.new.items ≡ calls.old.items) × (locals.new.items ≡ locals.old.items)
        × (arrays.new ≡ arrays.old)) }
{
    // This number is never refused: at most 4,096 calls are active, each of at most 2,048 arrays in 16,384 bytes of
    // frame.
    let first_array = u32::try_from(arrays.len()).map_err(|_| NoMemory)?;
    let count = u32::try_from(function.arrays.len()).map_err(|_| NoMemory)?;
    calls.push(Call {
        locals: locals.len(),
        arrays: first_array,
        count,
    })?;
    match push_parts(locals, arrays, function, arguments) {
        Ok(()) => Ok(()),
        Err(_) => {
            calls.pop();
            Err(NoMemory)
        }
    }
}

/// The number of an array of the active call of a depth among those of all active calls, where the call has it.
pub fn frame_array(calls: &[Call], array: u32, depth: u32) -> Option<usize>
    ensures { result ≡ frame_array calls.now array depth }
{
    if depth == 0 || depth as usize > calls.len() {
        return None;
    }
    let call = calls[depth as usize - 1];
    if array >= call.count {
        return None;
    }
    Some(call.arrays as usize + array as usize)
}

/// The place of an element in an array, which an index below 0 has not.
pub fn index_of(index: i32) -> Option<usize>
    ensures { result ≡ index_of index }
{
    if index < 0 {
        return None;
    }
    Some(index as usize)
}

/// The element at an index, if there is one.
pub(crate) fn element_in(elements: &[i32], index: i32) -> Option<i32>
    ensures { result ≡ element_at elements.now index }
{
    if index < 0 {
        return None;
    }
    elements.get(index as usize).copied()
}
