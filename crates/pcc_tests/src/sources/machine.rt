//! The state of a run of graphs: the active calls, the arrays, the input and the output.

use crate::sources::code::Code;
use flow_graph::Op;
use pcc_base::{DataObject, NoMemory, Trap};
use std::alloc::Global;

/// How a run ends.
#[derive(Clone, Copy, Debug)]
pub enum End {
    /// With this exit status.
    Ended(u8),
    Trapped(Trap),
    /// The program goes on, and no turn is left.
    TurnsSpent,
    /// An op has no meaning here, or no step was left.
    Stuck,
    NoMemory,
}

/// What a variable holds. No array is the number 0.
#[derive(Clone, Copy)]
pub enum Value {
    Number(i32),
    /// The array of this number.
    Array(usize),
}

/// An active call, and the ops of its block that it has before it.
#[derive(Drop)]
pub struct Call<'a> {
    pub code: &'a Code<'a>,
    pub ops: &'a [&'a Op],
    /// The caller's variable that gets the result, if one does.
    pub wanted: Option<u32>,
    pub words: Vec<Value>,
    pub variables: Vec<Value>,
    /// The number of its first array.
    pub first_array: usize,
}

/// The youngest call and those that wait, the oldest first. The static objects are the first arrays, and behind them
/// stand those of the calls.
#[derive(Drop)]
pub struct Machine<'a> {
    pub alloc: Global,
    pub codes: &'a [Code<'a>],
    pub arrays: Vec<DataObject>,
    pub current: Call<'a>,
    pub waiting: Vec<Call<'a>>,
    /// The input that is left.
    pub input: &'a [u8],
    pub written: Vec<u8>,
    /// The turns that are left.
    pub turns: u64,
    /// How the run ends, once it does.
    pub end: Option<End>,
}

/// The ops of a block. Where there is no such block, there are none.
pub(crate) fn ops_of<'a>(code: &'a Code<'a>, block: u32) -> &'a [&'a Op] {
    match code.blocks.get(block as usize) {
        Some(ops) => ops.as_slice(),
        None => &[],
    }
}

/// Adds the frame arrays of a function, all zeros.
fn push_arrays(
    alloc: Global,
    arrays: &mut Vec<DataObject>,
    code: &Code<'_>,
) -> Result<(), NoMemory> {
    for array in 0..code.graph.arrays() {
        let (width, count) = code.graph.array(array);
        let elements = vec![in alloc; 0; count as usize]?;
        arrays.push(DataObject { width, elements })?;
    }
    Ok(())
}

/// A call of a function before its first op, whose frame arrays are added.
pub fn fresh<'a>(
    alloc: Global,
    arrays: &mut Vec<DataObject>,
    code: &'a Code<'a>,
    wanted: Option<u32>,
    words: Vec<Value>,
) -> Result<Call<'a>, NoMemory> {
    let first_array = arrays.len();
    push_arrays(alloc, arrays, code)?;
    let variables = vec![in alloc; Value::Number(0); code.graph.vars() as usize]?;
    Ok(Call {
        code,
        ops: ops_of(code, 0),
        wanted,
        words,
        variables,
        first_array,
    })
}

fn copies_of(alloc: Global, objects: &[DataObject]) -> Result<Vec<DataObject>, NoMemory> {
    let mut copies = Vec::new(alloc);
    for object in objects {
        let elements = object.elements.as_slice().to_vec(alloc)?;
        copies.push(DataObject {
            width: object.width,
            elements,
        })?;
    }
    Ok(copies)
}

impl<'a> Machine<'a> {
    /// Before the first step of a program, whose first function this is.
    pub fn new(
        alloc: Global,
        codes: &'a [Code<'a>],
        main: &'a Code<'a>,
        objects: &[DataObject],
        input: &'a [u8],
        turns: u64,
    ) -> Result<Machine<'a>, NoMemory> {
        let mut arrays = copies_of(alloc, objects)?;
        let current = fresh(alloc, &mut arrays, main, Some(0), Vec::new(alloc))?;
        Ok(Machine {
            alloc,
            codes,
            arrays,
            current,
            waiting: Vec::new(alloc),
            input,
            written: Vec::new(alloc),
            turns,
            end: None,
        })
    }

    /// The run ends, so if it hasn't before.
    pub fn stop(&mut self, end: End) {
        if self.end.is_none() {
            self.end = Some(end);
        }
    }

    /// The value of a variable.
    pub fn value(&mut self, variable: u32) -> Value {
        match self.current.variables.get(variable as usize) {
            Some(value) => *value,
            None => {
                self.stop(End::Stuck);
                Value::Number(0)
            }
        }
    }

    /// The number that a variable holds.
    pub fn number(&mut self, variable: u32) -> i32 {
        match self.value(variable) {
            Value::Number(number) => number,
            Value::Array(_) => {
                self.stop(End::Stuck);
                0
            }
        }
    }

    /// A value into a variable.
    pub fn set(&mut self, variable: u32, value: Value) {
        match self.current.variables.get_mut(variable as usize) {
            Some(place) => *place = value,
            None => self.stop(End::Stuck),
        }
    }

    pub(crate) fn set_number(&mut self, variable: u32, number: i32) {
        self.set(variable, Value::Number(number));
    }
}
