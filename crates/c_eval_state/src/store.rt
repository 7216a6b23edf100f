//! What a program holds while it is evaluated.

ghost use Rattle.std.specs.Prelude.{◌≡◌, ◌<◌, List, ℕ, ◌∷◌, length, map, nat_le, pos, IfOk, MatchResult, option_map};
ghost use Rattle.c_eval_state.specs.Kept.{over, entered, returned, Written, stored};
ghost use Rattle.c_eval_state.specs.Values.{name_of, held_of, found_of};
ghost use Rattle.c_tree.specs.Erased.{function_of, program_of};
ghost use Rattle.c_tree.specs.Evaluation.{AtIndex, element_read, element_written, first_state, load, store};
ghost use Rattle.c_tree.specs.Evaluation.{most_active, own_array, text_then_zeros, zeroed};
ghost use Rattle.c_tree.specs.Store.{State, array_named, array_of, element_at, held, with_array, with_local, zero_of};
ghost use Rattle.c_tree.specs.Store.{or_check};
ghost use Rattle.pcc_base.specs.Outcome as outcome;

use crate::arrays::Arrays;
use crate::calls::{Call, element_in, frame_array, index_of, push_call, set_value_at, value_at};
use crate::value::{ArrayName, Place, Value};
use c_tree::{ArrayRef, Function, Program, ValueType};
use pcc_base::NoMemory;
use std::alloc::Global;
use std::marker::Model;

/// What a program holds while it is evaluated. A contract sees `Kept`: the static objects, and the active calls with
/// their locals and arrays.
#[derive(Drop)]
pub struct Store {
    objects: Arrays,
    arrays: Arrays,
    locals: Vec<Value>,
    calls: Vec<Call>,
}

impl Model for Store {
    ghost use Rattle.std.specs.Prelude.{length, map};
    ghost use Rattle.c_eval_state.specs.Kept.{Kept};

    ghost Value = { Kept };

    ghost use Rattle.c_eval_state.specs.Kept.{active_in, IsKept};
    ghost use Rattle.c_eval_state.specs.Values.{held_of};

    ghost view = { λ s. record {
      objects = s.objects;
      active = active_in s.calls.items (length s.calls.items) (map held_of s.locals.items) s.arrays;
    } };

    ghost invariant = { λ s. IsKept s.calls.items (length s.locals.items) (length s.arrays) };
}

/// How many calls may be active at once.
const MOST_ACTIVE: usize = 4096;

impl Store {
    /// The store at the start of a program: its static objects with their first elements, and no active call.
    pub fn new(alloc: Global, program: &Program) -> Result<Store, NoMemory>
        ensures { IfOk result (λ made. (input : List ℕ) (turns : ℕ)
            → over (first_state (program_of program.now) input turns) made
            ≡ first_state (program_of program.now) input turns) }
    {
        let mut objects = Arrays::new(alloc);
        for object in &program.objects {
            objects.push(&object.elements)?;
        }
        Ok(Store {
            objects,
            arrays: Arrays::new(alloc),
            locals: Vec::new(alloc),
            calls: Vec::new(alloc),
        })
    }

    /// How many calls are active.
    pub fn depth(&self) -> u32
        ensures { result ≡ length self.now.active }
    {
        self.calls.len() as u32
    }

    /// Whether as many calls are active as may be.
    pub fn is_full(&self) -> bool
        ensures { result ≡ nat_le most_active (length self.now.active) }
    {
        self.calls.len() >= MOST_ACTIVE
    }

    /// A call of a function begins (C99 6.5.2.2): its parameters have the arguments in their types, its other locals
    /// are 0 or null, and the elements of its arrays are 0. Where there is no memory for it, nothing is changed.
    pub fn enter(&mut self, function: &Function, arguments: &[Value]) -> Result<(), NoMemory>
        requires { length self.old.active < most_active }
        ensures { MatchResult result
            (λ _. (s : State) → over s self.new
            ≡ entered (function_of function.now) (map held_of arguments.now) (over s self.old))
            (λ _. self.new ≡ self.old) }
    {
        push_call(
            &mut self.calls,
            &mut self.locals,
            &mut self.arrays,
            function,
            arguments,
        )?;
        Ok(())
    }

    /// The youngest call ends, if there is one.
    pub fn leave(&mut self)
        ensures { (s : State) → over s self.new ≡ returned (over s self.old) }
    {
        let depth = self.calls.len();
        if depth > 0 {
            let call = self.calls[depth - 1];
            self.calls.truncate(depth - 1);
            self.locals.truncate(call.locals);
            self.arrays.truncate(call.arrays as usize);
        }
    }

    /// What a local of the youngest call holds.
    pub fn local(&self, local: u32) -> Value
        ensures { (s : State) → held_of result ≡ held (over s self.now) local }
    {
        let depth = self.calls.len();
        if depth == 0 {
            return Value::Number(0);
        }
        value_at(&self.locals, self.calls[depth - 1].locals, local)
    }

    /// Gives a local of the youngest call another value.
    pub fn set_local(&mut self, local: u32, value: Value)
        ensures { (s : State) → over s self.new ≡ with_local local (held_of value) (over s self.old) }
    {
        let depth = self.calls.len();
        if depth > 0 {
            let call = self.calls[depth - 1];
            set_value_at(&mut self.locals, call.locals, local, value);
        }
    }

    /// A local's declaration runs: the local is 0 or null, as its type says (ours, where C99 6.7.8 leaves it
    /// indeterminate).
    pub fn declare_local(&mut self, local: u32, of: ValueType)
        ensures { (s : State) → over s self.new ≡ with_local local (zero_of of) (over s self.old) }
    {
        self.set_local(local, Value::zero_of(of));
    }

    /// The array that the youngest call names.
    pub fn array_of(&self, array: ArrayRef) -> ArrayName
        ensures { (s : State) → name_of result ≡ array_of (over s self.now) array }
    {
        match array {
            ArrayRef::Static(object) => ArrayName::Static(object),
            ArrayRef::Frame(array) => ArrayName::InFrame {
                array,
                depth: self.depth(),
            },
        }
    }

    /// The elements of an array of the active call of a depth; one that isn't there has none.
    fn frame_elements(&self, array: u32, depth: u32) -> &[i32]
        ensures { (s : State) → result.now ≡ array_named (over s self.now) (outcome.InFrame array depth) }
    {
        match frame_array(&self.calls, array, depth) {
            Some(place) => self.arrays.elements(place),
            None => &[],
        }
    }

    /// The elements of an array; one that isn't there has none.
    pub fn elements(&self, array: ArrayName) -> &[i32]
        ensures { (s : State) → result.now ≡ array_named (over s self.now) (name_of array) }
    {
        match array {
            ArrayName::Null | ArrayName::Unknown => &[],
            ArrayName::Static(object) => self.objects.elements(object as usize),
            ArrayName::InFrame { array, depth } => self.frame_elements(array, depth),
        }
    }

    /// The element of an array at an index, if there is one (C99 6.5.6p8).
    pub fn element(&self, array: ArrayName, index: i32) -> Option<i32>
        ensures { (s : State) → result ≡ element_at (array_named (over s self.now) (name_of array)) index }
    {
        element_in(self.elements(array), index)
    }

    /// Gives an element of an array of the active call of a depth another value. `false`, with nothing changed, where
    /// there is no such element.
    fn set_frame_element(&mut self, array: u32, depth: u32, index: usize, value: i32) -> bool
        ensures { (s : State) → Written (over s self.old) (over s self.new) (outcome.InFrame array depth)
            (pos index) value result }
    {
        match frame_array(&self.calls, array, depth) {
            Some(place) => self.arrays.set(place, index, value),
            None => false,
        }
    }

    /// Gives an element of a static object another value. `false`, with nothing changed, where there is no such
    /// element.
    fn set_object_element(&mut self, object: u32, index: usize, value: i32) -> bool
        ensures { (s : State) → Written (over s self.old) (over s self.new) (outcome.Static object)
            (pos index) value result }
    {
        self.objects.set(object as usize, index, value)
    }

    /// Gives the element of an array at a place another value. `false`, with nothing changed, where there is no such
    /// element.
    fn set_element_at(&mut self, array: ArrayName, index: usize, value: i32) -> bool
        ensures { (s : State) → Written (over s self.old) (over s self.new) (name_of array) (pos index) value result }
    {
        match array {
            ArrayName::Null | ArrayName::Unknown => false,
            ArrayName::Static(object) => self.set_object_element(object, index, value),
            ArrayName::InFrame { array, depth } => {
                self.set_frame_element(array, depth, index, value)
            }
        }
    }

    /// Gives the element of an array at an index another value. `false`, with nothing changed, where there is no such
    /// element.
    pub fn set_element(&mut self, array: ArrayName, index: i32, value: i32) -> bool
        ensures { (s : State) → Written (over s self.old) (over s self.new) (name_of array) index value result }
    {
        match index_of(index) {
            Some(index) => self.set_element_at(array, index, value),
            None => false,
        }
    }

    /// The element of an array at an index as a value; none where there is no such element, at which the program traps.
    fn load_element(&self, array: ArrayName, index: i32) -> Option<Value>
        ensures { (s : State)
            → element_read (over s self.now) (element_at (array_named (over s self.now) (name_of array)) index)
            ≡ or_check (option_map held_of result) (over s self.now) }
    {
        match self.element(array, index) {
            Some(element) => Some(Value::Number(element)),
            None => None,
        }
    }

    /// The value of a place (C99 6.3.2.1); none where it is an element that isn't there, at which the program traps.
    pub fn load(&self, place: Place) -> Option<Value>
        ensures { (s : State) → load (found_of place) (over s self.now)
            ≡ or_check (option_map held_of result) (over s self.now) }
    {
        match place {
            Place::Local(local) => Some(self.local(local)),
            Place::Object(object) => self.load_element(ArrayName::Static(object), 0),
            Place::Element { array, index } => self.load_element(array, index),
        }
    }

    /// Gives the element of an array at an index another value. `false`, with nothing changed, where there is no such
    /// element, at which the program traps.
    fn store_element(&mut self, array: ArrayName, index: i32, value: Value) -> bool
        ensures { (s : State) → element_written (name_of array) index (held_of value) (over s self.old)
            (element_at (array_named (over s self.old) (name_of array)) index)
            ≡ stored result (held_of value) (over s self.new) }
    {
        self.set_element(array, index, value.number())
    }

    /// Gives the element of an array at a place another value, as what initialises the array does (C99 6.7.8p17).
    /// `false`, with nothing changed, where there is no such element, at which the program traps.
    pub fn store_at(&mut self, array: ArrayName, index: usize, value: Value) -> bool
        ensures { (s : State) → store (AtIndex (name_of array) (pos index)) (held_of value) (over s self.old)
            ≡ stored result (held_of value) (over s self.new) }
    {
        self.set_element_at(array, index, value.number())
    }

    /// Gives a place another value (C99 6.5.16). `false`, with nothing changed, where it is an element that isn't
    /// there, at which the program traps. The value is in the type of the place.
    pub fn store(&mut self, place: Place, value: Value) -> bool
        ensures { (s : State) → store (found_of place) (held_of value) (over s self.old)
            ≡ stored result (held_of value) (over s self.new) }
    {
        match place {
            Place::Local(local) => {
                self.set_local(local, value);
                true
            }
            Place::Object(object) => self.store_element(ArrayName::Static(object), 0, value),
            Place::Element { array, index } => self.store_element(array, index, value),
        }
    }

    /// An array's declaration runs: all its elements are 0 (ours, where C99 6.7.8 leaves them indeterminate).
    pub fn declare_array(&mut self, array: u32)
        ensures { (s : State) → over s self.new
            ≡ with_array (own_array (over s self.old) array)
            (zeroed (array_named (over s self.old) (own_array (over s self.old) array))) (over s self.old) }
    {
        let depth = self.calls.len() as u32;
        if let Some(place) = frame_array(&self.calls, array, depth) {
            self.arrays.clear(place);
        }
    }

    /// A text initialises an array of the youngest call (C99 6.7.8p14): its elements, as far as the array goes, and
    /// zeros.
    pub fn set_text(&mut self, array: u32, object: u32)
        ensures { (s : State) → over s self.new
            ≡ with_array (own_array (over s self.old) array)
            (text_then_zeros (array_named (over s self.old) (own_array (over s self.old) array))
            (array_named (over s self.old) (outcome.Static object))) (over s self.old) }
    {
        let depth = self.calls.len() as u32;
        if let Some(place) = frame_array(&self.calls, array, depth) {
            self.arrays
                .write(place, self.objects.elements(object as usize));
        }
    }
}
