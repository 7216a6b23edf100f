//! What is left to do of a program, with the values and places that wait for it.

ghost use Rattle.std.specs.Prelude.{◌≡◌, ◌≤◌, IfOk, [], length, map};
ghost use Rattle.c_eval_state.specs.Left.{left_of};
ghost use Rattle.c_eval_state.specs.Views.{task_of, way_of};
ghost use Rattle.c_eval_state.specs.Changes.{doing, doing_both, doing_three, doing_four, holding, at_place};
ghost use Rattle.c_eval_state.specs.Changes.{passing_over, returning_to, without_value, without_values, without_place};
ghost use Rattle.c_eval_state.specs.Changes.{TaskTaken};
ghost use Rattle.c_eval_state.specs.Values.{found_of, held_of};
ghost use Rattle.c_eval_laws.specs.Tasks.{put_before, top, top_place};
ghost use Rattle.c_eval_laws.specs.Steps.{go_on};
ghost use Rattle.c_tree.specs.Erased.{function_of};
ghost use Rattle.c_tree.specs.Evaluation.{type_at};

use crate::task::{Task, Way};
use crate::value::{Place, Value};
use c_eval_laws::arguments_are_last;
use c_tree::{Function, ValueType};
use pcc_base::NoMemory;
use std::alloc::Global;

/// What is left to do: the function whose body it is in, how the tasks are gone through, the tasks, and the values and
/// places that were found: by `left_of` a configuration of `specs/Steps.antt` of `c_eval_laws`.
#[derive(Drop)]
pub struct Evaluation<'a> {
    function: &'a Function,
    way: Way,
    tasks: Vec<Task<'a>>,
    values: Vec<Value>,
    places: Vec<Place>,
}

impl<'a> Evaluation<'a> {
    /// Nothing is left to do yet, in the body of a function.
    #[tactic(auto, unfolding(crate::specs::Left::left_of))]
    pub fn new(alloc: Global, function: &'a Function) -> Evaluation<'a>
        ensures { left_of result ≡ go_on (function_of function.now) [] [] [] }
    {
        Evaluation {
            function,
            way: Way::Ahead,
            tasks: Vec::new(alloc),
            values: Vec::new(alloc),
            places: Vec::new(alloc),
        }
    }

    /// The function that called goes on.
    #[tactic(auto, unfolding(crate::specs::Left::left_of))]
    pub fn return_to(&mut self, caller: &'a Function)
        ensures { left_of self.new ≡ returning_to (function_of caller.now) (left_of self.old) }
    {
        self.function = caller;
        self.way = Way::Ahead;
    }

    /// How the tasks are gone through.
    #[tactic(auto, unfolding(crate::specs::Left::left_of))]
    pub fn way(&self) -> Way
        ensures { way_of result ≡ (left_of self.now).way }
    {
        self.way
    }

    /// The type that the function returns.
    #[tactic(auto, unfolding(crate::specs::Left::left_of))]
    pub fn result(&self) -> ValueType
        ensures { result ≡ (left_of self.now).function.result }
    {
        self.function.result
    }

    /// The type of a local of the function.
    #[tactic(auto, unfolding(crate::specs::Left::left_of), using(crate::proofs::Stacking::type_there))]
    pub fn type_of_local(&self, local: u32) -> ValueType
        ensures { result ≡ type_at (left_of self.now).function local }
    {
        match self.function.locals.get(local as usize) {
            Some(local) => local.of,
            None => ValueType::Void,
        }
    }

    /// Tasks are passed over from here on, or done.
    #[tactic(auto, unfolding(crate::specs::Left::left_of))]
    pub fn pass_over(&mut self, way: Way)
        ensures { left_of self.new ≡ passing_over (way_of way) (left_of self.old) }
    {
        self.way = way;
    }

    /// A task is to be done before all others.
    #[tactic(auto, unfolding(crate::specs::Left::left_of), using(crate::proofs::Stacking::pushed))]
    pub fn next(&mut self, task: Task<'a>) -> Result<(), NoMemory>
        ensures { IfOk result (λ _. left_of self.new ≡ doing (task_of task.entry) (left_of self.old)) }
    {
        self.tasks.push(task)?;
        Ok(())
    }

    /// Two tasks are to be done before all others, in order.
    pub fn next_both(&mut self, first: Task<'a>, second: Task<'a>) -> Result<(), NoMemory>
        ensures { IfOk result (λ _. left_of self.new
            ≡ doing_both (task_of first.entry) (task_of second.entry) (left_of self.old)) }
    {
        self.next(second)?;
        self.next(first)
    }

    /// Three tasks are to be done before all others, in order.
    pub fn next_three(
        &mut self,
        first: Task<'a>,
        second: Task<'a>,
        third: Task<'a>,
    ) -> Result<(), NoMemory>
        ensures { IfOk result (λ _. left_of self.new
            ≡ doing_three (task_of first.entry) (task_of second.entry) (task_of third.entry) (left_of self.old)) }
    {
        self.next(third)?;
        self.next_both(first, second)
    }

    /// Four tasks are to be done before all others, in order.
    pub fn next_four(
        &mut self,
        first: Task<'a>,
        second: Task<'a>,
        third: Task<'a>,
        fourth: Task<'a>,
    ) -> Result<(), NoMemory>
        ensures { IfOk result (λ _. left_of self.new
            ≡ doing_four (task_of first.entry) (task_of second.entry) (task_of third.entry) (task_of fourth.entry)
            (left_of self.old)) }
    {
        self.next_both(third, fourth)?;
        self.next_both(first, second)
    }

    /// A value comes.
    #[tactic(auto, unfolding(crate::specs::Left::left_of), using(crate::proofs::Stacking::pushed))]
    pub fn hold(&mut self, value: Value) -> Result<(), NoMemory>
        ensures { IfOk result (λ _. left_of self.new ≡ holding (held_of value) (left_of self.old)) }
    {
        self.values.push(value)?;
        Ok(())
    }

    /// Takes the task that is to be done before all others, if there is one.
    #[tactic(auto, unfolding(crate::specs::Left::left_of), using(crate::proofs::Stacking::pushed))]
    pub fn take_task(&mut self) -> Option<Task<'a>>
        ensures { TaskTaken (left_of self.old) (left_of self.new) result }
    {
        self.tasks.pop()
    }

    /// The last so many values, in the order in which they came.
    #[tactic(auto, unfolding(crate::specs::Left::left_of))]
    pub fn last_values(&self, count: usize) -> &[Value]
        requires { count ≤ length (left_of self.now).values }
        ensures { map held_of result.now ≡ put_before count (left_of self.now).values [] }
    {
        arguments_are_last();
        let start = self.values.len() - count;
        &self.values.as_slice()[start..]
    }

    /// The last so many values go.
    #[tactic(auto, unfolding(crate::specs::Left::left_of))]
    pub fn drop_values(&mut self, count: usize)
        requires { count ≤ length (left_of self.old).values }
        ensures { left_of self.new ≡ without_values count (left_of self.old) }
    {
        arguments_are_last();
        let start = self.values.len() - count;
        self.values.truncate(start);
    }

    /// The function whose body it is in.
    #[tactic(auto, unfolding(crate::specs::Left::left_of))]
    pub fn function(&self) -> &'a Function
        ensures { function_of result.now ≡ (left_of self.now).function }
    {
        self.function
    }

    /// A place is found.
    #[tactic(auto, unfolding(crate::specs::Left::left_of), using(crate::proofs::Stacking::pushed))]
    pub fn find(&mut self, place: Place) -> Result<(), NoMemory>
        ensures { IfOk result (λ _. left_of self.new ≡ at_place (found_of place) (left_of self.old)) }
    {
        self.places.push(place)?;
        Ok(())
    }

    /// The last place, which stays; the local 0 where there is none.
    #[tactic(auto, unfolding(crate::specs::Left::left_of), using(crate::proofs::Stacking::pushed))]
    pub fn last_place(&self) -> Place
        ensures { found_of result ≡ top_place (left_of self.now).places }
    {
        match self.places.last() {
            Some(place) => *place,
            None => Place::Local(0),
        }
    }

    /// Takes the last value; 0 where there is none.
    #[tactic(auto, unfolding(crate::specs::Left::left_of), using(crate::proofs::Stacking::pushed))]
    pub fn take_value(&mut self) -> Value
        ensures value { held_of result ≡ top (left_of self.old).values }
        ensures rest { left_of self.new ≡ without_value (left_of self.old) }
    {
        match self.values.pop() {
            Some(value) => value,
            None => Value::Number(0),
        }
    }

    /// Takes the last place; the local 0 where there is none.
    #[tactic(auto, unfolding(crate::specs::Left::left_of), using(crate::proofs::Stacking::pushed))]
    pub fn take_place(&mut self) -> Place
        ensures value { found_of result ≡ top_place (left_of self.old).places }
        ensures rest { left_of self.new ≡ without_place (left_of self.old) }
    {
        match self.places.pop() {
            Some(place) => place,
            None => Place::Local(0),
        }
    }
}
