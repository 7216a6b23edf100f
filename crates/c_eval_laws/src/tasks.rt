//! Laws of the machine of tasks: each function's contract is one, and the function does nothing.

ghost use Rattle.std.specs.Prelude.{◌≡◌, [], ◌∷◌, Some, None};
ghost use Rattle.pcc_base.specs.Outcome.{Ended, Goes, nothing_listed};
ghost use Rattle.c_tree.specs.Evaluation.{source_outcome};
ghost use Rattle.c_eval_laws.specs.TasksWorked.{ended, stepped, writes_letters};
ghost use Rattle.c_eval_laws.specs.TasksLaws.{ArgumentsAreLast, CallsStep, ExpressionsStep, IsEnd, IsServed};
ghost use Rattle.c_eval_laws.specs.TasksLaws.{ItemsStep, ManyStepsKeep, PlacesStep, RestGoesOn, StacksStayFit};
ghost use Rattle.c_eval_laws.specs.TasksLaws.{StartFits, StatementsStep, Starts, StepsEnd, StepsGoOn, StepsKeep};
ghost use Rattle.c_eval_laws.specs.TasksLaws.{TasksStep, WeightsFall};

/// What comes of the call of `main` is the program's outcome, and where no task is left the last value is its status.
pub fn start_and_end()
    ensures start { Starts }
    ensures end { IsEnd }
{}

/// An expression is taken apart, or its value is known.
pub fn expressions_step()
    ensures { ExpressionsStep }
{}

/// A place is found, or its pointer is to be evaluated.
pub fn places_step()
    ensures { PlacesStep }
{}

/// A declared item is zero, and then its initialiser is evaluated.
pub fn items_step()
    ensures { ItemsStep }
{}

/// A statement is taken apart.
pub fn statements_step()
    ensures { StatementsStep }
{}

/// The next argument of a call is evaluated, or the function is called.
pub fn calls_step()
    ensures { CallsStep }
{}

/// A task is done.
pub fn tasks_step()
    ensures { TasksStep }
{}

/// No step changes the outcome of what is left.
pub fn steps_keep()
    ensures { StepsKeep }
{}

/// Several steps don't change the outcome of what is left.
pub fn many_steps_keep()
    ensures { ManyStepsKeep }
{}

/// What is known of a step that goes on, and of one that ends the program.
pub fn steps_come_to()
    ensures on { StepsGoOn }
    ensures end { StepsEnd }
{}

/// What was visited, written and taken stays in front of what comes of the rest.
pub fn rest_goes_on()
    ensures { RestGoesOn }
{}

/// Each step takes a turn, or lowers the weight of what is left.
pub fn weights_fall()
    ensures { WeightsFall }
{}

/// The first tasks fit empty stacks.
pub fn start_fits()
    ensures { StartFits }
{}

/// After each step the stacks hold what the tasks take.
pub fn stacks_stay_fit()
    ensures { StacksStayFit }
{}

/// A task that fits finds what it takes.
pub fn is_served()
    ensures { IsServed }
{}

/// Where a vector holds the values, the arguments of a call are the last ones, in order.
pub fn arguments_are_last()
    ensures { ArgumentsAreLast }
{}

/// A program with a call, loops, an array and `continue` (`specs/TasksWorked.antt`) takes ten turns, writes `AC` and
/// ends with the status 1. The machine comes to this outcome in 235 steps, and to no end in 234. With nine turns it
/// comes to the outcome of a program that still goes.
pub fn worked_tasks()
    ensures status { (source_outcome writes_letters nothing_listed [] 10).end ≡ Ended 1 }
    ensures written { (source_outcome writes_letters nothing_listed [] 10).written ≡ 65 ∷ 67 ∷ [] }
    ensures steps { ended (stepped writes_letters 10 235) ≡ Some (source_outcome writes_letters nothing_listed [] 10) }
    ensures before { ended (stepped writes_letters 10 234) ≡ None }
    ensures goes { (source_outcome writes_letters nothing_listed [] 9).end ≡ Goes }
    ensures turns { ended (stepped writes_letters 9 235) ≡ Some (source_outcome writes_letters nothing_listed [] 9) }
{}
