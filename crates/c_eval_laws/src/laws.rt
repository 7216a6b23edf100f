//! Laws of the evaluation of source programs: each function's contract is one, and the function does nothing.

ghost use Rattle.std.specs.Prelude.{◌≡◌, []};
ghost use Rattle.pcc_base.specs.Outcome.{Ended, Goes, nothing_listed};
ghost use Rattle.c_tree.specs.Evaluation.{source_outcome};
ghost use Rattle.c_tree.specs.Store.{Ends};
ghost use Rattle.c_eval_laws.specs.Laws.{CallBoundsAgree, CallsUnfold, EndsStay, LoopsUnfold};
ghost use Rattle.c_eval_laws.specs.Laws.{ProgramsExtend, ProgramsKeep};
ghost use Rattle.c_eval_laws.specs.Laws.{GoesWithoutTurns, LoopBoundsAgree, LoopsKeep, OutcomesGoOn};
ghost use Rattle.c_eval_laws.specs.Laws.{TakenIsThere, TreesAgreeAsCalls, TreesExtendAsCalls, TreesKeepAsCalls};
ghost use Rattle.c_eval_laws.specs.Worked.{after_turns, calls_f, main_within};

/// What ends and still goes, with the bound of calls above the turns, has no turn left.
pub fn goes_without_turns()
    ensures { GoesWithoutTurns }
{}

/// Two bounds of calls above the turns give the same result.
pub fn call_bounds_agree()
    ensures { CallBoundsAgree }
{}

/// Two bounds of a loop above the turns give the same result.
pub fn loop_bounds_agree()
    ensures { LoopBoundsAgree }
{}

/// With a bound above the turns a call runs its function, whose calls and loops have the same bound.
pub fn calls_unfold()
    ensures { CallsUnfold }
{}

/// With a bound above the turns a loop takes a turn, runs once, and is then the loop with the same bound.
pub fn loops_unfold()
    ensures { LoopsUnfold }
{}

/// A program that has ended after some turns has the same outcome after more.
pub fn ends_stay()
    ensures { EndsStay }
{}

/// What a program has visited, written and taken after some turns stays so after more.
pub fn outcomes_go_on()
    ensures { OutcomesGoOn }
{}

/// A program takes no more bytes than the input has.
pub fn taken_is_there()
    ensures { TakenIsThere }
{}

/// Calls keep what evaluations keep.
pub fn calls_keep()
    ensures { ProgramsKeep }
{}

/// Trees whose calls keep what evaluations keep do so.
pub fn trees_keep()
    ensures { TreesKeepAsCalls }
{}

/// Loops whose parts keep what evaluations keep do so.
pub fn loops_keep()
    ensures { LoopsKeep }
{}

/// Calls with more turns come to what they do with fewer.
pub fn calls_extend()
    ensures { ProgramsExtend }
{}

/// Trees with more turns come to what they do with fewer, where calls do.
pub fn trees_extend()
    ensures { TreesExtendAsCalls }
{}

/// Trees come to the same with calls that are the same from states with fewer turns than a bound.
pub fn trees_agree()
    ensures { TreesAgreeAsCalls }
{}

/// `int f(void){return 7;} int main(void){return f();}` takes two turns (`specs/Worked.antt`). With one it goes with no
/// turn left, over any bound above one. Over a bound of one, which isn't above three turns, it would go with two left.
pub fn worked_example()
    ensures ended { main_within 4 3 ≡ main_within 9 3 }
    ensures status { (source_outcome calls_f nothing_listed [] 3).end ≡ Ended 7 }
    ensures goes { main_within 2 1 ≡ Ends Goes (after_turns 0) }
    ensures low { main_within 1 3 ≡ Ends Goes (after_turns 2) }
{}
