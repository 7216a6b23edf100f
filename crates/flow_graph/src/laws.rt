//! Laws of the meaning of graphs: each function's contract is one, and the function does nothing.

ghost use Rattle.std.specs.Prelude.{ℕ, ◌≡◌, [], negsuc, pos, true};
ghost use Rattle.pcc_base.specs.Outcome.{Array, Scalar, Unknown};
ghost use Rattle.flow_graph.specs.Graphs.{NextInBlock, OneBlock};
ghost use Rattle.flow_graph.specs.Liveness.{IsDistance, IsLiveBefore, LiveStep, LiveWithin};
ghost use Rattle.flow_graph.specs.Meaning.{Stuck, no_unsigned_quotient, ordered, shifted_unsigned, step};
ghost use Rattle.flow_graph.specs.Meaning.{unsigned_quotient, unsigned_remainder, zero_extended};
ghost use Rattle.flow_graph.specs.declared.op.Order.TheVariants.{Gt};
ghost use Rattle.flow_graph.specs.Running.{GraphOutcome, NeverStuckWithOutcomes, OneOutcome, OneState, part_value};
ghost use Rattle.flow_graph.specs.Worked.{low_byte_program, nothing_yet, variable_listed, written_and_ended};
ghost use Rattle.flow_graph.specs.Worked.{before_reading, empty_object_program, five_points, holding_array};
ghost use Rattle.flow_graph.specs.Worked.{one_removed};

/// A program of graphs has one outcome over an input in so many turns.
pub fn one_outcome()
    ensures { OneOutcome }
{}

/// A program of graphs has one state after so many steps.
pub fn one_state()
    ensures { OneState }
{}

/// A program of graphs that has an outcome over each input in each number of turns is never stuck.
pub fn never_stuck()
    ensures { NeverStuckWithOutcomes }
{}

/// A point of a graph stands in one block, which is the one that has it; the next point is the one behind it there.
pub fn one_block()
    ensures block { OneBlock }
    ensures next { NextInBlock }
{}

/// What is live before a point is used there, or is not defined there and live after it.
pub fn live_step()
    ensures { LiveStep }
{}

/// Sets that contain the uses, and what each successor's set has and the point doesn't define, contain all that is
/// live.
pub fn live_within()
    ensures { LiveWithin }
{}

/// The definitions say of small graphs (`specs/Worked.antt`) what a reader expects: their outcome before a turn and
/// after it; nothing is live at a point that was removed; a static object without elements can't be read; a scalar
/// whose variable holds an array has no number to show; and from the point that defines a variable the next use of it
/// is one step away.
pub fn worked_example()
    ensures before { GraphOutcome low_byte_program variable_listed [] 0 nothing_yet }
    ensures after { GraphOutcome low_byte_program variable_listed [] 1 written_and_ended }
    ensures removed { (v : ℕ) → IsLiveBefore one_removed v 0 → ⊥ }
    ensures no_scalar { step empty_object_program before_reading ≡ Stuck }
    ensures unknown { part_value holding_array (Scalar 0) ≡ Array Unknown }
    ensures distance { IsDistance five_points 0 2 1 }
{}

/// Numbers without sign, as C99 6.2.5 and 6.3.1.3 have them: -7 divided by 2 is 4294967289 divided by 2, the remainder of 4294967295
/// by 10 is 5, no quotient but that by 0 traps, a shift to the right fills with zero bits, -1 is greater than 0, and
/// the byte of -56 is 200.
pub fn worked_unsigned()
    ensures quotient { unsigned_quotient (negsuc 6) (pos 2) ≡ pos 2147483644 }
    ensures remainder { unsigned_remainder (negsuc 0) (pos 10) ≡ pos 5 }
    ensures least { unsigned_quotient (negsuc 0x7fffffff) (negsuc 0) ≡ pos 0 }
    ensures zero { no_unsigned_quotient (negsuc 0x7fffffff) (pos 0) ≡ true }
    ensures shift { shifted_unsigned (negsuc 0x7fffffff) 31 ≡ pos 1 }
    ensures whole { shifted_unsigned (negsuc 4) 0 ≡ negsuc 4 }
    ensures greater { ordered Gt (negsuc 0) (pos 0) ≡ true }
    ensures byte { zero_extended (negsuc 55) ≡ pos 200 }
{}
