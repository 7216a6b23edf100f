//! Laws of the states of a program of graphs: each function's contract is one, and the function does nothing.

ghost use Rattle.std.specs.Prelude.{◌≡◌, pos, [], ◌∷◌, None, Some};
ghost use Rattle.std.specs.List.{AllByRecursion};
ghost use Rattle.flow_graph.specs.Meaning.{Moves, step};
ghost use Rattle.flow_graph.specs.WellFormed.{FirstIsState, FunctionsBegin, HeldArraysAreThere, HeldFramesAreActive};
ghost use Rattle.flow_graph.specs.WellFormed.{IsGraphProgram};
ghost use Rattle.flow_graph.specs.WellFormed.{IsState, StatesAreStates, StepKeepsState};
ghost use Rattle.pcc_base.specs.Outcome.{InFrame};
ghost use Rattle.flow_graph.specs.States.{elements_of, with_array};
ghost use Rattle.flow_graph.specs.WorkedStates.{element_program, element_state, frame_program, frame_state};

/// The first state over a list of bytes keeps what every state keeps.
pub fn first_is_state()
    ensures { FirstIsState }
{}

/// A step keeps what every state keeps.
pub fn step_keeps_state()
    ensures { StepKeepsState }
{}

/// Every state that comes over a list of bytes keeps it.
pub fn states_are_states()
    ensures { StatesAreStates }
{}

/// Every function of a program has a first point.
pub fn functions_begin()
    ensures { FunctionsBegin }
{}

/// An array that a variable holds is there, and its elements fit their width.
pub fn held_arrays()
    ensures { HeldArraysAreThere }
{}

/// A frame array that a variable holds is that of an active call: its depth isn't above theirs.
pub fn held_frames()
    ensures { HeldFramesAreActive }
{}

/// On a small program (`specs/Worked.antt`) a state is one where object 0 has the one element that it declares. The
/// steps of two others go where no code can follow, and they are no states: where the element doesn't fit 8 bits,
/// and where a second element is read that isn't declared.
pub fn worked_states()
    ensures program { IsGraphProgram element_program }
    ensures kept { IsState element_program (element_state 0 (pos 0) (pos 0) (pos 7 ∷ [])) }
    ensures great_step { step element_program (element_state 0 (pos 0) (pos 0) (pos 300 ∷ []))
        ≡ Moves (element_state 1 (pos 0) (pos 300) (pos 300 ∷ [])) }
    ensures great { IsState element_program (element_state 0 (pos 0) (pos 0) (pos 300 ∷ [])) → ⊥ }
    ensures long_step { step element_program (element_state 0 (pos 1) (pos 0) (pos 7 ∷ pos 8 ∷ []))
        ≡ Moves (element_state 1 (pos 1) (pos 8) (pos 7 ∷ pos 8 ∷ [])) }
    ensures long { IsState element_program (element_state 0 (pos 1) (pos 0) (pos 7 ∷ pos 8 ∷ [])) → ⊥ }
{}

/// Where one call waits for another, the depths 1 and 2 name them, and no call has depth 0 or 3: an array of such a
/// depth has no elements, and giving it some changes nothing.
pub fn worked_depths()
    ensures older { elements_of frame_program frame_state (InFrame 0 1) ≡ Some (4, pos 5 ∷ []) }
    ensures younger { elements_of frame_program frame_state (InFrame 0 2) ≡ Some (4, pos 6 ∷ []) }
    ensures none { elements_of frame_program frame_state (InFrame 0 0) ≡ None }
    ensures above { elements_of frame_program frame_state (InFrame 0 3) ≡ None }
    ensures kept { with_array (InFrame 0 3) (pos 9 ∷ []) frame_state ≡ frame_state }
{}
