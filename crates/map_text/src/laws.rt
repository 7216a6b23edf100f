//! Laws of the definitions: each function's contract is one, and the function does nothing.

ghost use Rattle.std.specs.Prelude.{◌≡◌, ◌∷◌, []};
ghost use Rattle.pcc_base.specs.Outcome.{InFrame, Static, Null, Unknown, Scalar, ArrayOf, IndexOf};
ghost use Rattle.map_text.specs.Marks.{visits_of, listed};
ghost use Rattle.map_text.specs.Worked.{worked_map, worked_state, worked_visit};

/// The definitions read a small state as a person would: a static object, an array of the frame at EIP,
/// one of the caller's frame, none, and a word that is no array's address. Slots and registers are read as
/// signed numbers, and a temporary isn't shown.
pub fn worked_example()
    ensures caller { visits_of worked_map (worked_state 2356) ≡ worked_visit (InFrame 0 1) }
    ensures own { visits_of worked_map (worked_state 2140) ≡ worked_visit (InFrame 0 2) }
    ensures object { visits_of worked_map (worked_state 2008) ≡ worked_visit (Static 0) }
    ensures none { visits_of worked_map (worked_state 0) ≡ worked_visit Null }
    ensures unknown { visits_of worked_map (worked_state 2141) ≡ worked_visit Unknown }
    ensures parts { listed worked_map 7 ≡ Scalar 0 ∷ ArrayOf 1 ∷ IndexOf 1 ∷ Scalar 2 ∷ [] }
    ensures other { listed worked_map 3 ≡ [] }
{}
