//! Laws of the definitions of boards and legal maps: each function's contract is one, and the function does nothing.

ghost use Rattle.std.specs.Prelude.{◌≡◌, ◌∷◌, []};
ghost use Rattle.allocator.specs.PointBoards.{areas_of, callee_saved, count_taken, ends_taken, point_pieces};
ghost use Rattle.allocator.specs.PointMaps.{IsLegalMap, IsLegalPoint};
ghost use Rattle.allocator.specs.WorkedBoards.{addition, addition_lives, call_lives, division, division_lives};
ghost use Rattle.allocator.specs.WorkedBoards.{five_in_eax, five_returned};
ghost use Rattle.allocator.specs.WorkedBoards.{in_registers, in_slot, moved_over_op, one_call, one_op};
ghost use Rattle.allocator.specs.WorkedBoards.{result_on_top, shift, shift_lives, wide_piece};
ghost use Rattle.puzzle_board.specs.declared.piece.Kind.TheVariants.{X, Y, Z};

/// The boards of a division, a shift and a call (`specs/WorkedBoards.antt`): a division has all of EAX and EDX, and its
/// fixed pieces stand on no board; the count of a shift is in CL; over a call only EBX is kept.
pub fn worked_boards()
    ensures division_areas { areas_of division ≡ ends_taken }
    ensures division_pieces { point_pieces (one_op division) division_lives 0 division
        ≡ wide_piece X 1 ∷ wide_piece Y 3 ∷ [] }
    ensures shift_areas { areas_of shift ≡ count_taken }
    ensures shift_pieces { point_pieces (one_op shift) shift_lives 0 shift ≡ wide_piece X 0 ∷ wide_piece Z 2 ∷ [] }
    ensures call_areas { areas_of one_call ≡ callee_saved }
    ensures call_pieces { point_pieces (one_op one_call) call_lives 0 one_call
        ≡ wide_piece X 0 ∷ wide_piece Y 3 ∷ [] }
{}

/// At an addition whose first operand stays live a map is legal that has it in one register before and after, or in its
/// slot, and not one that puts the result on top of it, or has it elsewhere after the op. A whole map of a small graph
/// is legal, and not with four bytes more of frame.
pub fn worked_maps()
    ensures registers { IsLegalPoint (one_op addition) addition_lives in_registers 0 addition }
    ensures slot { IsLegalPoint (one_op addition) addition_lives in_slot 0 addition }
    ensures on_top { IsLegalPoint (one_op addition) addition_lives result_on_top 0 addition → ⊥ }
    ensures moved { IsLegalPoint (one_op addition) addition_lives moved_over_op 0 addition → ⊥ }
    ensures whole { IsLegalMap five_returned (five_in_eax 16) }
    ensures frame { IsLegalMap five_returned (five_in_eax 20) → ⊥ }
{}
