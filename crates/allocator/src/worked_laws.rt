//! A law of boards: the function's contract is one, and the function does nothing.

ghost use Rattle.std.specs.Prelude.{◌≡◌, ◌∷◌, [], Some};
ghost use Rattle.allocator.specs.PointBoards.{ends_taken};
ghost use Rattle.allocator.specs.WorkedBoards.{division, division_lives, one_op, wide_piece};
ghost use Rattle.puzzle_board.specs.declared.piece.Kind.TheVariants.{X, Y};
ghost use Rattle.allocator.specs.PointPuzzles.{puzzle_at, puzzle_of};

/// The board of `div 2 0 1`, with 3 live before and after and 1 dead after: EBX and ECX are free, and the pieces are
/// an X of 1 and a Y of 3.
pub fn worked_example()
    ensures { puzzle_at (one_op division) division_lives 0
        ≡ Some (puzzle_of ends_taken (wide_piece X 1 ∷ wide_piece Y 3 ∷ [])) }
{}
