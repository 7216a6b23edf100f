//! Laws of the texts: the function does nothing.

ghost use Rattle.std.specs.Prelude.{◌≡◌, List};
ghost use Rattle.puzzle_board.specs.declared.area.Area.{Area};
ghost use Rattle.puzzle_board.specs.declared.piece.Piece.{Piece};
ghost use Rattle.puzzle_solver.specs.Texts.{IsNumbered, board_text};

/// A text is that of one board at most, where piece i has variable i.
pub fn one_board()
    ensures { (areas others : List Area) (pieces more : List Piece) → IsNumbered 0 pieces → IsNumbered 0 more
        → board_text areas pieces ≡ board_text others more → (areas ≡ others) × (pieces ≡ more) }
{}
