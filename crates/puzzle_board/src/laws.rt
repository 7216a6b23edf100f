//! Laws of placements: each function's contract is one, and the function does nothing.

ghost use Rattle.std.specs.Prelude.{ℕ, ◌≡◌, ◌∷◌, [], IsTrue};
ghost use Rattle.pcc_base.specs.declared.run.Width.TheVariants.{One, Two};
ghost use Rattle.puzzle_board.specs.declared.piece.Columns.TheVariants.{Low, High, All};
ghost use Rattle.puzzle_board.specs.declared.piece.Kind.TheVariants.{X, Y, Z};
ghost use Rattle.puzzle_board.specs.Placements.{IsLegal, IsLegalPlacement, fits};
ghost use Rattle.puzzle_board.specs.Worked.{at, bb, bu, eight_pieces, eight_placed, four_empty, one_empty, piece};
ghost use Rattle.puzzle_board.specs.Worked.{three_pieces, three_placed};

/// The definitions say of small puzzles (`specs/Worked.antt`) what a reader expects: a wide Y fits in the empty area
/// alone; two narrow ones share it, but no cell of it; a wide X and a wide Z share an area.
pub fn worked_example()
    ensures wide { IsLegalPlacement one_empty (piece Y Two ∷ []) (at Y Two 1 All ∷ []) }
    ensures wide_alone { (area : ℕ) → IsTrue (fits one_empty (at Y Two area All)) → area ≡ 1 }
    ensures narrow { IsLegalPlacement one_empty
        (piece Y One ∷ piece Y One ∷ [])
        (at Y One 1 Low ∷ at Y One 1 High ∷ []) }
    ensures apart { ¬ IsLegal one_empty (at Y One 1 High ∷ at Y One 1 High ∷ []) }
    ensures shared { IsLegalPlacement (bb ∷ bu ∷ []) three_pieces three_placed }
    ensures full { IsLegalPlacement four_empty eight_pieces eight_placed }
{}
