//! Laws of the definitions: each function's contract is one, and the function does nothing.

ghost use Rattle.std.specs.Prelude.{◌≡◌, ◌<◌, ℕ, codes, length};
ghost use Rattle.pcc_gen.specs.Generated.{draw, generated, next, statement, third};

/// The definitions give for the program of 1 what they should: the first four draws, of numbers below 32,768, the
/// constant of the first function, and its first drawn line.
#[tactic(auto, unfolding(crate::specs::Generated::next, crate::specs::Generated::draw))]
pub fn worked_program()
    ensures first_draw { draw 32768 1 ≡ 16838 }
    ensures second_draw { draw 32768 (next 1) ≡ 5758 }
    ensures third_draw { draw 32768 (next (next 1)) ≡ 10113 }
    ensures fourth_draw { draw 32768 (third 1) ≡ 17515 }
    ensures constant { draw 1000 1 ≡ 838 }
    ensures line { statement (next 1) ≡ codes "  d = a / 7;\n" }
{}

/// The text of each generated program has fewer than 100,000 bytes.
#[tactic(auto, using(crate::proofs::Short::short))]
pub fn texts_are_short()
    ensures { (number : ℕ) → length (generated number) < 100000 }
{}
