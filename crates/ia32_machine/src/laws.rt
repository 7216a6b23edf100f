//! Laws of the definitions: each function's contract is one, and the function does nothing.

ghost use Rattle.std.specs.Prelude.{◌≡◌, ℕ, List};
ghost use Rattle.ia32_insn.specs.State.{State};
ghost use Rattle.ia32_machine.specs.First.{First};

/// The bytes of an image have one first state with an input.
pub fn one_first()
    ensures { (bytes input : List ℕ) (s t : State) → First bytes input s → First bytes input t → s ≡ t }
{}
