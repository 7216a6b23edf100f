ghost use Rattle.std.specs.Prelude.{◌≡◌, ℕ, List};
ghost use Rattle.pcc_base.specs.Outcome.{Outcome, Visit};
ghost use Rattle.ia32_insn.specs.declared.insn.Insn.{Insn};
ghost use Rattle.ia32_insn.specs.State.{State};
ghost use Rattle.ia32_insn.specs.Spelling.{Begins};
ghost use Rattle.ia32_insn.specs.Meaning.{Moved};
ghost use Rattle.ia32_insn.specs.Runs.{Steps, Runs};

/// Bytes begin with the spelling of one instruction at most, and no spelling is a proper prefix of
/// another.
pub fn one_spelling()
    ensures { (i j : Insn) (m n : ℕ) (bytes : List ℕ) → Begins i m bytes → Begins j n bytes → (i ≡ j) × (m ≡ n) }
{}

/// From a state one step leads to one place.
pub fn one_step()
    ensures { (s : State) (a b : Moved) → Steps s a → Steps s b → a ≡ b }
{}

/// A number of steps from a state has one outcome.
pub fn one_outcome()
    ensures { (visits : State → List Visit) (m : ℕ) (s : State) (a b : Outcome) → Runs visits m s a → Runs visits m s b
        → a ≡ b }
{}
