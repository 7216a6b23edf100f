//! Laws of the definitions: each function's contract is one, and the function does nothing.

ghost use Rattle.std.specs.Prelude.{◌≡◌, ℕ, List, Ok};
ghost use Rattle.ia32_insn.specs.declared.insn.Insn.{Insn};
ghost use Rattle.ia32_insn.specs.State.{State};
ghost use Rattle.ia32_insn.specs.Meaning.{Moves, store_bytes, perform};
ghost use Rattle.ia32_machine.specs.Code.{KeepsCode};

/// A store keeps the code that may not be written.
pub fn store_keeps_code()
    ensures { (address : ℕ) (bytes : List ℕ) (s t : State) → store_bytes address bytes s ≡ Ok t
        → KeepsCode s.memory t.memory }
{}

/// Every instruction keeps the code that may not be written.
pub fn instruction_keeps_code()
    ensures { (i : Insn) (after : ℕ) (s t : State) → perform i after s ≡ Moves t → KeepsCode s.memory t.memory }
{}
