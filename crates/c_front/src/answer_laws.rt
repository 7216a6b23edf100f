//! Laws of the definitions: each clause is one, and the function does nothing.

ghost use Rattle.std.specs.Prelude.{◌≡◌, ℕ, List};
ghost use Rattle.pcc_base.specs.declared.fault.Fault.{Fault};
ghost use Rattle.c_tree.specs.Program.{Program};
ghost use Rattle.c_front.specs.Answers.{Exceed, Excess, HaveFault, HaveTypedProgram};

/// Texts have one typed program at most, and one fault at most, of one kind at one place. They are above one limit at
/// most, with one name of a function where a frame is too large. No two of a typed program, a fault and such a limit are
/// there.
pub fn one_answer()
    ensures program { (texts : List (List ℕ)) (p q : Program) → HaveTypedProgram texts p → HaveTypedProgram texts q
        → p ≡ q }
    ensures fault { (texts : List (List ℕ)) (e f : Fault) → HaveFault texts e → HaveFault texts f → e ≡ f }
    ensures limit { (texts : List (List ℕ)) (a b : Excess) → Exceed texts a → Exceed texts b → a ≡ b }
    ensures no_fault { (texts : List (List ℕ)) (p : Program) (fault : Fault) → HaveTypedProgram texts p
        → HaveFault texts fault → ⊥ }
    ensures within { (texts : List (List ℕ)) (p : Program) (excess : Excess) → HaveTypedProgram texts p
        → Exceed texts excess → ⊥ }
    ensures fault_or_limit { (texts : List (List ℕ)) (fault : Fault) (excess : Excess) → HaveFault texts fault
        → Exceed texts excess → ⊥ }
{}
