//! Laws of memory and of single instructions: each function's contract is one, and the function does nothing.

ghost use Rattle.std.specs.Prelude.{◌≡◌, ◌<◌, ◌^◌, ◌∷◌, [], ℕ, List, Some, None, Ok, IfOk, true, false, pos, negsuc};
ghost use Rattle.pcc_base.specs.Outcome.{Trapped, Stopped};
ghost use Rattle.pcc_base.specs.declared.run.Stop.TheVariants.{Flags as UnknownFlags};
ghost use Rattle.pcc_base.specs.declared.run.Trap.TheVariants.{Divide};
ghost use Rattle.ia32_insn.specs.Registers.{with_register, zero_registers};
ghost use Rattle.ia32_insn.specs.declared.register_names.Reg32.TheVariants.{Eax, Ecx, Edx, Ebx};
ghost use Rattle.ia32_insn.specs.declared.register_names.Reg8.TheVariants.{Al, Ah};
ghost use Rattle.ia32_insn.specs.declared.operand.Rm32.TheVariants.{Reg};
ghost use Rattle.ia32_insn.specs.declared.operand.Rm8.TheVariants.{Reg as Reg8};
ghost use Rattle.ia32_insn.specs.declared.insn.AluOp.TheVariants.{Add};
ghost use Rattle.ia32_insn.specs.declared.insn.ShiftOp.TheVariants.{Shl};
ghost use Rattle.ia32_insn.specs.declared.insn.Cond.TheVariants.{E};
ghost use Rattle.ia32_insn.specs.declared.insn.Insn.{Insn};
ghost use Rattle.ia32_insn.specs.declared.insn.Insn.TheVariants.{Mov8Imm, IDiv, SetCc, ShiftCl, AluImm};
ghost use Rattle.ia32_insn.specs.State.{State, AreApart, at_address};
ghost use Rattle.ia32_insn.specs.Spelling.{Spells};
ghost use Rattle.ia32_insn.specs.Meaning.{Moves, Halts, load, store, store_bytes, effect, perform};
ghost use Rattle.ia32_insn.specs.Keeps.{AreDisjoint, KeepsAreas, KeepsAllButMemory, KeepsStreams, may_write, may_call};
ghost use Rattle.ia32_insn.specs.WorkedStates.{bare};

/// What is loaded after a number of n bytes was stored: at the same place that number, and elsewhere what was
/// loaded there before.
pub fn load_after_store()
    ensures same { (n address value old : ℕ) (s t : State) → 0 < n → value < 256 ^ n → AreApart s.memory
        → load n address s ≡ Ok old → store n address value s ≡ Ok t → load n address t ≡ Ok value }
    ensures elsewhere { (a n b m value : ℕ) (s t : State) → store n a value s ≡ Ok t → AreDisjoint a n b m → load m b t
        ≡ load m b s }
{}

/// A store keeps the areas' places, lengths and permissions, and all but memory.
pub fn store_keeps()
    ensures areas { (address : ℕ) (bytes : List ℕ) (s t : State) → store_bytes address bytes s ≡ Ok t
        → KeepsAreas s.memory t.memory }
    ensures others { (address : ℕ) (bytes : List ℕ) (s t : State) → store_bytes address bytes s ≡ Ok t
        → KeepsAllButMemory s t }
{}

/// What every instruction keeps that goes on, and what those keep that don't write memory, or aren't INT.
pub fn instruction_keeps()
    ensures areas { (i : Insn) (after : ℕ) (s : State) → IfOk (effect i after s) (λ t. KeepsAreas s.memory t.memory) }
    ensures memory { (i : Insn) (after : ℕ) (s : State) → may_write i ≡ false
        → IfOk (effect i after s) (λ t. t.memory ≡ s.memory) }
    ensures streams { (i : Insn) (after : ℕ) (s : State) → may_call i ≡ false
        → IfOk (effect i after s) (KeepsStreams s) }
{}

/// The definitions give of single instructions what a reader of the Intel manual, volume 2, expects: a second byte
/// changes alone; IDIV by 0, and of -2^31 by -1, traps; SETcc stops with unknown flags; a shift by 33 shifts by 1,
/// and leaves the flags unknown; 2^31 - 1 and 1 make -2^31, with SF and OF.
pub fn worked_steps()
    ensures high_byte { perform (Mov8Imm Ah 85) 2 (bare (with_register Eax 287454020 zero_registers))
        ≡ Moves (at_address 2 (bare (with_register Eax 287462724 zero_registers))) }
    ensures divides_by_zero { perform (IDiv (Reg Ebx)) 2 (bare (with_register Eax 7 zero_registers))
        ≡ Halts (Trapped Divide) }
    ensures quotient_too_large { perform (IDiv (Reg Ebx)) 2
        (bare (with_register Eax 0x80000000
        (with_register Edx 0xffffffff (with_register Ebx 0xffffffff zero_registers))))
        ≡ Halts (Trapped Divide) }
    ensures unknown_flags { perform (SetCc E (Reg8 Al)) 3 (bare zero_registers) ≡ Halts (Stopped UnknownFlags 0) }
    ensures sete_al { Spells (SetCc E (Reg8 Al)) (15 ∷ 148 ∷ 192 ∷ []) }
    ensures shift { perform (ShiftCl Shl (Reg Eax)) 2 (bare (with_register Eax 1 (with_register Ecx 33 zero_registers)))
        ≡ Moves (at_address 2 (bare (with_register Eax 2 (with_register Ecx 33 zero_registers)))) }
    ensures overflow { perform (AluImm Add (Reg Eax) (pos 1)) 3 (bare (with_register Eax 0x7fffffff zero_registers))
        ≡ Moves (at_address 3 (record (bare (with_register Eax 0x80000000 zero_registers))
        { flags = Some (record { cf = false; zf = false; sf = true; of = true }) })) }
    ensures add_minus_one { Spells (AluImm Add (Reg Eax) (negsuc 0)) (0x83 ∷ 0xc0 ∷ 0xff ∷ []) }
{}
