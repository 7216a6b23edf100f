ghost use Rattle.std.specs.Prelude.{◌≡◌, Ok, None};
ghost use Rattle.ia32_insn.specs.Meaning.{and_then, write32 as written, with_flags};
ghost use Rattle.ia32_machine.specs.Answers.{does, Leaves};

use crate::halt::Halt;
use crate::processor::Processor;
use crate::words::shift;
use ia32_insn::{Insn, Rm32, ShiftOp};

// What leaves the flags unknown: a change of an operand, and shifts, which are one (Intel manual, volume 2).
impl Processor {
    /// Changes an operand, and the flags are unknown after it.
    #[inline]
    pub fn change(&mut self, operand: &Rm32, value: u32) -> Result<(), Halt>
        ensures { Leaves (and_then (written operand.now value self.old) (λ t. Ok (with_flags None t))) self.old self.new
            result }
    {
        self.write32(operand, value)?;
        self.set_flags(None);
        Ok(())
    }

    /// SHL, SHR and SAR rm32 by a count.
    #[inline]
    pub fn shift(&mut self, op: ShiftOp, operand: &Rm32, count: u8) -> Result<(), Halt>
        ensures { Leaves (does (Insn.ShiftImm op operand.now count) self.old) self.old self.new result }
    {
        let value = self.read32(operand)?;
        self.change(operand, shift(op, value, count))
    }
}
