//! A law of registers: its contract is the law, and the function does nothing.

ghost use Rattle.ia32_insn.specs.WorkedRegisters.{AreasAreNamed};

/// A worked example of how areas name registers.
pub fn areas_are_named()
    ensures { AreasAreNamed }
{}
