use crate::operand::{Mem, Rm8, Rm32};
use crate::register_names::{Reg8, Reg32};

/// An operation of two operands that sets the flags (Intel manual, volume 2: ADD, OR, AND, SUB, XOR,
/// CMP).
#[derive(Clone, Copy, Debug)]
pub enum AluOp {
    Add,
    Or,
    And,
    Sub,
    Xor,
    Cmp,
}

/// A shift (Intel manual, volume 2: SAL/SAR/SHL/SHR).
#[derive(Clone, Copy, Debug)]
pub enum ShiftOp {
    Shl,
    Shr,
    Sar,
}

/// A condition of Jcc and SETcc, in the order of its number (Intel manual, volume 1, appendix B).
#[derive(Clone, Copy, Debug, PartialEq, Eq)]
pub enum Cond {
    O,
    No,
    B,
    Ae,
    E,
    Ne,
    Be,
    A,
    S,
    Ns,
    P,
    Np,
    L,
    Ge,
    Le,
    G,
}

/// An instruction, with the destination first. A jump or call has the distance from the instruction
/// after it.
#[derive(Clone, Copy, Debug, Default)]
pub enum Insn {
    Mov(Rm32, Reg32),
    MovLoad(Reg32, Mem),
    MovImm(Rm32, i32),
    Mov8(Rm8, Reg8),
    Mov8Load(Reg8, Mem),
    Mov8Imm(Reg8, u8),
    Mov16(Rm32, Reg32),
    MovZx8(Reg32, Rm8),
    MovZx16(Reg32, Rm32),
    MovSx8(Reg32, Rm8),
    MovSx16(Reg32, Rm32),
    Xchg8(Rm8, Reg8),
    Xchg(Rm32, Reg32),
    Lea(Reg32, Mem),
    Alu(AluOp, Rm32, Reg32),
    AluLoad(AluOp, Reg32, Mem),
    AluImm(AluOp, Rm32, i32),
    Test(Rm32, Reg32),
    IMul(Reg32, Rm32),
    Not(Rm32),
    Neg(Rm32),
    Div(Rm32),
    IDiv(Rm32),
    Cdq,
    ShiftCl(ShiftOp, Rm32),
    ShiftImm(ShiftOp, Rm32, u8),
    Push(Rm32),
    PushImm(i32),
    Pop(Reg32),
    Call(i32),
    Ret,
    Leave,
    Jmp(i32),
    Jcc(Cond, i32),
    SetCc(Cond, Rm8),
    Int(u8),
    Ud2,
    #[default]
    Nop,
}
