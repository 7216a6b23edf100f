use crate::register_names::{Reg8, Reg32};

/// A memory operand: the sum of a base register, an index register times 1, 2, 4 or 8, and a
/// displacement (Intel manual, volume 1, section 3.7.5). ESP is no index.
#[derive(Clone, Copy, Debug)]
pub struct Mem {
    pub base: Option<Reg32>,
    pub index: Option<(Reg32, u8)>,
    pub disp: i32,
}

/// An operand of 32 or 16 bits: a register, or memory.
#[derive(Clone, Copy, Debug)]
pub enum Rm32 {
    Reg(Reg32),
    Mem(Mem),
}

/// An operand of 8 bits: a register, or memory.
#[derive(Clone, Copy, Debug)]
pub enum Rm8 {
    Reg(Reg8),
    Mem(Mem),
}
