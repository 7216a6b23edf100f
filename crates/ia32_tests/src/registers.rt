//! Which bytes of which registers have names of their own (Intel manual, volume 1, 3.4.1).

ghost use Rattle.std.specs.Prelude.{◌≡◌};

use crate::expected::expect;
use ia32_insn::{Reg8, Reg32, RegFile};
use std::process::Abort;

/// Registers, and their lowest byte and the one above it.
const BYTES: [(Reg32, Reg8, Reg8); 4] = [
    (Reg32::Eax, Reg8::Al, Reg8::Ah),
    (Reg32::Ecx, Reg8::Cl, Reg8::Ch),
    (Reg32::Edx, Reg8::Dl, Reg8::Dh),
    (Reg32::Ebx, Reg8::Bl, Reg8::Bh),
];

/// A store of 0x55 to the byte makes 0x11223344 in its register this word, and changes no other register.
fn expect_byte_of(rt: &impl Abort, wide: Reg32, narrow: Reg8, expected: u32, row: usize) {
    let mut registers = RegFile::new();
    registers.set32(wide, 0x1122_3344);
    registers.set32(Reg32::Esi, 7);
    registers.set8(narrow, 0x55);
    let words = [
        registers.get32(wide),
        registers.get32(Reg32::Esi),
        registers.get32(Reg32::Edi),
    ];
    expect(rt, &words, &[expected, 7, 0], row);
    expect(rt, &registers.get8(narrow), &0x55, row);
}

#[test]
fn bytes_of_their_registers(rt: HostRuntime) {
    for (row, (wide, lowest, next)) in BYTES.iter().enumerate() {
        expect_byte_of(&rt, *wide, *lowest, 0x1122_3355, row);
        expect_byte_of(&rt, *wide, *next, 0x1122_5544, row);
    }
}
