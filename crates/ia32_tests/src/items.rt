//! The section of a small function, as GNU as lays it out.

use crate::expected::expect;
use ia32_asm::{Relocation, Symbol, Target, assemble};
use ia32_insn::{Cond, Insn, Item, Reg32};
use std::test::Fail;

/// The bytes are those that GNU as 2.40 gives for
/// `1: nop; je 2f; call f; mov $o, %eax; jmp 1b; 2: ret` with distances of 32 bits, and 0 for `f` and `o`.
const BYTES: [u8; 23] = [
    0x90, 0x0f, 0x84, 0x0f, 0, 0, 0, 0xe8, 0, 0, 0, 0, 0xb8, 0, 0, 0, 0, 0xe9, 0xea, 0xff, 0xff,
    0xff, 0xc3,
];

/// The words of `f`, which is function 2, and of `o`, which is object 5.
const RELOCATIONS: [Relocation; 2] = [
    Relocation {
        at: 8,
        relative: true,
        target: Target::Function(2),
    },
    Relocation {
        at: 13,
        relative: false,
        target: Target::Object(5),
    },
];

#[test]
fn jumps_call_and_address(rt: HostRuntime) -> Result<(), Fail> {
    let items = vec![in rt.alloc();
        Item::Point(1),
        Item::Label(7),
        Item::Plain(Insn::Nop),
        Item::JumpIf(Cond::E, 3),
        Item::CallFunction(2),
        Item::AddressOf(Reg32::Eax, 5),
        Item::JumpTo(7),
        Item::Label(3),
        Item::Point(3),
        Item::Plain(Insn::Ret),
    ]?;
    let section = assemble(rt.alloc(), 4, &items)?;
    let symbols = [Symbol {
        function: 4,
        offset: 0,
    }];
    expect(&rt, &section.bytes.as_slice(), &BYTES.as_slice(), "bytes");
    let relocations = section.relocations.as_slice();
    expect(&rt, &relocations, &RELOCATIONS.as_slice(), "relocations");
    expect(
        &rt,
        &section.symbols.as_slice(),
        &symbols.as_slice(),
        "symbols",
    );
    expect(
        &rt,
        &section.points.as_slice(),
        &[0, 0, 0, 22].as_slice(),
        "points",
    );
    Ok(())
}
