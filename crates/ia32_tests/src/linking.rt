//! The images of small functions, as GNU as and ld lay them out.

use crate::expected::expect;
use elf_link::link;
use ia32_asm::{Relocation, Section, Symbol, Target, assemble};
use ia32_insn::{Insn, Item, Reg32, Rm32};
use pcc_base::DataObject;
use std::test::Fail;

/// The text of `mov $3, %eax; ret` with the start and the routines, beside an object of the bytes 65 and -1. The
/// bytes are those of GNU as and ld 2.40 at 0x08048000, but for the PUSH of 0, which has 32 bits here; the address
/// of the data and the end of the stack are a sum by hand.
#[test]
fn one_function(rt: HostRuntime) -> Result<(), Fail> {
    let items = vec![in rt.alloc();
        Item::Plain(Insn::MovImm(Rm32::Reg(Reg32::Eax), 3)),
        Item::Plain(Insn::Ret),
    ]?;
    let section = assemble(rt.alloc(), 0, &items)?;
    let sections = vec![in rt.alloc(); section]?;
    let elements = vec![in rt.alloc(); 65, -1]?;
    let objects = vec![in rt.alloc(); DataObject { width: 1, elements }]?;
    let linked = link(rt.alloc(), &sections, &objects, 0)?;
    let text: [u8; 110] = [
        0xbc, 0x0c, 0xa0, 0x04, 0x0c, 0xc7, 0x05, 0x00, 0x90, 0x04, 0x08, 1, 0, 0, 0, 0xe8, 9, 0,
        0, 0, 0x89, 0xc3, 0xb8, 1, 0, 0, 0, 0xcd, 0x80, 0xb8, 3, 0, 0, 0, 0xc3, 0x53, 0xb8, 4, 0,
        0, 0, 0xbb, 1, 0, 0, 0, 0x8d, 0x4c, 0x24, 8, 0xba, 1, 0, 0, 0, 0xcd, 0x80, 0x0f, 0xb6,
        0x44, 0x24, 8, 0x5b, 0xc3, 0x53, 0x68, 0, 0, 0, 0, 0xb8, 3, 0, 0, 0, 0xbb, 0, 0, 0, 0,
        0x89, 0xe1, 0xba, 1, 0, 0, 0, 0xcd, 0x80, 0x83, 0xe8, 1, 0x59, 0x09, 0xc8, 0x5b, 0xc3,
        0x8b, 0x5c, 0x24, 4, 0xb8, 1, 0, 0, 0, 0xcd, 0x80, 0x0f, 0x0b,
    ];
    let data_bytes: [u8; 12] = [0, 0, 0, 0, 2, 0, 0, 0, 65, 0xff, 0, 0];
    expect(&rt, &linked.image.entry, &0x0804_8000, "the entry");
    expect(
        &rt,
        &linked.image.text.as_slice(),
        &text.as_slice(),
        "the text",
    );
    let data = linked.image.data_bytes.as_slice();
    expect(&rt, &data, &data_bytes.as_slice(), "the data");
    let addresses = linked.objects.as_slice();
    expect(&rt, &addresses, &[0x0804_9008].as_slice(), "the objects");
    expect(&rt, &linked.points.len(), &1, "the points");
    Ok(())
}

/// The sections of two functions, that of function 1 first: the start calls function 0 behind it, and each has its
/// points under its own number.
#[test]
fn two_functions(rt: HostRuntime) -> Result<(), Fail> {
    let items = vec![in rt.alloc();
        Item::Plain(Insn::MovImm(Rm32::Reg(Reg32::Eax), 3)),
        Item::Plain(Insn::Ret),
    ]?;
    let others = vec![in rt.alloc();
        Item::Plain(Insn::MovImm(Rm32::Reg(Reg32::Eax), 5)),
        Item::Plain(Insn::Ret),
    ]?;
    let section = assemble(rt.alloc(), 0, &items)?;
    let other = assemble(rt.alloc(), 1, &others)?;
    let sections = vec![in rt.alloc(); other, section]?;
    let objects: Vec<DataObject> = Vec::new(rt.alloc());
    let linked = link(rt.alloc(), &sections, &objects, 0)?;
    // the call of the start has its distance from byte 20 on: 9 bytes are left of the start, and 6 of function 1
    let text = linked.image.text.as_slice();
    let start = [0xe8u8, 15, 0, 0, 0];
    let functions = [0xb8u8, 5, 0, 0, 0, 0xc3, 0xb8, 3, 0, 0, 0, 0xc3];
    expect(&rt, &text.get(15..20), &Some(start.as_slice()), "the call");
    expect(
        &rt,
        &text.get(29..41),
        &Some(functions.as_slice()),
        "the functions",
    );
    expect(&rt, &linked.points.len(), &2, "the points");
    Ok(())
}

/// Sections that no items make: `f: mov $f, %eax; ret`, and `call f; ret` with other bytes than 0 where its word
/// goes. The bytes are those of GNU as and ld 2.40 behind a start of 29 bytes. Function 0 has a point number that no
/// point has, with the offset 0, and a point at its last byte.
#[test]
fn words_of_any_sections(rt: HostRuntime) -> Result<(), Fail> {
    let load_bytes = vec![in rt.alloc(); 0xb8, 0, 0, 0, 0, 0xc3]?;
    let load_symbols = vec![in rt.alloc();
        Symbol {
            function: 0,
            offset: 0
        },
    ]?;
    let load_words = vec![in rt.alloc();
        Relocation {
            at: 1,
            relative: false,
            target: Target::Function(0),
        },
    ]?;
    let load_points = vec![in rt.alloc(); 0, 5]?;
    let call_bytes = vec![in rt.alloc(); 0xe8, 7, 7, 7, 7, 0xc3]?;
    let call_symbols = vec![in rt.alloc();
        Symbol {
            function: 1,
            offset: 0
        },
    ]?;
    let call_words = vec![in rt.alloc();
        Relocation {
            at: 1,
            relative: true,
            target: Target::Function(0),
        },
    ]?;
    let call_points: Vec<u32> = Vec::new(rt.alloc());
    let loads = Section {
        bytes: load_bytes,
        symbols: load_symbols,
        relocations: load_words,
        points: load_points,
    };
    let calls = Section {
        bytes: call_bytes,
        symbols: call_symbols,
        relocations: call_words,
        points: call_points,
    };
    let sections = vec![in rt.alloc(); loads, calls]?;
    let objects: Vec<DataObject> = Vec::new(rt.alloc());
    let linked = link(rt.alloc(), &sections, &objects, 0)?;
    let functions = [
        0xb8u8, 0x1d, 0x80, 0x04, 0x08, 0xc3, 0xe8, 0xf5, 0xff, 0xff, 0xff, 0xc3,
    ];
    let text = linked.image.text.as_slice();
    expect(
        &rt,
        &text.get(29..41),
        &Some(functions.as_slice()),
        "the functions",
    );
    let points = linked.points[0].as_slice();
    let addresses = [0x0804_801d, 0x0804_8022];
    expect(&rt, &points, &addresses.as_slice(), "the points");
    Ok(())
}
