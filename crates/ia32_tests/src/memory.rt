//! Loads and stores in two areas, worked by hand.

ghost use Rattle.std.specs.Prelude.{◌≤◌, length};

use crate::expected::expect;
use crate::rows::{cells, number_of, numbers_of, rows_of};
use elf_image::Segment;
use ia32_memory::Memory;
use std::alloc::Global;
use std::process::Abort;

/// Where the text begins.
const TEXT: u32 = 0x0804_8000;

/// Where the data begins.
const DATA: u32 = 0x0804_9000;

/// A text of eight bytes and data of six, of which five and two are given.
fn two_segments(rt: &impl Abort, alloc: Global) -> Memory {
    let text = Segment {
        addr: TEXT,
        bytes: [0x78, 0x56, 0x34, 0x92, 0x90]
            .to_vec(alloc)
            .expect(rt, "a text"),
        size: 8,
        read: true,
        write: false,
        exec: true,
    };
    let data = Segment {
        addr: DATA,
        bytes: [1, 2].to_vec(alloc).expect(rt, "data"),
        size: 6,
        read: true,
        write: true,
        exec: false,
    };
    Memory::load(alloc, &[text, data]).expect(rt, "two segments")
}

/// At the address there are this byte, this half and this word, where there are any.
fn expect_loaded(rt: &impl Abort, memory: &Memory, address: u32, wanted: &[Option<u32>]) {
    let loaded = [
        memory.load8(address).map(u32::from),
        memory.load16(address).map(u32::from),
        memory.load32(address),
    ];
    expect(rt, &loaded.as_slice(), &wanted, address);
}

/// From the address on there are these bytes.
fn expect_bytes(rt: &impl Abort, memory: &mut Memory, address: u32, bytes: &[u8])
    requires few { length bytes.now ≤ 8 }
{
    let found = memory.bytes_at(address, bytes.len() as u32);
    expect(rt, &found, &Some(bytes), address);
}

/// An address, and the byte, the half and the word there, where there are any.
const LOADS: &str = "\
08048000 => 78 5678 92345678
08048003 => 92 9092 9092
08048005 => 0 0 -
08048007 => 0 - -
08048008 => - - -
08047fff => - - -
08049000 => 1 201 201
08049002 => 0 0 0
ffffffff => - - -";

#[test]
fn loads(rt: HostRuntime) {
    let alloc = rt.alloc();
    let mut memory = two_segments(&rt, alloc);
    for row in rows_of(&rt, LOADS, 9) {
        let (address, numbers) = cells(&rt, row);
        let wanted = numbers_of(&rt, alloc, numbers);
        expect_loaded(&rt, &memory, number_of(&rt, address), &wanted);
    }
    let code = memory.code_at(TEXT + 3) == Some(&[0x92, 0x90, 0, 0, 0]);
    let none = memory.code_at(DATA).is_none() && memory.bytes_at(TEXT + 1, 8).is_none();
    expect(&rt, &(code, none), &(true, true), "what is fetched");
    expect_bytes(&rt, &mut memory, TEXT + 1, &[0x56, 0x34, 0x92]);
}

/// The word at the beginning of the data after a store of one, two or four bytes at the address, if it was made. It may
/// be made where it was, and else the data stay as they are.
fn stored(rt: &impl Abort, alloc: Global, address: u32, size: u32) -> Option<u32> {
    let mut memory = two_segments(rt, alloc);
    let may = memory.may_store(address, size);
    let made = match size {
        1 => memory.store8(address, 0x55),
        2 => memory.store16(address, 0xaabb),
        _ => memory.store32(address, 0x6677_8899),
    };
    expect(rt, &made, &may, address);
    let word = memory.load32(DATA);
    if made {
        return word;
    }
    expect(rt, &word, &Some(0x201), address);
    None
}

/// Addresses, and the word at the beginning of the data after a store of one, two and four bytes there, where it may
/// be made.
const STORES: &str = "\
08049000 => 255 aabb 66778899
08049002 => 00550201 aabb0201 88990201
08049003 => 55000201 bb000201 -
08049005 => 201 - -
08049006 => - - -
08048fff => - - -
08048000 => - - -";

#[test]
fn stores(rt: HostRuntime) {
    let alloc = rt.alloc();
    for row in rows_of(&rt, STORES, 7) {
        let (address, words) = cells(&rt, row);
        let address = number_of(&rt, address);
        let made = [
            stored(&rt, alloc, address, 1),
            stored(&rt, alloc, address, 2),
            stored(&rt, alloc, address, 4),
        ];
        let wanted = numbers_of(&rt, alloc, words);
        expect(&rt, &made.as_slice(), &wanted.as_slice(), row);
    }
}

/// The size of data of which two bytes are given, so that most of it stays untouched when it is loaded.
const WIDE: u32 = 1 << 20;

/// Places in the wide data, from the first one on: at its end, near its beginning, in its middle, and at both sides of
/// where its last quarter begins.
const PLACES: [u32; 5] = [WIDE - 4, 6, WIDE / 2, WIDE / 4 * 3 - 2, WIDE / 4 * 3 - 64];

/// A memory of the wide data.
fn wide_segment(rt: &impl Abort, alloc: Global) -> Memory {
    let data = Segment {
        addr: DATA,
        bytes: [1, 2].to_vec(alloc).expect(rt, "data"),
        size: WIDE,
        read: true,
        write: true,
        exec: false,
    };
    Memory::load(alloc, &[data]).expect(rt, "a segment")
}

/// Nothing but 0 stands at the places.
fn expect_zeros(rt: &impl Abort, memory: &Memory) {
    for place in PLACES {
        expect_loaded(rt, memory, DATA + place, &[Some(0); 3]);
    }
}

/// A word can be stored at each place, and then it stands at each.
fn expect_words_stored(rt: &impl Abort, memory: &mut Memory) {
    for place in PLACES {
        let stored = memory.store32(DATA + place, 0x0a0b_0c0d);
        expect(rt, &stored, &true, place);
    }
    for place in PLACES {
        let word = memory.load32(DATA + place);
        expect(rt, &word, &Some(0x0a0b_0c0d), place);
        let half = memory.load16(DATA + place + 1);
        expect(rt, &half, &Some(0x0b0c), place);
    }
}

#[test]
fn untouched_bytes(rt: HostRuntime) {
    let mut memory = wide_segment(&rt, rt.alloc());
    expect(&rt, &memory.load32(DATA + 1), &Some(2), "two bytes");
    expect_zeros(&rt, &memory);
    expect_words_stored(&rt, &mut memory);
    expect_bytes(&rt, &mut memory, DATA, &[1, 2, 0, 0, 0, 0, 0x0d, 0x0c]);
    expect_bytes(
        &rt,
        &mut memory,
        DATA + WIDE - 5,
        &[0, 0x0d, 0x0c, 0x0b, 0x0a],
    );
}
