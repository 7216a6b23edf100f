//! The instructions of moves, run by the machine: what stands in registers and slots afterwards is what the moves, made
//! all at once, leave there.
//!
//! The frame has 28 bytes below EBP: words for EAX, ECX, EDX and EBX, the slots at 12 and 8 below EBP, and the word of
//! scratch. A text loads the registers from their words, does the instructions, stores the registers there again, and
//! writes all but the word of scratch.

ghost use Rattle.std.specs.Prelude.{◌≤◌, ◌^◌};
ghost use Rattle.std.specs.List.{All};
ghost use Rattle.ia32_insn.specs.Spelling.{HasSpelling};

use crate::expected::expect;
use crate::machine::machine;
use crate::rows::{bytes_of, cells, expect_printed, number_of, rows_of};
use ia32_asm::encode;
use ia32_emit::Location;
use ia32_insn::{Insn, Reg8, Reg32};
use parallel_copies::{Move, can_repair, repair};
use pcc_base::Width;
use pcc_outside::{MemSink, SureSource};
use std::alloc::Global;
use std::fmt::Display;
use std::process::Abort;

/// The names of the places: the first six are for words, and those from the fifth on for bytes.
const NAMES: &str = "EAX ECX EDX EBX [-12] [-8] AL CL DL BL AH CH DH BH";

/// The places of these names.
static PLACES: [Location; 14] = [
    Location::Word(Reg32::Eax),
    Location::Word(Reg32::Ecx),
    Location::Word(Reg32::Edx),
    Location::Word(Reg32::Ebx),
    Location::Slot(-12),
    Location::Slot(-8),
    Location::Byte(Reg8::Al),
    Location::Byte(Reg8::Cl),
    Location::Byte(Reg8::Dl),
    Location::Byte(Reg8::Bl),
    Location::Byte(Reg8::Ah),
    Location::Byte(Reg8::Ch),
    Location::Byte(Reg8::Dh),
    Location::Byte(Reg8::Bh),
];

/// The offset of the word of scratch from EBP.
const WORD: i32 = -4;

/// JMP over the frame, which follows.
const FRONT: &str = "E9 1C 00 00 00";

/// MOV EBP, 0x08048021, the end of the frame; MOV EAX, [EBP-28]; MOV ECX, [EBP-24]; MOV EDX, [EBP-20]; MOV EBX,
/// [EBP-16].
const LOADS: &str = "BD 21 80 04 08 8B 45 E4 8B 4D E8 8B 55 EC 8B 5D F0";

/// MOV [EBP-28], EAX; MOV [EBP-24], ECX; MOV [EBP-20], EDX; MOV [EBP-16], EBX; `write` of the 24 bytes from EBP-28 on;
/// `exit` of 1.
const STORES: &str = "\
89 45 E4 89 4D E8 89 55 EC 89 5D F0 B8 04 00 00 00 BB 01 00 00 00 8D 4D E4 BA 18 00 00 00 CD 80 \
B8 01 00 00 00 BB 01 00 00 00 CD 80";

/// Adds bytes to a text.
fn put(rt: &impl Abort, text: &mut Vec<u8>, bytes: &[u8]) {
    text.extend_from_slice(bytes).expect(rt, "memory for bytes");
}

/// Adds the bytes of instructions to a text.
fn put_insns(rt: &impl Abort, text: &mut Vec<u8>, insns: &[Insn])
    requires { All HasSpelling insns.now }
{
    for insn in insns {
        put(rt, text, encode(insn).as_slice());
    }
}

/// Adds the instructions that make the moves to a text.
fn put_moves(rt: &impl Abort, text: &mut Vec<u8>, moves: &[Move]) {
    assert!(rt; can_repair(moves, WORD));
    let insns = repair(moves, WORD);
    put_insns(rt, text, insns.as_slice());
}

/// The text that makes the moves in a frame of these bytes and the word of scratch.
fn text_of(rt: &impl Abort, alloc: Global, moves: &[Move], before: &[u8]) -> Vec<u8> {
    let mut text = bytes_of(rt, alloc, FRONT);
    put(rt, &mut text, before);
    put(rt, &mut text, &[0xa5; 4]);
    put(rt, &mut text, &bytes_of(rt, alloc, LOADS));
    put_moves(rt, &mut text, moves);
    put(rt, &mut text, &bytes_of(rt, alloc, STORES));
    text
}

/// The moves in a frame of the first bytes leave the others there.
fn expect_moved<D: Display + Copy>(
    rt: &impl Abort,
    alloc: Global,
    moves: &[Move],
    before: &[u8],
    wanted: &[u8],
    of: D,
) {
    let text = text_of(rt, alloc, moves, before);
    assert!(rt; text.len() <= 4096);
    let mut machine = machine(rt, alloc, &text, 4096, true);
    let mut input = SureSource::new(Vec::new(alloc));
    let mut out = MemSink::new(alloc, Vec::new(alloc));
    let end = machine.run(&mut input, &mut out, 1000);
    expect_printed(rt, alloc, &end, "Ended(1)");
    expect(rt, &out.taken(), &wanted, of);
}

/// Where the bytes of a place begin in the frame.
fn index_of(place: Location) -> usize
    ensures { result ≤ 2 ^ 31 }
{
    match place {
        Location::Word(r) => 4 * (r as usize),
        Location::Byte(r) => 4 * (r as usize % 4) + r as usize / 4,
        Location::Slot(offset) => offset.wrapping_add(28).unsigned_abs() as usize,
    }
}

/// How many bytes a move of this width copies.
fn size_of(width: Width) -> usize
    ensures { result ≤ 4 }
{
    match width {
        Width::One => 1,
        Width::Two => 4,
    }
}

/// Copies a byte from a place in the first bytes to one in the others.
fn copy_byte(rt: &impl Abort, before: &[u8], from: usize, after: &mut [u8], to: usize) {
    let byte = *before.get(from).expect(rt, "a byte before");
    *after.get_mut(to).expect(rt, "a byte after") = byte;
}

/// What the moves, made all at once, leave in a frame of these bytes.
fn moved(rt: &impl Abort, alloc: Global, moves: &[Move], before: &[u8]) -> Vec<u8> {
    let mut after = before.to_vec(alloc).expect(rt, "a frame");
    for m in moves {
        let (from, to) = (index_of(m.from), index_of(m.to));
        for i in 0..size_of(m.width) {
            copy_byte(rt, before, from + i, after.as_mut_slice(), to + i);
        }
    }
    after
}

/// Moves, and what stands in EAX, ECX, EDX, EBX and the slots at 12 and 8 below EBP before and after them.
const ROWS: &str = "\
EAX>ECX ECX>EDX EDX>EAX => 1 2 3 4 5 6 => 3 1 2 4 5 6
EBX>EAX AL>BH AH>BL => 55667788 2 3 11223344 5 6 => 11223344 2 3 11228877 5 6
AL>BH BH>CL CL>AL AH>AH => 2211 33 3 4400 5 6 => 2233 44 3 1100 5 6
[-12]>EAX EAX>[-8] => 1 2 3 4 5 6 => 5 2 3 4 5 1
[-12]>AL AL>[-8] => 44332211 2 3 4 b4b3b2b1 a4a3a2a1 => 443322b1 2 3 4 b4b3b2b1 a4a3a211
EBX>EAX AL>CL ECX>EDX DL>CH => a4a3a2a1 c4c3c2c1 d4d3d2d1 b4b3b2b1 5 6 => b4b3b2b1 c4c3d1a1 c4c3c2c1 b4b3b2b1 5 6
[-8]>[-8] EBX>EBX DL>DL => 1 2 3 4 5 6 => 1 2 3 4 5 6";

/// The place of this name.
fn place_named(rt: &impl Abort, name: &str) -> Location {
    let index = NAMES.split(' ').position(|n| n == name).expect(rt, name);
    *PLACES.get(index).expect(rt, name)
}

/// The width of moves between two places: One where one of them is a byte register.
fn width_between(from: Location, to: Location) -> Width {
    match (from, to) {
        (Location::Byte(_), _) | (_, Location::Byte(_)) => Width::One,
        (Location::Word(_) | Location::Slot(_), Location::Word(_) | Location::Slot(_)) =>
            Width::Two,
    }
}

/// The move that the text names, as `EAX>[-8]` does.
fn move_of(rt: &impl Abort, text: &str) -> Move {
    let (from, to) = text.split_once('>').expect(rt, text);
    let (from, to) = (place_named(rt, from), place_named(rt, to));
    Move {
        from,
        to,
        width: width_between(from, to),
    }
}

/// The moves that the text names, with a space between two of them.
fn moves_of(rt: &impl Abort, alloc: Global, text: &str) -> Vec<Move> {
    let mut moves = Vec::new(alloc);
    for name in text.split(' ') {
        moves
            .push(move_of(rt, name))
            .expect(rt, "memory for a move");
    }
    moves
}

/// The bytes of words that stand in the text in hexadecimal, with a space between two of them.
fn words_of(rt: &impl Abort, alloc: Global, text: &str) -> Vec<u8> {
    let mut bytes = Vec::new(alloc);
    for digits in text.split(' ') {
        put(rt, &mut bytes, &number_of(rt, digits).to_le_bytes());
    }
    bytes
}

/// Made all at once, the moves of a row come to what it says, and so do their instructions.
fn expect_row(rt: &impl Abort, alloc: Global, row: &str) {
    let (names, words) = cells(rt, row);
    let (before, after) = cells(rt, words);
    let moves = moves_of(rt, alloc, names);
    let before = words_of(rt, alloc, before);
    let wanted = words_of(rt, alloc, after);
    let at_once = moved(rt, alloc, &moves, &before);
    expect(rt, &at_once.as_slice(), &wanted.as_slice(), row);
    expect_moved(rt, alloc, &moves, &before, &wanted, row);
}

#[test]
fn moves_at_once(rt: HostRuntime) {
    for row in rows_of(&rt, ROWS, 7) {
        expect_row(&rt, rt.alloc(), row);
    }
}

/// Numbers that are drawn one after another.
#[derive(Drop)]
struct Draw {
    state: u64,
}

impl Draw {
    /// The next number (Knuth, "Seminumerical Algorithms", 3.3.4, of MMIX), of which the higher half is taken.
    fn next(&mut self) -> usize {
        self.state = self
            .state
            .wrapping_mul(6_364_136_223_846_793_005)
            .wrapping_add(1);
        (self.state >> 33) as usize
    }

    /// A place for a width.
    fn place(&mut self, width: Width) -> Location {
        match width {
            Width::One => PLACES[4 + self.next() % 10],
            Width::Two => PLACES[self.next() % 6],
        }
    }

    /// A move of any width.
    fn next_move(&mut self) -> Move {
        let width = if self.next().is_multiple_of(2) {
            Width::Two
        } else {
            Width::One
        };
        Move {
            from: self.place(width),
            to: self.place(width),
            width,
        }
    }

    /// Moves that can be made at once: of up to 63, those that can be made beside the ones that were drawn before them.
    fn moves(&mut self, rt: &impl Abort, alloc: Global) -> Vec<Move> {
        let mut moves = Vec::new(alloc);
        for _ in 0..self.next() % 64 {
            moves.push(self.next_move()).expect(rt, "memory for a move");
            if !can_repair(&moves, WORD) {
                moves.pop();
            }
        }
        moves
    }

    /// The bytes of a frame.
    fn frame(&mut self, rt: &impl Abort, alloc: Global) -> Vec<u8> {
        let mut bytes = Vec::new(alloc);
        for _ in 0..24 {
            bytes
                .push((self.next() % 256) as u8)
                .expect(rt, "memory for a byte");
        }
        bytes
    }
}

/// The instructions of drawn moves do what the moves do all at once. Answered is how many moves these are.
fn expect_drawn(rt: &impl Abort, alloc: Global, draw: &mut Draw, number: u32) -> usize {
    let moves = draw.moves(rt, alloc);
    let before = draw.frame(rt, alloc);
    let wanted = moved(rt, alloc, &moves, &before);
    expect_moved(rt, alloc, &moves, &before, &wanted, number);
    moves.len()
}

/// How many moves are drawn was counted by another program. Of the 2,000 lists 66 have an exchange of words, 141 one of
/// bytes, and 313 a word that goes to scratch.
#[test]
fn drawn_moves_at_once(rt: HostRuntime) {
    let mut draw = Draw { state: 56 };
    let mut count = 0_usize;
    for number in 0..2000 {
        count = count.wrapping_add(expect_drawn(&rt, rt.alloc(), &mut draw, number));
    }
    expect(&rt, &count, &9_756, "how many moves");
}
