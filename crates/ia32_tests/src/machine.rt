//! How small texts end, by the Intel manual, volume 2, and what system calls take and write. An end is told as `{:?}`
//! prints it, with addresses in decimal: the text begins at 134512640, which is 0x08048000.

ghost use Rattle.std.specs.Prelude.{◌≡◌, ◌≤◌, [], length};
ghost use Rattle.pcc_base.specs.Outcome.{Outcome};
ghost use Rattle.ia32_insn.specs.Runs.{Runs, no_visits};
ghost use Rattle.ia32_machine.specs.First.{lent};
ghost use Rattle.ia32_tests.specs.Ends.{answer_of};

use crate::expected::expect;
use crate::rows::{bytes_of, cells, expect_printed, rows_of};
use elf_image::{Loaded, Segment};
use ia32_machine::{Machine, MachineEnd};
use pcc_outside::{MemSink, MemSource, SureSink, SureSource};
use std::alloc::Global;
use std::process::Abort;

/// Where the text begins.
const TEXT: u32 = 0x0804_8000;

/// MOV EAX, 1; MOV EBX, 300; INT 0x80.
const EXIT: [u8; 12] = [0xB8, 1, 0, 0, 0, 0xBB, 44, 1, 0, 0, 0xCD, 0x80];

/// A machine with one segment of this size, which begins with these bytes.
pub fn machine(rt: &impl Abort, alloc: Global, text: &[u8], size: u32, write: bool) -> Machine
    requires fits { length text.now ≤ size }
    requires small { size ≤ 4096 }
{
    let segment = Segment {
        addr: TEXT,
        bytes: text.to_vec(alloc).expect(rt, "a text"),
        size,
        read: true,
        write,
        exec: true,
    };
    let loaded = Loaded {
        entry: TEXT,
        segments: vec![in alloc; segment].expect(rt, "a segment"),
    };
    Machine::load(alloc, &loaded).expect(rt, "a machine")
}

/// How the machine ends within the budget where nothing is to be read, which is as the definition says, though the
/// output doesn't tell what it took.
fn end_within(alloc: Global, mut machine: Machine, budget: u64) -> MachineEnd
    ensures { (o : Outcome) → Runs no_visits budget (lent machine []) o → result ≡ answer_of o.end }
{
    let bytes = Vec::new(alloc);
    let mut input = SureSource::new(bytes);
    let mut out = SureSink::new();
    machine.run(&mut input, &mut out, budget)
}

/// Budgets, and how the exit ends within them.
const BUDGETS: &str = "\
0 => BudgetSpent
2 => BudgetSpent
3 => Ended(44)
1000000 => Ended(44)";

#[test]
fn spends_the_budget(rt: HostRuntime) {
    let alloc = rt.alloc();
    for row in rows_of(&rt, BUDGETS, 4) {
        let (budget, wanted) = cells(&rt, row);
        let machine = machine(&rt, alloc, &EXIT, 12, false);
        let end = end_within(alloc, machine, budget.parse().expect(&rt, row));
        expect_printed(&rt, alloc, &end, wanted);
    }
}

/// A segment of the exit, and one of this size in its middle.
fn exit_around(rt: &impl Abort, alloc: Global, size: u32) -> Loaded {
    let text = Segment {
        addr: TEXT,
        bytes: EXIT.to_vec(alloc).expect(rt, "a text"),
        size: 12,
        read: true,
        write: false,
        exec: true,
    };
    let inner = Segment {
        addr: TEXT + 5,
        bytes: Vec::new(alloc),
        size,
        read: true,
        write: true,
        exec: false,
    };
    Loaded {
        entry: TEXT,
        segments: vec![in alloc; text, inner].expect(rt, "segments"),
    }
}

#[test]
fn loads_segments_that_do_not_overlap(rt: HostRuntime) {
    let alloc = rt.alloc();
    let loaded = exit_around(&rt, alloc, 0);
    let loadable = loaded.is_loadable(alloc).expect(&rt, "memory");
    assert!(rt; loadable);
    let machine = Machine::load(alloc, &loaded).expect(&rt, "a machine");
    let end = end_within(alloc, machine, 1000);
    expect_printed(&rt, alloc, &end, "Ended(44)");
    let loadable = exit_around(&rt, alloc, 1).is_loadable(alloc).ok();
    expect(&rt, &loadable, &Some(false), "segments that overlap");
}

/// Texts as GNU as assembles them, and how they end in a segment of 4096 bytes that may be written.
const ENDS: &str = "\
B8 44 33 22 11 B4 55 89 C3 C1 EB 08 B8 01 00 00 00 CD 80 => \
    Ended(85) ; MOV EAX, 0x11223344; MOV AH, 0x55; MOV EBX, EAX; SHR EBX, 8; exit
B8 44 33 22 11 B4 55 0F B6 D8 B8 01 00 00 00 CD 80 => \
    Ended(68) ; MOV EAX, 0x11223344; MOV AH, 0x55; MOVZX EBX, AL; exit
B8 07 00 00 00 99 F7 FB => Trapped(Divide) ; MOV EAX, 7; CDQ; IDIV EBX
B8 00 00 00 80 99 BB FF FF FF FF F7 FB => Trapped(Divide) ; MOV EAX, 0x80000000; CDQ; MOV EBX, -1; IDIV EBX
B8 07 00 00 00 31 D2 F7 F3 => Trapped(Divide) ; MOV EAX, 7; XOR EDX, EDX; DIV EBX
B8 FB FF FF FF B9 03 00 00 00 31 D2 F7 F1 89 C3 B8 01 00 00 00 CD 80 => \
    Ended(83) ; 4294967291u / 3, modulo 256: MOV EAX, -5; MOV ECX, 3; XOR EDX, EDX; DIV ECX; MOV EBX, EAX; exit
B8 00 00 00 80 B9 FF FF FF FF 31 D2 F7 F1 89 D3 C1 EB 18 B8 01 00 00 00 CD 80 => \
    Ended(128) ; 0x80000000u % 0xffffffffu >> 24: MOV EAX, 0x80000000; MOV ECX, -1; XOR EDX, EDX; DIV ECX; MOV EBX, \
    EDX; SHR EBX, 24; exit
B8 F0 FF FF FF B1 1C D3 E8 89 C3 B8 01 00 00 00 CD 80 => \
    Ended(15) ; 0xfffffff0u >> 28: MOV EAX, -16; MOV CL, 28; SHR EAX, CL; MOV EBX, EAX; exit
B8 01 00 00 00 B9 FF FF FF FF 39 C8 0F 92 C3 0F B6 DB B8 01 00 00 00 CD 80 => \
    Ended(1) ; 1 < 0xffffffffu: MOV EAX, 1; MOV ECX, -1; CMP EAX, ECX; SETB BL; MOVZX EBX, BL; exit
B8 01 00 00 00 83 CB FF 39 C3 BB 03 00 00 00 73 05 BB 04 00 00 00 CD 80 => \
    Ended(3) ; 0xffffffffu >= 1: MOV EAX, 1; OR EBX, -1; CMP EBX, EAX; MOV EBX, 3; JAE; MOV EBX, 4; INT 0x80
0F 0B => Trapped(Check) ; UD2
0F 94 C0 => Stopped(Flags, 134512640) ; SETE AL
39 C0 C1 E0 02 0F 94 C0 => Stopped(Flags, 134512645) ; CMP EAX, EAX; SHL EAX, 2; SETE AL
B8 01 00 00 00 B9 21 00 00 00 D3 E0 89 C3 B8 01 00 00 00 CD 80 => \
    Ended(2) ; MOV EAX, 1; MOV ECX, 33; SHL EAX, CL; MOV EBX, EAX; exit
BC 00 88 04 08 54 5B 81 EB F0 87 04 08 B8 01 00 00 00 CD 80 => \
    Ended(16) ; MOV ESP, 0x08048800; PUSH ESP; POP EBX; SUB EBX, 0x080487F0; exit
54 => Stopped(Access(4294967292), 134512640) ; PUSH ESP, where ESP is 0
8B 1D 00 00 00 00 => Stopped(Access(0), 134512640) ; MOV EBX, [0]
BC 00 88 04 08 B9 04 00 00 00 E8 07 00 00 00 B8 01 00 00 00 CD 80 01 CB 83 E9 01 75 F9 C3 => \
    Ended(10) ; The sum of 4, 3, 2 and 1 by a loop in a function: MOV ESP, 0x08048800; MOV ECX, 4; CALL; exit; ADD \
    EBX, ECX; SUB ECX, 1; JNE; RET
F4 => Stopped(Instruction, 134512640) ; HLT, which is no instruction of the machine
CD 81 => Stopped(Call, 134512640) ; INT 0x81
CD 80 => Stopped(Call, 134512640) ; INT 0x80, where EAX is 0
E9 FB 0F 00 00 => Stopped(Access(134516736), 134516736) ; JMP to the segment's end";

/// `read` of five bytes to 0x08048800; MOV EBX, [ECX]; ADD EBX, EAX; exit.
const READ: &str =
    "B8 03 00 00 00 B9 00 88 04 08 BA 05 00 00 00 CD 80 8B 19 01 C3 B8 01 00 00 00 CD 80";

/// What there is to read, whether the text may be written and the first call fails, and how it ends then.
const READS: &str = "\
AB, writable => Ended(66)
nothing, writable => Ended(0)
AB => Stopped(Access(134514688), 134512655)
AB, writable, no read => ReadFault";

/// `read` of no byte to 0; MOV EBX, EAX; exit.
const READ_NOTHING: &str = "B8 03 00 00 00 CD 80 89 C3 B8 01 00 00 00 CD 80";

/// `write` of the three bytes from 0x08048001; MOV EBX, EAX; exit.
const WRITE: &str =
    "B8 04 00 00 00 BB 01 00 00 00 B9 01 80 04 08 BA 03 00 00 00 CD 80 89 C3 B8 01 00 00 00 CD 80";

/// Whether the first call fails, how it ends then, and the bytes that are written.
const WRITES: &str = "\
all => Ended(3) => 04 00 00
no write => WriteFault";

/// `write` of two bytes from the last address on.
const WRITE_PAST_END: &str = "B8 04 00 00 00 BB 01 00 00 00 B9 FF 8F 04 08 BA 02 00 00 00 CD 80";

/// The numbers of the calls that fail: the first, or none.
fn failing(rt: &impl Abort, alloc: Global, first: bool) -> Vec<u64> {
    let calls: &[u64] = if first { &[1] } else { &[] };
    calls.to_vec(alloc).expect(rt, "numbers of calls")
}

/// In a segment of 4096 bytes the text ends so within 1000 steps, with just these bytes written.
fn expect_end(
    rt: &impl Abort,
    alloc: Global,
    text: &str,
    conditions: &str,
    end: &str,
    written: &str,
) {
    let text = bytes_of(rt, alloc, text);
    assert!(rt; text.len() <= 4096);
    let given: &[u8] = if conditions.contains("AB") {
        b"AB"
    } else {
        b""
    };
    let given = given.to_vec(alloc).expect(rt, "an input");
    let reads = failing(rt, alloc, conditions.contains("no read"));
    let writes = failing(rt, alloc, conditions.contains("no write"));
    let mut input = MemSource::new(given, reads);
    let mut out = MemSink::new(alloc, writes);
    let writable = conditions.contains("writable");
    let mut machine = machine(rt, alloc, &text, 4096, writable);
    let found = machine.run(&mut input, &mut out, 1000);
    expect_printed(rt, alloc, &found, end);
    let written = bytes_of(rt, alloc, written);
    expect(rt, &out.taken(), &written.as_slice(), end);
}

/// Where nothing is read or written, each text ends so.
#[test]
fn ends_by_its_instructions(rt: HostRuntime) {
    for row in rows_of(&rt, ENDS, 22) {
        let (text, end) = cells(&rt, row);
        expect_end(&rt, rt.alloc(), text, "writable", end, "");
    }
}

/// The text ends as each row says.
fn expect_ends(rt: &impl Abort, alloc: Global, text: &str, table: &str, rows: usize) {
    for row in rows_of(rt, table, rows) {
        let (conditions, told) = cells(rt, row);
        let (end, written) = told.split_once(" => ").unwrap_or((told, ""));
        expect_end(rt, alloc, text, conditions, end, written);
    }
}

#[test]
fn reads_and_writes(rt: HostRuntime) {
    let alloc = rt.alloc();
    expect_ends(&rt, alloc, READ, READS, 4);
    expect_ends(&rt, alloc, READ_NOTHING, "AB, no read => Ended(0)", 1);
    expect_ends(&rt, alloc, WRITE, WRITES, 2);
    let outside = "all => Stopped(Access(134516735), 134512660)";
    expect_ends(&rt, alloc, WRITE_PAST_END, outside, 1);
}

#[test]
fn makes_one_step(rt: HostRuntime) {
    let text = [0x90, 0xF4];
    let mut machine = machine(&rt, rt.alloc(), &text, 2, true);
    let mut input = SureSource::new(Vec::new(rt.alloc()));
    let mut sink = SureSink::new();
    let first = machine.step(&mut input, &mut sink);
    expect_printed(&rt, rt.alloc(), &first, "Going");
    let second = machine.step(&mut input, &mut sink);
    let end = "End(Stopped(Instruction, 134512641))";
    expect_printed(&rt, rt.alloc(), &second, end);
}
