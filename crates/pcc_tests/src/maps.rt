//! The whole text of a map, beside the image as GNU objdump disassembles it.

use crate::expected::expect;
use crate::runs::{expect_answer, expect_commands, files_with, run_line};

/// A local that is declared, assigned, written and returned.
const PROGRAM: &str = "int main(void){int x=70; x=x+1; putchar(x); return x+229;}";

/// The program's map: `x` is in EAX, and over the call of `putchar`, which takes that register, in EBX; the temporaries
/// behind it stand at no statement, and each statement is at a NOP of the image.
const MAP: &str = "pcc map 1
function 0 main frame 16
var 0 2 x
var 1 2 -
var 2 2 -
var 3 2 -
var 4 2 -
var 5 1 -
var 6 2 -
var 7 2 -
var 8 2 -
var 9 2 -
var 10 1 -
var 11 2 -
var 12 2 -
var 13 2 -
var 14 2 -
var 15 1 -
var 16 2 -
var 17 2 -
var 18 2 -
var 19 2 -
var 20 1 -
var 21 2 -
var 22 2 -
var 23 2 -
var 24 2 -
var 25 1 -
var 26 2 -
var 27 2 -
var 28 2 -
var 29 2 -
var 30 1 -
block 0
point 0 08048026 turn
board bb bb bb bb pieces
before
after
spilled
point 1 08048027 mark 0
board bb bb bb bb pieces
before
after
spilled
point 2 08048028 const 0 70
board bb bb bb bb pieces Z2:0
before
after 0=eax
spilled
point 3 0804802d mark 1
board bb bb bb bb pieces Y2:0
before 0=eax
after 0=eax
spilled
point 4 0804802e const 7 1
board bb bb bb bb pieces Y2:0 Z2:7
before 0=eax
after 0=eax 7=ebx
spilled
point 5 08048033 add 0 0 7
board bb bb bb bb pieces X2:0 Z2:0 X2:7
before 0=eax 7=ebx
after 0=eax
spilled
point 6 08048035 mark 2
board bb bb bb bb pieces Y2:0
before 0=eax
after 0=eax
spilled
point 7 08048038 putchar 2 0
board uu bb uu uu pieces Y2:0
before 0=ebx
after 0=ebx 2=eax
spilled
point 8 0804803f mark 3
board bb bb bb bb pieces Y2:0
before 0=ebx
after 0=ebx
spilled
point 9 08048040 const 7 229
board bb bb bb bb pieces Y2:0 Z2:7
before 0=ebx
after 0=ebx 7=eax
spilled
point 10 08048045 add 2 0 7
board bb bb bb bb pieces X2:0 Z2:2 X2:7
before 0=ebx 7=eax
after 2=ebx
spilled
point 11 08048047 return 2
board bb bb bb bb pieces X2:2
before 2=ebx
after
spilled
end
";

/// The text of an image begins at this offset of its file.
const TEXT: usize = 4096;

/// Offsets of the image's file, the bytes there, and what they spell.
const PLACES: [(usize, &[u8], &str); 5] = [
    (
        TEXT + 0x1d,
        b"\x55\x89\xe5\x53\x56\x57\x8d\x65\xf0\x90\x90",
        "push %ebp; mov %esp,%ebp; push %ebx; push %esi; push %edi; lea -0x10(%ebp),%esp; nop; nop",
    ),
    (
        TEXT + 0x28,
        b"\xb8\x46\x00\x00\x00\x90",
        "mov $0x46,%eax; nop",
    ),
    (
        TEXT + 0x2e,
        b"\xbb\x01\x00\x00\x00\x01\xd8\x90",
        "mov $0x1,%ebx; add %ebx,%eax; nop",
    ),
    (
        TEXT + 0x36,
        b"\x89\xc3\x53\xe8\x16\x00\x00\x00\x5f\x90",
        "mov %eax,%ebx; push %ebx; call; pop %edi; nop",
    ),
    (
        TEXT + 0x40,
        b"\xb8\xe5\x00\x00\x00\x01\xc3\x89\xd8\x8b\x5d\xfc",
        "mov $0xe5,%eax; add %eax,%ebx; mov %ebx,%eax; mov -0x4(%ebp),%ebx",
    ),
];

/// The commands: the words, the status and the line, and the output.
const LINES: &str = "\
2 rows
compile -o a a.c => 0
run a => 0 exit 44$ => G";

#[test]
fn maps_the_image(rt: HostRuntime) {
    let alloc = rt.alloc();
    let mut files = files_with(&rt, alloc, PROGRAM);
    expect_commands(&rt, alloc, &mut files, LINES);
    let map = files.content("a.map").unwrap_or(b"");
    expect(
        &rt,
        &std::str::from_utf8(map).unwrap_or(""),
        &MAP,
        "the map",
    );
    let image = files.content("a").unwrap_or(b"");
    for (at, bytes, spelling) in PLACES {
        let text = image.get(at..).unwrap_or(b"");
        expect(&rt, &text.starts_with(bytes), &true, spelling);
    }
}

/// `board` puts the map on the output, asks nothing of standard error, and writes no file.
#[test]
fn prints_the_map(rt: HostRuntime) {
    let alloc = rt.alloc();
    let mut files = files_with(&rt, alloc, PROGRAM);
    let answer = run_line(&rt, alloc, "board a.c", &mut files, 1);
    expect_answer(&rt, &answer, MAP, 0, "", "board a.c");
    let is_written = files.content("a.map").is_some();
    expect(&rt, &is_written, &false, "a.map");
}
