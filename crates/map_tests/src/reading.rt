//! Texts of maps, read by hand.

use map_reader::{MapRefusal, read_map};
use std::alloc::Global;
use std::process::Abort;

/// A text with each kind of line: two blocks, places of each kind, the greatest numbers and the least.
static MAP: &str = "\
pcc map 1
object 0 08049008 3 1
function 0 main frame 48
array 0 -24 2 2
var 0 2 p.base
var 1 2 p.index
var 2 2 n
var 3 1 -
block 0
point 4294967295 08048026 turn
board bb bu uu bb pieces X2:0 Z2:1 Y1:3
before 0=eax 3=cl
after 1=ebx 3=[ebp-20]
spilled 3 1
point 1 08048027 const 2 -2147483648
board bb bb bb bb pieces
before
after 2=[ebp-2147483648]
spilled
point 2 0804802d branch gt 0 1 1 1
board bb bb bb bb pieces X2:0 X2:1
before 0=edx 1=ebx
after
spilled
block 1
point 3 08048040 call 2 0 0 1
board bb uu uu uu pieces
before 3=ah
after 3=bh
spilled
point 4 08048044 load 16 2 0 1
board bb bb bb bb pieces X2:1 X2:2 Z2:2
before 0=ecx 1=ebx 2=eax
after 2=eax
spilled
point 5 08048060 return 2
board bb bb bb bb pieces X2:2
before 2=eax
after
spilled
end
";

/// What stands in the text once, and what is put in its place, so that it is still the text of a map.
const MAPS: &str = "\
turn => const 2 -2147483648
turn => mark 4294967295
turn => const 3 2147483647
turn => copy 0 1
turn => wide 0 3
turn => zero 0 3
turn => low 3 0
turn => low16 0 1
turn => shl 0 1 3
turn => shr 0 1 3
turn => div 2 0 1
turn => udiv 2 0 1
turn => urem 2 0 1
turn => set le 2 0 1
turn => setu lt 2 0 1
turn => setu ge 2 0 1
turn => frame 0 0
turn => static 0 0
turn => store 8 0 1 2
turn => get 32 2 0
turn => put 16 0 2
turn => clear 0
turn => param 2 4294967295
turn => call - 0
turn => putchar 2 0
turn => getchar 2
turn => same 0 1
point 4 0 => point 0 0
branch gt 0 1 1 1 => branch gt 0 1 0 1
branch gt 0 1 1 1 => branchu gt 0 1 0 1
branch gt 0 1 1 1 => branchu le 0 1 0 1
branch gt 0 1 1 1 => jump 1
branch gt 0 1 1 1 => exit 0
branch gt 0 1 1 1 => return -
08049008 3 1 => 00000000 4294967295 4
frame 48 => frame 4294967295
array 0 -24 2 2 => array 0 -2147483648 1 1
p.base => _9Zz.base
var 2 2 n => var 2 2 -
X2:0 Z2:1 Y1:3 => Y2:0 Y2:1 Z1:3
bb pieces X2:0 Z2:1 Y1:3 => bb pieces
3=cl => 3=[ebp-1]
3=ah => 3=dl
spilled 3 1 => spilled 1 3 0 2";

/// What stands in the text once, and what is put in its place, so that it is the text of no map.
const CHANGES: &str = "\
pcc map 1 => pcc map 2
object 0 => object 1
object 0 08049008 3 1 => object 0 08049008 0 1
08049008 3 1 => 08049008 3 3
08049008 3 1 => 08049008 3
08049008 3 1 => 08049008 4294967296 1
08049008 => 0804900A
function 0 main => function 1 main
function 0 main => function 0 7main
function 0 main => function 0 a-b
function 0 main frame => function 0  frame
frame 48 => frame 07
frame 48 => frame -0
frame 48 => frame +48
array 0 -24 => array 0 -024
array 0 -24 => array 0 24
array 0 -24 => array 0 -0
array 0 -24 => array 0 -2147483649
array 0 -24 2 2 => array 0 -24 0 2
array 0 -24 2 2 => array 0 -24 2 3
array 0 -24 => array 1 -24
var 1 2 => var 01 2
var 1 2 => var 2 2
var 3 1 => var 3 4
p.base => p.bases
p.base => .base
p.base => 2.base
p.base => p.base.base
block 0 => block 1
block 1 => block 2
point 4294967295 => point 4294967296
point 4294967295 => point 1
point 4294967295 => point 5
point 4 0 => point 2 0
0804802d => 0804802D
08048040 => 8048040
-2147483648 => -2147483649
const 2 -2147483648 => const 2 2147483648
const 2 -2147483648 => const 2 -0
const 2 -2147483648 => const 4 -2147483648
bb bu uu bb => bb bu uu
bb bu uu bb => bb bu uu bb bb
bb bu uu bb => bb bu ux bb
0=eax 3=cl => 3=cl 0=eax
0=eax 3=cl => 0=eax 0=ebx
0=eax 3=cl => 0=eax  3=cl
0=eax 3=cl => 0=eax 3=cl\x20
3=cl => 3=esi
3=cl => 3=ecx
3=cl => 4=cl
0=eax => 0=al
1=ebx 3=[ebp-20] => 3=[ebp-20] 1=ebx
1=ebx 3=[ebp-20] => 3=[ebp-20] 3=[ebp-24]
[ebp-20] => [ebp-020]
[ebp-20] => [ebp-0]
[ebp-20] => [ebp+20]
[ebp-20] => [esp-20]
[ebp-2147483648] => [ebp-2147483649]
X2:0 Z2:1 Y1:3 => X2:0 Y1:3 Z2:1
X2:0 Z2:1 Y1:3 => Y2:0 Z2:0 Y1:3
X2:0 Z2:1 Y1:3 => Z2:0 X2:0 Y1:3
X2:0 Z2:1 Y1:3 => X2:0 X2:0 Y1:3
X2:0 Z2:1 Y1:3 => X2:0 Z2:0 Z2:0
X2:0 Z2:1 Y1:3 => X2:0 Z2:1 Y1:4
Y1:3 => W1:3
Y1:3 => Y2:3
Z2:1 => Z1:1
Z2:1 => Z3:1
spilled 3 1 => spilled 3 3
spilled 3 1 => spilled 3 1 3
spilled 3 1 => spilled 3 4
spilled 3 1 => spill 3 1
branch gt => branch up
branch gt 0 1 1 1 => branch gt 0 1 1 2
branch gt 0 1 1 1 => branch gt 0 3 1 1
branch gt 0 1 1 1 => branchu ne 0 1 1 1
branch gt 0 1 1 1 => branchu gt 0 1 1 2
branch gt 0 1 1 1 => branchu gt 0 3 1 1
branch gt 0 1 1 1 => setu gt 2 0 1
branch gt 0 1 1 1 => jump 2
branch gt 0 1 1 1 => turn
branch gt 0 1 1 1 => return 3
branch gt 0 1 1 1 => return 4
turn => jump 1
turn => exit 0
turn => return -
turn => turn 0
turn => mark
turn => mark 4294967296
turn => copy 0 3
turn => copy 0 4
turn => wide 3 3
turn => zero 3 3
turn => zero 0 1
turn => low 0 0
turn => add 0 1 3
turn => shl 0 1 1
turn => sar 0 1 4
turn => shr 0 1 1
turn => udiv 0 1 3
turn => urem 3 0 1
turn => setu eq 2 0 1
turn => setu lt 2 0
turn => branchu lt 0 1 1 1
turn => frame 0 1
turn => frame 3 0
turn => static 0 1
turn => get 32 2 1
turn => put 16 1 2
turn => clear 1
turn => param 3 0
turn => getchar 3
turn => same 0 3
load 16 2 0 1 => load 64 2 0 1
load 16 2 0 1 => load 16 2 0 3
call 2 0 0 1 => call 2 1 0 1
call 2 0 0 1 => call 3 0 0 1
call 2 0 0 1 => call 2 0 0 3
call 2 0 0 1 => call 2 0 0 1,
call 2 0 0 1 => exit 0
return 2 => turn
end => END";

/// The map that the compiler writes of `int main(void){int x=70; x=x+1; putchar(x); return x+229;}`.
static WRITTEN: &str = "\
pcc map 1
function 0 main frame 16
var 0 2 x
var 1 2 -
var 2 2 -
var 3 2 -
var 4 2 -
var 5 1 -
var 6 2 -
var 7 2 -
var 8 2 -
var 9 2 -
var 10 1 -
var 11 2 -
var 12 2 -
var 13 2 -
var 14 2 -
var 15 1 -
var 16 2 -
var 17 2 -
var 18 2 -
var 19 2 -
var 20 1 -
var 21 2 -
var 22 2 -
var 23 2 -
var 24 2 -
var 25 1 -
var 26 2 -
var 27 2 -
var 28 2 -
var 29 2 -
var 30 1 -
block 0
point 0 08048026 turn
board bb bb bb bb pieces
before
after
spilled
point 1 08048027 mark 0
board bb bb bb bb pieces
before
after
spilled
point 2 08048028 const 0 70
board bb bb bb bb pieces Z2:0
before
after 0=eax
spilled
point 3 0804802d mark 1
board bb bb bb bb pieces Y2:0
before 0=eax
after 0=eax
spilled
point 4 0804802e const 7 1
board bb bb bb bb pieces Y2:0 Z2:7
before 0=eax
after 0=eax 7=ebx
spilled
point 5 08048033 add 0 0 7
board bb bb bb bb pieces X2:0 Z2:0 X2:7
before 0=eax 7=ebx
after 0=eax
spilled
point 6 08048035 mark 2
board bb bb bb bb pieces Y2:0
before 0=eax
after 0=eax
spilled
point 7 08048038 putchar 2 0
board uu bb uu uu pieces Y2:0
before 0=ebx
after 0=ebx 2=eax
spilled
point 8 0804803f mark 3
board bb bb bb bb pieces Y2:0
before 0=ebx
after 0=ebx
spilled
point 9 08048040 const 7 229
board bb bb bb bb pieces Y2:0 Z2:7
before 0=ebx
after 0=ebx 7=eax
spilled
point 10 08048045 add 2 0 7
board bb bb bb bb pieces X2:0 Z2:2 X2:7
before 0=ebx 7=eax
after 2=ebx
spilled
point 11 08048047 return 2
board bb bb bb bb pieces X2:2
before 2=ebx
after
spilled
end
";

/// Whether a text is that of a map.
fn is_read(rt: &impl Abort, alloc: Global, text: &[u8]) -> bool {
    match read_map(alloc, text) {
        Ok(_) => true,
        Err(MapRefusal::NotMap) => false,
        Err(MapRefusal::NoMemory) => panic!(rt; "no memory for a map"),
    }
}

/// The text with a change.
fn changed(rt: &impl Abort, alloc: Global, row: &str) -> Vec<u8> {
    let (old, new) = row.split_once(" => ").expect(rt, row);
    let (before, after) = MAP.split_once(old).expect(rt, row);
    let mut text = before.as_bytes().to_vec(alloc).expect(rt, row);
    text.extend_from_slice(new.as_bytes()).expect(rt, row);
    text.extend_from_slice(after.as_bytes()).expect(rt, row);
    text
}

/// The texts of maps are read: one with each kind of line, those of nothing, and one that the compiler writes.
#[test]
fn reads_maps(rt: HostRuntime) {
    assert!(&rt; is_read(&rt, rt.alloc(), MAP.as_bytes()));
    assert!(&rt; is_read(&rt, rt.alloc(), WRITTEN.as_bytes()));
    assert!(&rt; is_read(&rt, rt.alloc(), b"pcc map 1\nend\n"));
    assert!(&rt; is_read(&rt, rt.alloc(), b"pcc map 1\nfunction 0 f frame 0\nend\n"));
    assert!(&rt;
        is_read(
            &rt,
            rt.alloc(),
            b"pcc map 1\nfunction 0 f frame 0\nvar 0 2 x.base\nend\n"
        )
    );
}

/// A text with a changed word that still keeps the rules is read.
#[test]
fn reads_changed_maps(rt: HostRuntime) {
    for row in MAPS.lines() {
        let text = changed(&rt, rt.alloc(), row);
        assert!(&rt; is_read(&rt, rt.alloc(), text.as_slice()), "{row}");
    }
}

/// A text with a changed word that no map has is that of no map.
#[test]
fn refuses_changed_maps(rt: HostRuntime) {
    for row in CHANGES.lines() {
        let text = changed(&rt, rt.alloc(), row);
        assert!(&rt; !is_read(&rt, rt.alloc(), text.as_slice()), "{row}");
    }
}

/// No front of a map's text but the whole is the text of a map.
fn expect_no_front(rt: &impl Abort, alloc: Global, text: &[u8]) {
    for length in 0..text.len() {
        let front = text.get(..length).expect(rt, "a front");
        assert!(rt; !is_read(rt, alloc, front), "{length}");
    }
}

/// No front of a text with each kind of line is the text of a map, nor one of a text that the compiler writes.
#[test]
fn refuses_fronts_of_maps(rt: HostRuntime) {
    expect_no_front(&rt, rt.alloc(), MAP.as_bytes());
    expect_no_front(&rt, rt.alloc(), WRITTEN.as_bytes());
}

/// A block without a point, and a line without its newline, make no map.
#[test]
fn refuses_texts(rt: HostRuntime) {
    assert!(&rt;
        !is_read(
            &rt,
            rt.alloc(),
            b"pcc map 1\nfunction 0 f frame 0\nblock 0\nend\n"
        )
    );
    assert!(&rt; !is_read(&rt, rt.alloc(), b"pcc map 1\nend"));
    assert!(&rt; !is_read(&rt, rt.alloc(), b"pcc map 1\nend\n\n"));
    assert!(&rt; !is_read(&rt, rt.alloc(), b"pcc map 2\n"));
    assert!(&rt; !is_read(&rt, rt.alloc(), b""));
}
