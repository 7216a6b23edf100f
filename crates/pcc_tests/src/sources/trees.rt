//! Tables of sources, what their trees are, and the faults of those that have none. The expected values are
//! those of the grammar, by hand.

use crate::expected::{expect, expect_refusal};
use crate::programs::WORD_COUNTER;
use crate::sources::rows::parsed;
use crate::sources::texts::Text;
use crate::sources::tree_texts::push_unit;
use crate::tables::{cells, rows_of};
use pcc_base::Refusal;
use std::alloc::Global;
use std::process::Abort;

/// How many external declarations the source has, and its tree as a text.
fn shown_tree(rt: &impl Abort, alloc: Global, source: &str) -> (usize, String) {
    let (unit, _) = parsed(alloc, 0, source.as_bytes()).expect(rt, source);
    let mut out = Text::new(alloc);
    push_unit(&mut out, &unit);
    (unit.externals.len(), out.whole(rt, source))
}

/// Why the source has no tree, or nothing where it has one.
fn refusal_of(alloc: Global, source: &str) -> Option<Refusal> {
    parsed(alloc, 0, source.as_bytes()).err()
}

/// Sources and their trees.
const TREES: &str = "\
13 rows
 =>\x20
int f(int n); char *s; => declare f;declare s;
int a[3]={1,2,3,}; => declare a={1,2,3,};
int x=a-b-c,y=(int)x,z=f(x); => declare x=[[a Subtract b] Subtract c] y=[Cast x] z=f(x,);
int x=a=b=c?d:e?f:g; => declare x=[a Assign [b Assign [c ? d : [e ? f : g]]]];
int x=a+b*c<<d&&e||f; => declare x=[[[[a Add [b Multiply c]] ShiftLeft d] LogicalAnd e] LogicalOr f];
int x=-*p++[\"a\" \"b\"]; => declare x=[Minus [Dereference [[p Increment] at 'a''b']]];
int main(void){if(a)if(b)c;else d;} => main{{if a{if b{c}else{d}}}}
int main(void){if(a){if(b)c;}else d;} => main{{if a{{if b{c}}}else{d}}}
int main(void){if(a)while(b)if(c);else;else;} => main{{if a{while b{if c{}else{}}}else{}}}
int main(void){switch(x){case 1:case 2:f();break;default:return 0;}} \
    => main{{switch x{case 1:case 2:{f()}}{{break}}{default:{return 0}}}}
int main(void){for(int i=0;i<9;i++)continue;for(;;);} \
    => main{{for declare i=0;[i Less 9];[i Increment]{continue}}{for ;;{}}}
int main(void){int x;do x=1,y=2;while(0);return;} \
    => main{{declare x;}{do{[[x Assign 1] Comma [y Assign 2]]}0}{return }}";

/// The source of each row has this tree.
fn expect_trees(rt: &impl Abort, alloc: Global, table: &str) {
    for row in rows_of(rt, table) {
        let (source, shown) = cells(rt, row);
        let (_, out) = shown_tree(rt, alloc, source);
        expect(rt, &out.as_str(), &shown, row);
    }
}

#[test]
fn trees_of_sources(rt: HostRuntime) {
    expect_trees(&rt, rt.alloc(), TREES);
}

#[test]
fn word_counter(rt: HostRuntime) {
    let (externals, out) = shown_tree(&rt, rt.alloc(), WORD_COUNTER);
    let shown = out.as_str();
    let begun = shown.starts_with("declare putchar;declare getchar;declare counts;number{");
    let ended = shown.ends_with("text([[c Less 2] ? ' ' : '\n'],)}}}{return 0}}");
    expect(&rt, &(externals, begun, ended), &(6, true, true), shown);
}

/// Sources, and the place and the kind of their faults.
const FAULTS: &str = "\
19 rows
int main(void){return 1 2;} => 0:1:25 Syntax
int main(void){return 1 => 0:1:24 Syntax
int main(void){ => 0:1:16 Syntax
int => 0:1:4 Syntax
x; => 0:1:1 Syntax
int a[3]{} => 0:1:9 Syntax
int main(void){else;} => 0:1:16 Syntax
int main(void){if(a);else;else;} => 0:1:27 Syntax
int main(void){for(;){}} => 0:1:21 Syntax
int main(void){do;while(0)} => 0:1:27 Syntax
int main(void){case 1:;} => 0:1:16 Syntax
int main(void){switch(a){int x;}} => 0:1:26 Syntax
int main(void){switch(a){case 1:}} => 0:1:33 Syntax
int main(void){if(a)int x;} => 0:1:21 Syntax
int main(void){a+b=c;} => 0:1:19 Syntax
int main(void){a.b;} => 0:1:17 Syntax
int main(void){int f(void){}} => 0:1:27 Syntax
int main(void){goto x;} => 0:1:16 Unsupported(Goto)
int main(void){1 2;sizeof x;long y;} => 0:1:20 Unsupported(Sizeof)";

/// The source of each row has this fault.
fn expect_faults(rt: &impl Abort, alloc: Global, table: &str) {
    for row in rows_of(rt, table) {
        let (source, shown) = cells(rt, row);
        let found = refusal_of(alloc, source);
        expect_refusal(rt, alloc, found, shown, row);
    }
}

#[test]
fn faults_of_sources(rt: HostRuntime) {
    expect_faults(&rt, rt.alloc(), FAULTS);
}

/// The parts of sources, split by `|`, where one with a `*` stands so many times, and where each source is too deep,
/// if it is.
const NESTS: &str = "\
13 rows
int main(void){return |(*252|0|)*252|;} => none
int main(void){return |(*253|0|)*253|;} => 0:1:275 TooDeep
int main(void){return |(*300 => 0:1:275 TooDeep
int main(void){return |!*252|a|;} => none
int main(void){return |!*253|a|;} => 0:1:275 TooDeep
int main(void){return |a|-a*252|;} => none
int main(void){return |a|-a*253|;} => 0:1:528 TooDeep
int main(void)|{*255|}*255 => none
int main(void)|{*256|}*256 => 0:1:270 TooDeep
int main(void){|if(a)*253|;|} => none
int main(void){|if(a)*254|;|} => 0:1:1281 TooDeep
int x=|(*254|0|)*254|; => none
int x=|(*255|0|)*255|; => 0:1:261 TooDeep";

/// The source of these parts, if memory serves.
fn nested(rt: &impl Abort, alloc: Global, parts: &str) -> String {
    let mut out = String::new(alloc);
    for part in parts.split("|") {
        let (text, count) = part.split_once("*").unwrap_or((part, "1"));
        let count: usize = count.parse().expect(rt, part);
        for _ in 0..count {
            out.push_str(text).expect(rt, part);
        }
    }
    out
}

/// The source of each row is too deep at its place, or has a tree.
fn expect_nests(rt: &impl Abort, alloc: Global, table: &str) {
    for row in rows_of(rt, table) {
        let (parts, shown) = cells(rt, row);
        let source = nested(rt, alloc, parts);
        let found = refusal_of(alloc, source.as_str());
        expect_refusal(rt, alloc, found, shown, row);
    }
}

#[test]
fn deep_sources(rt: HostRuntime) {
    expect_nests(&rt, rt.alloc(), NESTS);
}

/// Sources over every rule of the grammar. The longest prefix that begins a program of height at most 256 ends before
/// the place, or the end stands there.
const SYNTAX_FAULTS: &str = "\
124 rows
int main(void){if(1)else;} => 0:1:21 Syntax
int main(void){return 0; => 0:1:25 Syntax
int main(void){int a[; } => 0:1:22 Syntax
int main(void){int x={1,,2};} => 0:1:25 Syntax
a => 0:1:1 Syntax
; => 0:1:1 Syntax
int main(void){} 1 => 0:1:18 Syntax
int static => 0:1:11 Syntax
static x int => 0:1:10 Syntax
int * => 0:1:6 Syntax
int *const => 0:1:11 Syntax
int * const *x; => 0:1:13 Syntax
int f( => 0:1:7 Syntax
int f() => 0:1:8 Syntax
int f(int => 0:1:10 Syntax
int f(int, => 0:1:11 Syntax
int f(int a b) => 0:1:13 Syntax
int f(int a[ => 0:1:13 Syntax
int f(int a[1] => 0:1:15 Syntax
int f(int a[1) => 0:1:14 Syntax
int f(int a[]int) => 0:1:14 Syntax
int f(int(void)) => 0:1:10 Syntax
int f(int a,); => 0:1:13 Syntax
int f(void){ => 0:1:13 Syntax
int f(void)return; => 0:1:12 Syntax
int f(void)=; => 0:1:13 Syntax
int f(void),{} => 0:1:13 Syntax
int f{} => 0:1:6 Syntax
int x => 0:1:6 Syntax
int x, => 0:1:7 Syntax
int x,; => 0:1:7 Syntax
int x= => 0:1:7 Syntax
int x=; => 0:1:7 Syntax
int x y; => 0:1:7 Syntax
int x=1 y; => 0:1:9 Syntax
int a[ => 0:1:7 Syntax
int a[1 => 0:1:8 Syntax
int a[1; => 0:1:8 Syntax
int a[]= => 0:1:9 Syntax
int a[1,2]; => 0:1:8 Syntax
int a[1][2]; => 0:1:9 Syntax
int a[1=2]; => 0:1:8 Syntax
int a={ => 0:1:8 Syntax
int a={1 => 0:1:9 Syntax
int a={1, => 0:1:10 Syntax
int a={}; => 0:1:8 Syntax
int a={1,};1 => 0:1:12 Syntax
int a={1 2}; => 0:1:10 Syntax
int a={{1}}; => 0:1:8 Syntax
int a={1,2}}; => 0:1:12 Syntax
int main(void){int} => 0:1:19 Syntax
int main(void){x int;} => 0:1:18 Syntax
int main(void){; => 0:1:17 Syntax
int main(void){{;} => 0:1:19 Syntax
int main(void){if;} => 0:1:18 Syntax
int main(void){if(;} => 0:1:19 Syntax
int main(void){if();} => 0:1:19 Syntax
int main(void){if(1;} => 0:1:20 Syntax
int main(void){if(1)} => 0:1:21 Syntax
int main(void){if(1)int x;} => 0:1:21 Syntax
int main(void){if(1);else} => 0:1:26 Syntax
int main(void){if(1);else;else;} => 0:1:27 Syntax
int main(void){while 1;} => 0:1:22 Syntax
int main(void){while(1){} => 0:1:26 Syntax
int main(void){while(1)if(1);else;else;} => 0:1:35 Syntax
int main(void){do} => 0:1:18 Syntax
int main(void){do;} => 0:1:19 Syntax
int main(void){do;while} => 0:1:24 Syntax
int main(void){do;while(1)} => 0:1:27 Syntax
int main(void){do if(1);while(1);else;} => 0:1:34 Syntax
int main(void){for;} => 0:1:19 Syntax
int main(void){for(1)} => 0:1:21 Syntax
int main(void){for(;1)} => 0:1:22 Syntax
int main(void){for(;;1;)} => 0:1:23 Syntax
int main(void){for(int i=0,;;);} => 0:1:28 Syntax
int main(void){for(int i=0;1);} => 0:1:29 Syntax
int main(void){for(;;)case 1:;} => 0:1:23 Syntax
int main(void){switch(1)case 1:;} => 0:1:25 Syntax
int main(void){switch(1){case;}} => 0:1:30 Syntax
int main(void){switch(1){case 1,2:;}} => 0:1:32 Syntax
int main(void){switch(1){case 1=2:;}} => 0:1:32 Syntax
int main(void){switch(1){case 1}} => 0:1:32 Syntax
int main(void){switch(1){default 1:;}} => 0:1:34 Syntax
int main(void){switch(1){default:}} => 0:1:34 Syntax
int main(void){switch(1){int x;}} => 0:1:26 Syntax
int main(void){switch(1){;int x;}} => 0:1:27 Syntax
int main(void){break 1;} => 0:1:22 Syntax
int main(void){continue} => 0:1:24 Syntax
int main(void){return return;} => 0:1:23 Syntax
int main(void){return;;return} => 0:1:30 Syntax
int main(void){1,;} => 0:1:18 Syntax
int main(void){a=;} => 0:1:18 Syntax
int main(void){(int)a=1;} => 0:1:22 Syntax
int main(void){a?b=1:c=2;} => 0:1:23 Syntax
int main(void){a?b:;} => 0:1:20 Syntax
int main(void){a?:b;} => 0:1:18 Syntax
int main(void){a?b,c} => 0:1:21 Syntax
int main(void){a^;} => 0:1:18 Syntax
int main(void){a==!=b;} => 0:1:19 Syntax
int main(void){a<b>;} => 0:1:20 Syntax
int main(void){a<<>>b;} => 0:1:19 Syntax
int main(void){a+-*;} => 0:1:20 Syntax
int main(void){a/b%;} => 0:1:20 Syntax
int main(void){(int;} => 0:1:20 Syntax
int main(void){(int*)} => 0:1:22 Syntax
int main(void){(int a)b;} => 0:1:21 Syntax
int main(void){(int)++(int)a;} => 0:1:24 Syntax
int main(void){-(int)~!;} => 0:1:24 Syntax
int main(void){a[];} => 0:1:18 Syntax
int main(void){a[1;} => 0:1:19 Syntax
int main(void){a[1,2]3;} => 0:1:22 Syntax
int main(void){a++b;} => 0:1:19 Syntax
int main(void){a++=1;b--c} => 0:1:25 Syntax
int main(void){\"a\" \"b\" 1;} => 0:1:24 Syntax
int main(void){1\"a\";} => 0:1:17 Syntax
int main(void){();} => 0:1:17 Syntax
int main(void){(1;} => 0:1:18 Syntax
int main(void){f(;} => 0:1:18 Syntax
int main(void){f(1,);} => 0:1:20 Syntax
int main(void){f(1 2);} => 0:1:20 Syntax
int main(void){f(1)(2);} => 0:1:20 Syntax
int main(void){(f)(2);} => 0:1:19 Syntax
int main(void){a->b;} => 0:1:17 Syntax
int f(int,...); => 0:1:11 Syntax";

#[test]
fn faults_of_each_rule(rt: HostRuntime) {
    expect_faults(&rt, rt.alloc(), SYNTAX_FAULTS);
}

/// Parts as in `NESTS`, of heights about 256. No program of height at most 256 goes on with the token at the place; it
/// is too deep where a higher one does.
const DEEP_FAULTS: &str = "\
80 rows
int main(void){return |(*252|0 1 => 0:1:277 Syntax
int main(void){return |(*252|-0 => 0:1:275 TooDeep
int main(void){return |(*252|f() => 0:1:278 Syntax
int main(void){return |(*251|f(1 2 => 0:1:278 Syntax
int main(void){return |(*252|f(1 => 0:1:277 TooDeep
int main(void){return |(*251|a+b => 0:1:277 Syntax
int main(void){return |(*252|a+b => 0:1:276 TooDeep
int main(void){return |(*252|a=b => 0:1:276 TooDeep
int main(void){return |(*252|a,b => 0:1:276 TooDeep
int main(void){return |(*252|a?b:c => 0:1:276 TooDeep
int main(void){return |(*251|a?b:c 1 => 0:1:280 Syntax
int main(void){return |(*252|a[ => 0:1:276 TooDeep
int main(void){return |(*252|a++ => 0:1:276 TooDeep
int main(void){return |(*251|a++++ => 0:1:277 TooDeep
int main(void){return |(*252|\"a\" \"b\" \"c\"] => 0:1:286 Syntax
int main(void){return |(*252|(int) => 0:1:275 TooDeep
int main(void){return |(*251|(int)a b => 0:1:281 Syntax
int main(void){return |-*252|a|;} => none
int main(void){return |-*253|a|;} => none
int main(void){return |-*253|; => 0:1:276 Syntax
int main(void){return |++*253|a => 0:1:527 TooDeep
int main(void){return |(int)*252|a 1 => 0:1:1285 Syntax
int main(void){return |(int)*253|a => 0:1:1283 TooDeep
int main(void){return a|+a*252|;} => none
int main(void){return a|+a*253|;} => 0:1:528 TooDeep
int main(void){return a|,a*253|;} => 0:1:528 TooDeep
int main(void){return a|++*252|;} => none
int main(void){return a|++*253|;} => 0:1:528 TooDeep
int main(void){return a|[0]*252|;} => none
int main(void){return a|[0]*253|;} => 0:1:780 TooDeep
int main(void){return |a?*253|b => 0:1:528 TooDeep
int main(void){return |a?b:*253|c;} => 0:1:1032 TooDeep
int main(void){return |a=*252|b;} => none
int main(void){return |a=*253|b;} => 0:1:528 TooDeep
int main(void){return |f(*252|1 => 0:1:528 Syntax
int main(void){return |f(*253|1 => 0:1:529 TooDeep
int main(void)|{*255|;} => 0:1:270 TooDeep
int main(void)|{*254|;}|1 => 0:1:272 Syntax
int main(void)|{*254|int x; => 0:1:275 Syntax
int main(void)|{*255|int x; => 0:1:270 TooDeep
int main(void)|{*253|int x=1; => 0:1:276 Syntax
int main(void)|{*254|int x=1; => 0:1:274 TooDeep
int main(void)|{*253|int x=1+1; => 0:1:275 TooDeep
int main(void)|{*255|break; => 0:1:270 TooDeep
int main(void)|{*254|break} => 0:1:274 Syntax
int main(void)|{*254|return 1; => 0:1:276 TooDeep
int main(void)|{*253|return 1+; => 0:1:276 TooDeep
int main(void)|{*254|case => 0:1:269 Syntax
int main(void)|{*255|else => 0:1:270 Syntax
int main(void)|{*254|if( => 0:1:269 TooDeep
int main(void)|{*254|for(;;) => 0:1:269 TooDeep
int main(void)|{*253|for(;;);1 => 0:1:277 Syntax
int main(void)|{*254|do => 0:1:269 TooDeep
int main(void)|{*253|switch(1){default:;}1 => 0:1:289 Syntax
int main(void)|{*254|switch( => 0:1:269 TooDeep
int main(void){|if(1)*253|;|} => none
int main(void){|if(1)*254|;|} => 0:1:1281 TooDeep
int main(void){|while(1)*254|;} => 0:1:2040 TooDeep
int main(void){|for(;;)*254|;} => 0:1:1787 TooDeep
int main(void){|do *254|;} => 0:1:775 TooDeep
int main(void){|switch(1){*254|;} => 0:1:2546 TooDeep
int main(void){|if(1);else *254|;} => 0:1:2799 TooDeep
int x=|(*253|0|)*253|;1 => 0:1:515 Syntax
int x=|(*254|0+ => 0:1:262 TooDeep
int x={1,|(*254|0+ => 0:1:265 TooDeep
int a[|(*254|0|] => 0:1:262 Syntax
int a[|(*255|0|)*255|]; => 0:1:261 TooDeep
int f(int a[|(*255|0 => 0:1:267 TooDeep
int main(void){for(int i=|(*252|0|)*252|;;);} => 0:1:277 TooDeep
int main(void){for(int i=|(*253|0 => 0:1:277 TooDeep
int main(void){switch(1){case |(*252|0 => 0:1:284 Syntax
int main(void){switch(1){case |(*253|0 => 0:1:283 TooDeep
int main(void){return |(*256 => 0:1:275 TooDeep
int main(void){return |(*253|) => 0:1:275 TooDeep
int main(void){return |(*254|1 => 0:1:275 TooDeep
int main(void){return |(*252|) => 0:1:275 Syntax
int main(void){return |(*252|] => 0:1:275 Syntax
int main(void){return |(*252|, => 0:1:275 Syntax
int main(void)|{*257 => 0:1:270 TooDeep
int main(void)|{*255|}*254 => 0:1:524 Syntax";

#[test]
fn faults_of_heights(rt: HostRuntime) {
    expect_nests(&rt, rt.alloc(), DEEP_FAULTS);
}
