//! Sources that are refused: `compile` and `eval` tell the same fault or limit, and nothing is written.

use crate::expected::expect;
use crate::runs::{expect_commands, expect_told, files_with, run_line};
use crate::tables::{cells, rows_of, unfolded};
use std::alloc::{AllocError, Global};
use std::process::Abort;

/// The source is refused with this status and this line.
fn expect_refusal(rt: &impl Abort, alloc: Global, source: &str, told: &str) {
    let mut files = files_with(rt, alloc, source);
    for words in ["compile -o a a.c", "eval a.c"] {
        let answer = run_line(rt, alloc, words, &mut files, 0);
        expect_told(rt, alloc, &answer, told, words);
    }
    for name in ["a", "a.map"] {
        expect(rt, &files.content(name), &None, told);
    }
}

/// The source of each row is refused.
fn expect_refusals(rt: &impl Abort, alloc: Global, table: &str) {
    for row in rows_of(rt, table) {
        let (source, told) = cells(rt, row);
        let source = unfolded(alloc, source).expect(rt, row);
        expect_refusal(rt, alloc, source.as_str(), told);
    }
}

/// Texts without tokens or a tree.
const TEXTS: &str = "\
9 rows
int main(void){return @;} => 1 a.c:1:23: 1 BadByte$
int main(void){return 08;} => 1 a.c:1:23: 2 BadNumber$
int main(void){return 2147483648;} => 1 a.c:1:23: 2 BadNumber$
int main(void){return 1;} /* x => 1 a.c:1:27: 3 Unclosed$
int main(void){return '\\q';} => 1 a.c:1:23: 4 BadEscape$
int main(void){return 1} => 1 a.c:1:24: 5 Syntax$
int main(void){return 1 2;} => 1 a.c:1:25: 5 Syntax$
int main(void){$ => 1 a.c:2:1: 5 Syntax$
int main(void){goto x;} => 1 a.c:1:16: 6 Unsupported goto$";

/// Trees without a typed program, and typed programs above a limit.
const TREES: &str = "\
13 rows
 => 1 a.c:1:1: 18 NoMain$
int main(void){return x;} => 1 a.c:1:23: 9 Undeclared$
int x=1; int x; static int y; int main(void){extern int x; return 0;} => 1 a.c:1:46: 10 Type$
int main(void){int a[2]={1,2,3};return 0;} => 1 a.c:1:30: 14 Initialiser$
int f(int n); int main(void){return f(20);} => 1 a.c:1:37: 19 NoBody$
int f(void)=1+x; => 1 a.c:1:15: 9 Undeclared$
int f(void)=3; => 1 a.c:1:13: 10 Type$
int main(void){int i; int i(int x); return 0;} => 1 a.c:1:27: 8 Redeclared$
int *s[]; => 1 a.c:1:6: 17 PointerUse$
int *f(void v); => 1 a.c:1:6: 17 PointerUse$
int main(void){char a[16221]; return 0;} => 3 limit 22 Frame main 16388$
char g[16777213]; int main(void){return 0;} => 3 limit 21 Arrays 16777220$
int g[2000000000]; int main(void){return 0;} => 3 limit 21 Arrays 8000000004$";

#[test]
fn refuses_sources(rt: HostRuntime) {
    let alloc = rt.alloc();
    expect_refusals(&rt, alloc, TEXTS);
    expect_refusals(&rt, alloc, TREES);
}

/// These texts, each so many times over.
fn repeated(alloc: Global, parts: &[(&str, u32)]) -> Result<String, AllocError> {
    let mut all = String::new(alloc);
    for (text, count) in parts {
        for _ in 0..*count {
            all.push_str(text)?;
        }
    }
    Ok(all)
}

#[test]
fn refuses_long_sources(rt: HostRuntime) {
    let alloc = rt.alloc();
    let semicolons = repeated(alloc, &[(";", 65_537)]).expect(&rt, "a source");
    expect_refusal(&rt, alloc, semicolons.as_str(), "3 limit 20 Tokens 65537$");
    let parts = [("int main(void){return ", 1), ("(", 300)];
    let deep = repeated(alloc, &parts).expect(&rt, "a source");
    expect_refusal(&rt, alloc, deep.as_str(), "1 a.c:1:275: 7 TooDeep$");
}

/// The parts of a source whose tree has the greatest height.
const DEEP_PARTS: [(&str, u32); 5] = [
    ("int main(void){return ", 1),
    ("(", 252),
    ("0", 1),
    (")", 252),
    (";}", 1),
];

/// Commands over it.
const DEEPEST: &str = "\
2 rows
eval a.c => 0 exit 0$
compile -o a a.c => 0";

#[test]
fn accepts_the_deepest(rt: HostRuntime) {
    let alloc = rt.alloc();
    let source = repeated(alloc, &DEEP_PARTS).expect(&rt, "a source");
    let mut files = files_with(&rt, alloc, source.as_str());
    expect_commands(&rt, alloc, &mut files, DEEPEST);
}
