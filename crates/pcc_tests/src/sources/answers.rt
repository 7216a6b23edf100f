//! Each row of the tables, checked.

use crate::expected::expect_refusal;
use crate::sources::rows::{Row, answer, read};
use crate::sources::{declarations, expressions, statements, typed};
use crate::tables::{cells, rows_of};
use pcc_base::{Refusal, Span};
use std::alloc::Global;
use std::process::Abort;

/// Where the `@` of a row stands, and why its program is refused, if it is.
fn answer_of(rt: &impl Abort, alloc: Global, text: &str) -> (Span, Option<Refusal>) {
    let Row { files, at } = read(alloc, text).expect(rt, text);
    (at, answer(alloc, files.as_slice()))
}

/// The program of each row has a least fault of this kind, at the place of its `@`.
fn expect_faults(rt: &impl Abort, alloc: Global, table: &str) {
    for row in rows_of(rt, table) {
        let (text, kind) = cells(rt, row);
        let (at, found) = answer_of(rt, alloc, text);
        let wanted = format!(in alloc; "{}:{}:{} {kind}", at.file, at.line, at.col);
        expect_refusal(rt, alloc, found, wanted.expect(rt, row).as_str(), row);
    }
}

#[test]
fn faults(rt: HostRuntime) {
    let alloc = rt.alloc();
    expect_faults(&rt, alloc, declarations::FIRST_ROWS);
    expect_faults(&rt, alloc, declarations::SPECIFIERS);
    expect_faults(&rt, alloc, declarations::OBJECTS);
    expect_faults(&rt, alloc, declarations::PARAMETERS);
    expect_faults(&rt, alloc, declarations::DECLARATORS);
    expect_faults(&rt, alloc, declarations::ARRAY_SIZES);
    expect_faults(&rt, alloc, declarations::REDECLARATIONS);
    expect_faults(&rt, alloc, declarations::FILES);
    expect_faults(&rt, alloc, declarations::INITIALISERS);
    expect_faults(&rt, alloc, expressions::EXPRESSIONS);
    expect_faults(&rt, alloc, expressions::CALLS);
    expect_faults(&rt, alloc, statements::STATEMENTS);
    expect_faults(&rt, alloc, statements::LEAST);
}

/// The program of each row is typed, and within the limits.
fn expect_typed(rt: &impl Abort, alloc: Global, table: &str) {
    for row in rows_of(rt, table) {
        let (_, found) = answer_of(rt, alloc, row);
        expect_refusal(rt, alloc, found, "none", row);
    }
}

#[test]
fn typed_programs(rt: HostRuntime) {
    expect_typed(&rt, rt.alloc(), typed::TYPED);
}

/// Programs, and the limit that each is above: that on static objects first, then the first function's.
const LIMITS: &str = "\
5 rows
int main(void){char a[16221]; return 0;} => Limit(Frame(0, 16388))
int f(void){return 0;}$int f(void); int main(void){char a[16221]; return f();} => Limit(Frame(1, 16388))
char g[16777213]; int main(void){return 0;} => Limit(Arrays(16777220))
char g[16777213]; int main(void){char a[16221]; return 0;} => Limit(Arrays(16777220))
int g[2000000000]; int main(void){return 0;} => Limit(Arrays(8000000004))";

/// The program of each row is above this limit.
fn expect_limits(rt: &impl Abort, alloc: Global, table: &str) {
    for row in rows_of(rt, table) {
        let (text, limit) = cells(rt, row);
        let (_, found) = answer_of(rt, alloc, text);
        expect_refusal(rt, alloc, found, limit, row);
    }
}

#[test]
fn limits(rt: HostRuntime) {
    expect_limits(&rt, rt.alloc(), LIMITS);
}
