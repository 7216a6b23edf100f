//! `int main(void){int x=10;return SUM;}` for a few sums, with the value that C gives, or None where the file has no
//! typed program.

use crate::expected::expect_shown;
use crate::sources::rows::{Row, read, typed};
use crate::tables::{cells, rows_of};
use c_tree::{BinaryOp, Expression, Program, Statement};
use std::alloc::Global;
use std::process::Abort;

/// A sum, a difference or a product.
fn combined(op: BinaryOp, x: i32, y: i32) -> i32 {
    match op {
        BinaryOp::Add => x.wrapping_add(y),
        BinaryOp::Subtract => x.wrapping_sub(y),
        BinaryOp::Multiply => x.wrapping_mul(y),
        _ => 0,
    }
}

/// The value of a sum or product where each local is 10.
fn value_of(e: &Expression) -> i32 {
    match e {
        Expression::Constant(_, n) => *n,
        Expression::Read(_, _) => 10,
        Expression::Binary(_, op, left, right) => combined(*op, value_of(left), value_of(right)),
        _ => 0,
    }
}

fn returned(program: &Program) -> Option<i32> {
    let function = program.functions.as_slice().first()?;
    match function.body.as_slice().last()? {
        Statement::Return(_, Some(e)) => Some(value_of(e)),
        _ => None,
    }
}

/// A name that isn't declared is no sum.
const SUMS: &str = "\
5 rows
int main(void){int x=10;return x-3-2;} => Some(5)
int main(void){int x=10;return x-(3-2);} => Some(9)
int main(void){int x=10;return x+3*x;} => Some(40)
int main(void){int x=10;return x;} => Some(10)
int main(void){int x=10;return y;} => None";

/// The typed program of each source returns the value, or there is none.
fn expect_sums(rt: &impl Abort, alloc: Global, table: &str) {
    for row in rows_of(rt, table) {
        let (text, value) = cells(rt, row);
        let Row { files, .. } = read(alloc, text).expect(rt, row);
        let found = match typed(alloc, files.as_slice()) {
            Ok(program) => returned(&program),
            Err(_) => None,
        };
        expect_shown(rt, alloc, &found, value, row);
    }
}

#[test]
fn sums(rt: HostRuntime) {
    expect_sums(&rt, rt.alloc(), SUMS);
}
