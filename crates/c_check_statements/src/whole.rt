//! Whole bodies.

ghost use Rattle.std.specs.Prelude.{◌≡◌, map, IfOk, OnOk};
ghost use Rattle.c_syntax.specs.Statements.{stmt_of, stmts_of};
ghost use Rattle.c_typing.specs.Files.{body_of, in_function};
ghost use Rattle.c_typing.specs.Statements.{after_statements, typed_statements};
ghost use Rattle.c_check_expressions.specs.Said.{IsSaid};
ghost use Rattle.c_check_statements.specs.Answers.{AreStatements};

use crate::around::Around;
use crate::walk::statements;
use c_check_expressions::{Judged, Notes};
use c_check_names::Scopes;
use c_syntax::Statement as RawStatement;
use c_tree::{Statement, ValueType};
use pcc_base::NoMemory;
use std::alloc::Global;
use std::slice;

/// The statements of a raw body, which is a block.
fn body_of(body: &RawStatement) -> &[RawStatement]
    ensures { stmts_of (map stmt_of result.now) ≡ body_of (stmt_of body.now) }
{
    match body {
        RawStatement::Block(_, items, _) => items.as_slice(),
        _ => slice::from_ref(body),
    }
}

/// The typed statements of a function's body, or the least of their faults; where they fit, the notes grow by theirs.
/// The scope is that behind them: the outermost block of a body is no scope of its own (C99 6.2.1p4 and 6.9.1).
pub fn body(
    alloc: Global,
    scopes: &mut Scopes,
    notes: &mut Notes,
    of: ValueType,
    body: &RawStatement,
) -> Result<Judged<Vec<Statement>>, NoMemory>
    ensures said { IfOk result (λ j. IsSaid AreStatements
        (typed_statements (in_function of) (body_of (stmt_of body.now)) scopes.old) j notes.old notes.new) }
    ensures scope { OnOk result (scopes.new ≡ after_statements (body_of (stmt_of body.now)) scopes.old) }
{
    let around = Around::function(of);
    statements(alloc, around, scopes, notes, body_of(body))
}
