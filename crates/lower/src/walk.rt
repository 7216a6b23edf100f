//! The walk over typed statements, which puts the lines of each behind those of the ones before it (C99 6.8).

ghost use Rattle.std.specs.Prelude.{◌≡◌, OnOk};
ghost use Rattle.c_tree.specs.Erased.{statement_of, statements_of};
ghost use Rattle.lower.specs.Walks.{AddsIf};
ghost use Rattle.lower.specs.StartedBlocks.{starts_at};
ghost use Rattle.lower_lines.specs.Statements.{run_of, runs_of, sequence_blocks, sequence_lines};
ghost use Rattle.lower_builder.specs.Sites.{context_of};
ghost use Rattle.lower_expressions.specs.Views.{after_of, exits_of};

use crate::items::item;
use crate::labels::start_labelled;
use crate::parts::{
    close_for, evaluated, go, is_nothing, open_for, open_if, open_while, return_value, start_second,
};
use crate::started_blocks::next_after;
use crate::switches::{open_body, open_switch};
use crate::turns::{again, close_do, open_do};
use c_tree::Statement;
use flow_graph::Op;
use lower_builder::{Lines, Site, plus};
use lower_expressions::{After, Ahead, Exits, go_onward, start_exit};
use pcc_base::NoMemory;

/// A statement. Each begins with its mark.
#[cycle(statement)]
pub fn statement(
    lines: &mut Lines,
    ahead: &mut Ahead,
    site: &Site<'_>,
    s: &Statement,
    exits: Exits,
    after: After,
) -> Result<(), NoMemory>
    ensures { OnOk result (AddsIf ahead.old ahead.new lines.old lines.new
        ((run_of (context_of site.now) (statement_of s.now)).blocks (after_of after))
        ((run_of (context_of site.now) (statement_of s.now)).lines (exits_of exits) lines.old.next
        (after_of after))) }
{
    match s {
        Statement::Declare(of) => {
            item(lines, site, of)?;
            go_onward(lines, site, after)
        }
        Statement::Empty(n) => {
            lines.emit(Op::Mark(*n))?;
            go_onward(lines, site, after)
        }
        Statement::Expression(n, e) => {
            evaluated(lines, site, *n, e)?;
            go_onward(lines, site, after)
        }
        Statement::Block(body) => sequence(lines, ahead, site, &[], body.as_slice(), exits, after),
        Statement::If(n, e, a, b) => {
            let nothing = is_nothing(b);
            let (place, named) = ahead.next()?;
            let exit = open_if(lines, site, *n, e, nothing, named, after)?;
            statement(lines, ahead, site, a, exits, After::To(exit))?;
            if nothing {
                start_exit(lines, site, exit, after)?;
                return Ok(());
            }
            start_second(lines, ahead, place, named)?;
            statement(lines, ahead, site, b, exits, After::To(exit))?;
            start_exit(lines, site, exit, after)?;
            Ok(())
        }
        Statement::While(n, e, body) => {
            let ends = open_while(lines, site, *n, e, after)?;
            let inside = Exits {
                breaks: ends.exit,
                continues: ends.start,
            };
            statement(lines, ahead, site, body, inside, After::To(ends.start))?;
            start_exit(lines, site, ends.exit, after)?;
            Ok(())
        }
        Statement::Do(n, body, e) => {
            let ends = open_do(lines, *n, after)?;
            let test = plus(ends.start, 1)?;
            let inside = Exits {
                breaks: ends.exit,
                continues: test,
            };
            statement(lines, ahead, site, body, inside, After::To(test))?;
            close_do(lines, site, e, test, ends)?;
            start_exit(lines, site, ends.exit, after)?;
            Ok(())
        }
        Statement::For(n, first, test, step, body) => {
            let ends = open_for(lines, site, *n, first, test, after)?;
            let (place, named) = ahead.next()?;
            let to = again(step, ends.start, named);
            let inside = Exits {
                breaks: ends.exit,
                continues: to,
            };
            statement(lines, ahead, site, body, inside, After::To(to))?;
            close_for(lines, ahead, site, step, ends.start, place, named)?;
            start_exit(lines, site, ends.exit, after)?;
            Ok(())
        }
        Statement::Switch(n, e, labels, body) => {
            let ways = open_switch(lines, site, *n, e, labels.as_slice(), body.len(), after)?;
            let inside = Exits {
                breaks: ways.exit,
                continues: exits.continues,
            };
            if body.is_empty() {
                start_exit(lines, site, ways.exit, after)?;
                return Ok(());
            }
            open_body(lines, ways.starts.as_slice())?;
            sequence(
                lines,
                ahead,
                site,
                ways.starts.as_slice(),
                body.as_slice(),
                inside,
                After::To(ways.exit),
            )?;
            start_exit(lines, site, ways.exit, after)?;
            Ok(())
        }
        Statement::Break(n) => go(lines, *n, exits.breaks, after),
        Statement::Continue(n) => go(lines, *n, exits.continues, after),
        Statement::Return(n, value) => return_value(lines, site, *n, value, after),
    }
}

/// Statements in order, of which some have blocks that they start.
#[cycle(statement)]
pub fn sequence(
    lines: &mut Lines,
    ahead: &mut Ahead,
    site: &Site<'_>,
    starts: &[Option<u32>],
    body: &[Statement],
    exits: Exits,
    after: After,
) -> Result<(), NoMemory>
    ensures { OnOk result (AddsIf ahead.old ahead.new lines.old lines.new
        (sequence_blocks (starts_at starts.now) 0 (runs_of (context_of site.now) (statements_of body.now))
        (after_of after))
        (sequence_lines (context_of site.now) (starts_at starts.now) 0
        (runs_of (context_of site.now) (statements_of body.now)) (exits_of exits) lines.old.next
        (after_of after))) }
{
    if body.is_empty() {
        go_onward(lines, site, after)?;
        return Ok(());
    }
    let mut place = 0;
    'body: while place < body.len() {
        start_labelled(lines, starts, place)?;
        let next = next_after(starts, place + 1, body.len(), after);
        statement(lines, ahead, site, &body[place], exits, next)?;
        place += 1;
    }
    Ok(())
}
