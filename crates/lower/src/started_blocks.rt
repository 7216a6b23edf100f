//! Statements in order, of which some have labels of a switch, and blocks that they start.

ghost use Rattle.std.specs.Prelude.{◌≡◌, ◌<◌, ◌≤◌};
ghost use Rattle.lower.specs.StartedBlocks.{starts_at};
ghost use Rattle.lower_lines.specs.Statements.{towards};
ghost use Rattle.lower_expressions.specs.Views.{after_of};

use lower_expressions::After;

/// The block that the statement at a place starts, if it has one.
pub(crate) fn block_at(starts: &[Option<u32>], place: usize) -> Option<u32>
    ensures { result ≡ starts_at starts.now place }
{
    if place < starts.len() {
        return starts[place];
    }
    None
}

/// Where control goes before the statement at a place, which is there or isn't.
pub(crate) fn next_after(
    starts: &[Option<u32>],
    place: usize,
    statements: usize,
    after: After,
) -> After
    ensures inside { place < statements → after_of result ≡ towards (starts_at starts.now place) }
    ensures last { statements ≤ place → after_of result ≡ after_of after }
{
    if place >= statements {
        return after;
    }
    match block_at(starts, place) {
        None => After::Here,
        Some(block) => After::To(block),
    }
}
