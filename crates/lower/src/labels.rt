//! Labels of a switch (C99 6.8.1): the blocks of the statements that have some, their starts, and the cases.

ghost use Rattle.std.specs.Prelude.{◌≡◌, ◌+◌, ◌<◌, ℕ, false, length, get_or, IfOk, OnOk};
ghost use Rattle.lower.specs.LabelStarts.{AreStarts};
ghost use Rattle.lower_builder.specs.Built.{Adds};
ghost use Rattle.lower.specs.StartedBlocks.{starts_at};
ghost use Rattle.lower_lines.specs.Statements.{cases_of as all_cases, default_block, has_label, labelled_before};
ghost use Rattle.lower_lines.specs.Statements.{labelled_from, started};

use crate::started_blocks::block_at;
use c_tree::Label;
use lower_builder::{Lines, plus};
use pcc_base::NoMemory;
use std::alloc::Global;

/// No marks, for so many statements.
fn unmarked(alloc: Global, statements: usize) -> Result<Vec<bool>, NoMemory>
    ensures length { IfOk result (λ marks. length marks.items ≡ statements) }
    ensures none { IfOk result (λ marks. (place : ℕ) → get_or marks.items place false ≡ false) }
{
    let mut marks = Vec::new(alloc);
    let mut place = 0;
    'places: while place < statements {
        marks.push(false)?;
        place += 1;
    }
    Ok(marks)
}

/// Whether each of so many statements has a label.
fn marked(alloc: Global, labels: &[Label], statements: usize) -> Result<Vec<bool>, NoMemory>
    ensures length { IfOk result (λ marks. length marks.items ≡ statements) }
    ensures marks { IfOk result (λ marks. (place : ℕ) → place < statements
        → get_or marks.items place false ≡ has_label labels.now place) }
{
    let mut marks = unmarked(alloc, statements)?;
    let mut left = labels.len();
    'labels: while left > 0 {
        left -= 1;
        let at = labels[left].before as usize;
        if at < statements {
            marks[at] = true;
        }
    }
    Ok(marks)
}

/// The blocks that statements start, by their places, and how many they are.
#[derive(Drop)]
pub struct Starts {
    pub blocks: Vec<Option<u32>>,
    pub count: u32,
}

/// The labelled statements of so many have blocks in their order, from one on.
pub(crate) fn starts_of(
    alloc: Global,
    first: u32,
    labels: &[Label],
    statements: usize,
) -> Result<Starts, NoMemory>
    ensures starts { IfOk result (λ starts. (place : ℕ) → place < statements
        → starts_at starts.blocks.items place ≡ labelled_from first labels.now place) }
    ensures found { IfOk result (λ starts. AreStarts first labels.now starts.blocks.items) }
    ensures count { IfOk result (λ starts. starts.count ≡ labelled_before labels.now statements) }
{
    let marks = marked(alloc, labels, statements)?;
    let mut blocks = Vec::new(alloc);
    let mut count = 0;
    let mut place = 0;
    'places: while place < statements {
        if marks[place] {
            blocks.push(Some(plus(first, count)?))?;
            count = plus(count, 1)?;
        } else {
            blocks.push(None)?;
        }
        place += 1;
    }
    Ok(Starts { blocks, count })
}

/// The block of the statement that a label stands before.
fn block_of(
    first: u32,
    starts: &[Option<u32>],
    labels: &[Label],
    before: u32,
) -> Result<u32, NoMemory>
    requires { AreStarts first labels.now starts.now }
    ensures { IfOk result (λ block. block ≡ first + labelled_before labels.now before) }
{
    match block_at(starts, before as usize) {
        Some(block) => Ok(block),
        // No caller meets this: labels name places among the statements of their block.
        None => Err(NoMemory),
    }
}

/// The cases of a switch, each with the block of its statement.
pub fn cases_of(
    alloc: Global,
    first: u32,
    starts: &[Option<u32>],
    labels: &[Label],
) -> Result<Vec<(i32, u32)>, NoMemory>
    requires { AreStarts first labels.now starts.now }
    ensures { IfOk result (λ cases. cases.items ≡ all_cases first labels.now labels.now) }
{
    let mut cases = Vec::new(alloc);
    let mut place = 0;
    'labels: while place < labels.len() {
        let label = labels[place];
        if let Some(value) = label.value {
            let block = block_of(first, starts, labels, label.before)?;
            cases.push((value, block))?;
        }
        place += 1;
    }
    Ok(cases)
}

/// Where control goes that comes to no case: the `default`, or behind the switch.
pub(crate) fn otherwise_of(
    exit: u32,
    first: u32,
    starts: &[Option<u32>],
    labels: &[Label],
) -> Result<u32, NoMemory>
    requires { AreStarts first labels.now starts.now }
    ensures { IfOk result (λ block. block ≡ default_block exit first labels.now) }
{
    let mut place = 0;
    'labels: while place < labels.len() {
        let label = labels[place];
        if label.value.is_none() {
            return block_of(first, starts, labels, label.before);
        }
        place += 1;
    }
    Ok(exit)
}

/// The start of the block that the statement at a place starts, if it has one.
pub(crate) fn start_labelled(
    lines: &mut Lines,
    starts: &[Option<u32>],
    place: usize,
) -> Result<(), NoMemory>
    ensures { OnOk result (Adds lines.old lines.new 0 (started (starts_at starts.now place))) }
{
    match block_at(starts, place) {
        None => Ok(()),
        Some(block) => lines.start(block),
    }
}
