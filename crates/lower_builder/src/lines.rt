//! A builder of lines.

ghost use Rattle.std.specs.Prelude.{◌≡◌, ◌≤◌, ◌+◌, [], ◌∷◌, ◌++◌, IfOk, OnOk};
ghost use Rattle.std.specs.List.{AllByRecursion};
ghost use Rattle.flow_graph.specs.Graphs.{IsArray};
ghost use Rattle.lower_lines.specs.Lines.{Start, Emit, graph_of_lines};
ghost use Rattle.lower_builder.specs.Graphs.{AllFit, AreClosed};
ghost use Rattle.lower_builder.specs.Built.{Adds};

use crate::graph::graph_of;
use crate::line::Line;
use flow_graph::{Graph, Op};
use pcc_base::{NoMemory, Width};
use std::alloc::Global;
use std::marker::Model;

/// The lines of a function so far, and the first block that is not taken yet.
#[derive(Drop)]
pub struct Lines {
    list: Vec<Line>,
    next: u32,
}

impl Model for Lines {
    ghost use Rattle.std.specs.Prelude.{map};
    ghost use Rattle.lower_builder.specs.Built.{Built, line_of};

    ghost Value = { Built };

    ghost view = { λ l. record { lines = map line_of l.list.items; next = l.next } };
}

/// A sum that fits 32 bits.
pub fn plus(a: u32, b: u32) -> Result<u32, NoMemory>
    ensures { IfOk result (λ sum. sum ≡ a + b) }
{
    match a.checked_add(b) {
        Some(sum) => Ok(sum),
        // No caller meets this: a program has at most 20 points for each of its tokens, and no more blocks or
        // variables.
        None => Err(NoMemory),
    }
}

impl Lines {
    /// No lines; blocks are taken from this one on.
    pub fn new(alloc: Global, next: u32) -> Lines
        ensures lines { result.lines ≡ [] }
        ensures next { result.next ≡ next }
    {
        Lines {
            list: Vec::new(alloc),
            next,
        }
    }

    /// One more op.
    pub fn emit(&mut self, op: Op) -> Result<(), NoMemory>
        ensures { OnOk result (Adds self.old self.new 0 (Emit op ∷ [])) }
    {
        self.list.push(Line::Emit(op))?;
        Ok(())
    }

    /// The ops that follow stand in this block.
    pub fn start(&mut self, block: u32) -> Result<(), NoMemory>
        ensures { OnOk result (Adds self.old self.new 0 (Start block ∷ [])) }
    {
        self.list.push(Line::Start(block))?;
        Ok(())
    }

    /// So many blocks are taken; the first of them.
    pub fn take_blocks(&mut self, count: u32) -> Result<u32, NoMemory>
        ensures first { IfOk result (λ first. first ≡ self.old.next) }
        ensures lines { IfOk result (λ _. self.new.lines ≡ self.old.lines) }
        ensures next { IfOk result (λ _. self.new.next ≡ self.old.next + count) }
    {
        let first = self.next;
        self.next = plus(first, count)?;
        Ok(first)
    }

    /// The graph of the lines, over variables of these widths and these frame arrays, of so many blocks.
    pub fn graph(
        self,
        alloc: Global,
        widths: &[Width],
        arrays: &[(u8, u32)],
        blocks: u32,
    ) -> Result<Graph, NoMemory>
        requires arrays { AllByRecursion IsArray arrays.now }
        requires some { 1 ≤ blocks }
        requires closed { AreClosed blocks self.lines }
        requires fit { AllFit (graph_of_lines widths.now arrays.now blocks []) self.lines }
        ensures { IfOk result (λ graph. graph ≡ graph_of_lines widths.now arrays.now blocks self.lines) }
    {
        graph_of(alloc, widths, arrays, blocks, self.list)
    }

    /// The first block that is not taken yet.
    pub fn next(&self) -> u32
        ensures { result ≡ self.now.next }
    {
        self.next
    }
}
