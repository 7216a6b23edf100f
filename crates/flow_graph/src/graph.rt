ghost use Rattle.std.specs.Prelude.{ℕ, ◌≡◌, ◌<◌, ◌≤◌, ◌⊎◌, List, length, slice_get, Some, false, IfOk, MatchResult, ⊤};
ghost use Rattle.flow_graph.specs.Graphs.{empty_flow, with_variable, with_array, with_block, with_op, with_op_behind};
ghost use Rattle.flow_graph.specs.Graphs.{without_point, FitsOp, IsEnded, IsPlaced, IsPlainAt, IsFlow, is_end};
ghost use Rattle.flow_graph.specs.Graphs.{next_in, points_of};

use crate::op::Op;
use crate::order;
use index_lists::IndexLists;
use pcc_base::{NoMemory, Width};
use std::alloc::Global;
use std::marker::{Brand, Model};
use std::sync::ledger::Blank;

/// The three-address graph of one function. A contract sees a `Flow`.
#[derive(Drop)]
pub struct Graph {
    widths: Vec<Width>,
    arrays: Vec<(u8, u32)>,
    order: IndexLists,
    ops: Vec<Op>,
}

impl Model for Graph {
    ghost use Rattle.flow_graph.specs.Graphs.{Flow};
    ghost use Rattle.flow_graph.specs.Ordered.{ordered, IsOrdered};

    ghost Value = { Flow };

    ghost view = { λ g. ordered g.widths.items g.arrays.items g.order g.ops.items };

    ghost invariant = { λ g. IsOrdered (ordered g.widths.items g.arrays.items g.order g.ops.items) g.order.nodes };
}

/// The ops once more.
fn copy_ops(alloc: Global, ops: &[Op]) -> Result<Vec<Op>, NoMemory>
    ensures { IfOk result (λ copies. copies.items ≡ ops.now) }
{
    let mut copies = Vec::new(alloc);
    for op in ops {
        copies.push(op.copy(alloc)?)?;
    }
    Ok(copies)
}

impl Graph {
    /// A graph with no variables and one empty block, block 0.
    pub fn new(alloc: Global) -> Result<Graph, NoMemory>
        ensures { MatchResult result (λ graph. graph ≡ empty_flow) (λ _. ⊤) }
    {
        Ok(Graph {
            widths: Vec::new(alloc),
            arrays: Vec::new(alloc),
            order: IndexLists::new(alloc, 0, 1)?,
            ops: Vec::new(alloc),
        })
    }

    /// Makes a variable, and answers its number.
    pub fn add_var(&mut self, width: Width) -> Result<u32, NoMemory>
        requires { length self.old.widths < 4294967295 }
        ensures { MatchResult result
            (λ variable. (variable ≡ length self.old.widths) × (self.new ≡ with_variable self.old width))
            (λ _. self.new ≡ self.old) }
    {
        let variable = self.widths.len() as u32;
        self.widths.push(width)?;
        Ok(variable)
    }

    /// Makes a frame array of `count` elements of `width` bytes, and answers its number.
    pub fn add_array(&mut self, width: u8, count: u32) -> Result<u32, NoMemory>
        requires room { length self.old.arrays < 4294967295 }
        requires known_width { (width ≡ 1) ⊎ (width ≡ 2) ⊎ (width ≡ 4) }
        requires some_elements { 1 ≤ count }
        ensures { MatchResult result
            (λ array. (array ≡ length self.old.arrays) × (self.new ≡ with_array self.old width count))
            (λ _. self.new ≡ self.old) }
    {
        let array = self.arrays.len() as u32;
        self.arrays.push((width, count))?;
        Ok(array)
    }

    /// Makes an empty block, and answers its number.
    pub fn add_block(&mut self) -> Result<u32, NoMemory>
        requires { length self.old.blocks < 4294967295 }
        ensures { MatchResult result
            (λ block. (block ≡ length self.old.blocks) × (self.new ≡ with_block self.old))
            (λ _. self.new ≡ self.old) }
    {
        let block = self.order.add_list()?;
        Ok(block)
    }

    /// Makes a point with this op at the end of a block, and answers its number.
    pub fn append(&mut self, block: u32, op: Op) -> Result<u32, NoMemory>
        requires room { length self.old.ops < 4294967295 }
        requires in_range { block < length self.old.blocks }
        requires not_ended { ¬ IsEnded self.old block }
        requires fits { FitsOp self.old op }
        ensures { MatchResult result
            (λ point. (point ≡ length self.old.ops) × (self.new ≡ with_op self.old block op))
            (λ _. self.new ≡ self.old) }
    {
        op.numbers_fit();
        self.ops.reserve(1)?;
        let point = self.ops.len() as u32;
        self.order.grow(point + 1)?;
        order::push_back::<Brand>(&mut self.order, block, point, Blank::new(1));
        self.ops.push_reserved(op);
        Ok(point)
    }

    /// Makes a point with this op right after another point, and answers its number.
    pub fn insert_after(&mut self, point: u32, op: Op) -> Result<u32, NoMemory>
        requires room { length self.old.ops < 4294967295 }
        requires placed { IsPlaced self.old point }
        requires plain { IsPlainAt self.old.ops point }
        requires no_end { is_end op ≡ false }
        requires fits { FitsOp self.old op }
        ensures { MatchResult result
            (λ new. (new ≡ length self.old.ops) × (self.new ≡ with_op_behind self.old point op))
            (λ _. self.new ≡ self.old) }
    {
        op.numbers_fit();
        self.ops.reserve(1)?;
        let new = self.ops.len() as u32;
        self.order.grow(new + 1)?;
        order::push_after::<Brand>(&mut self.order, point, new, Blank::new(1));
        self.ops.push_reserved(op);
        Ok(new)
    }

    /// Takes a point out of its block. Its number is not used again.
    pub fn remove(&mut self, point: u32)
        requires placed { IsPlaced self.old point }
        requires plain { IsPlainAt self.old.ops point }
        ensures { self.new ≡ without_point self.old point }
    {
        order::unlink::<Brand>(&mut self.order, point, Blank::new(1));
    }

    /// The op of a point that is in a block.
    pub fn op(&self, point: u32) -> &Op
        requires { IsPlaced self.now point }
        ensures { slice_get self.now.ops point ≡ Some result.now }
    {
        &self.ops[point as usize]
    }

    /// The first point of a block, if it has any.
    pub fn first(&self, block: u32) -> Option<u32>
        requires { block < length self.now.blocks }
        ensures { result ≡ slice_get (points_of self.now block) 0 }
    {
        order::first::<Brand>(&self.order, block, Blank::new(1))
    }

    /// The points of a block, in order.
    pub fn points_in(&self, alloc: Global, block: u32) -> Result<Vec<u32>, NoMemory>
        requires { block < length self.now.blocks }
        ensures { IfOk result (λ points. points.items ≡ points_of self.now block) }
    {
        order::points_in::<Brand>(&self.order, alloc, block, Blank::new(1))
    }

    /// The point right after a point of a block, if that isn't the last.
    pub fn next(&self, point: u32) -> Option<u32>
        requires { IsPlaced self.now point }
        ensures { result ≡ next_in self.now point }
    {
        order::next::<Brand>(&self.order, point, Blank::new(1))
    }

    /// How many blocks there are.
    pub fn blocks(&self) -> u32
        ensures { result ≡ length self.now.blocks }
    {
        self.order.lists() as u32
    }

    /// How many variables there are.
    pub fn vars(&self) -> u32
        ensures { result ≡ length self.now.widths }
    {
        self.widths.len() as u32
    }

    /// How many points were made, removed ones too.
    pub fn points(&self) -> u32
        ensures { result ≡ length self.now.ops }
    {
        self.ops.len() as u32
    }

    /// The width of a variable.
    pub fn width(&self, var: u32) -> Width
        requires { var < length self.now.widths }
        ensures { slice_get self.now.widths var ≡ Some result }
    {
        self.widths[var as usize]
    }

    /// How many frame arrays there are.
    pub fn arrays(&self) -> u32
        ensures { result ≡ length self.now.arrays }
    {
        self.arrays.len() as u32
    }

    /// The bytes of an element of a frame array, and the number of its elements.
    pub fn array(&self, array: u32) -> (u8, u32)
        requires { array < length self.now.arrays }
        ensures { slice_get self.now.arrays array ≡ Some result }
    {
        self.arrays[array as usize]
    }

    /// What every graph keeps, as a fact for callers.
    pub fn is_flow(&self)
        ensures { (homes : List ℕ) × IsFlow self.now homes }
    {
        let _ = &self.order;
    }

    /// The same graph once more.
    pub fn copy(&self, alloc: Global) -> Result<Graph, NoMemory>
        ensures { IfOk result (λ copy. copy ≡ self.now) }
    {
        Ok(Graph {
            widths: self.widths.to_vec(alloc)?,
            arrays: self.arrays.to_vec(alloc)?,
            order: self.order.copy(alloc)?,
            ops: copy_ops(alloc, self.ops.as_slice())?,
        })
    }
}
