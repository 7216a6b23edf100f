//! Which ops a function of a map may have.

ghost use Rattle.std.specs.Prelude.{◌≡◌, FitsSigned, length};
ghost use Rattle.std.specs.Int.{w32};
ghost use Rattle.std.specs.Bool.{Decides};
ghost use Rattle.flow_graph.specs.Graphs as graphs;
ghost use Rattle.flow_graph.specs.WellFormed.{NamesWithin};
ghost use Rattle.map_text.specs.Maps.{HasNumbers, IsMapOp, IsNumber, flow_of};
ghost use Rattle.map_file.specs.Views.{function_of, map_of};

use crate::file::{MapFile, MapFunction};
use crate::needs::{
    any_width, byte_and_word, call_words, one_array, one_block, one_word, same_width, three_words,
    two_words, two_words_and_blocks, two_words_and_byte, word_and_array, word_and_byte,
    word_if_any,
};
use flow_graph::Op;

/// Whether the variables, arrays and blocks that an op names are there, with the widths that it asks for.
fn fits(function: &MapFunction, op: &Op) -> bool
    ensures { Decides result (graphs.FitsOp (flow_of (function_of function.now)) op.now) }
{
    match op {
        Op::Const(a, _) => any_width(function, *a),
        Op::Copy(a, b) => same_width(function, *a, *b),
        Op::Wide(a, b) | Op::Zero(a, b) => word_and_byte(function, *a, *b),
        Op::Low(a, b) => byte_and_word(function, *a, *b),
        Op::Low16(a, b) | Op::Neg(a, b) | Op::Not(a, b) => two_words(function, *a, *b),
        Op::Putchar(a, b) | Op::Same(a, b) => two_words(function, *a, *b),
        Op::Add(a, b, c) | Op::Sub(a, b, c) | Op::Mul(a, b, c) => three_words(function, *a, *b, *c),
        Op::And(a, b, c) | Op::Or(a, b, c) | Op::Xor(a, b, c) => three_words(function, *a, *b, *c),
        Op::Div(a, b, c) | Op::Rem(a, b, c) => three_words(function, *a, *b, *c),
        Op::Udiv(a, b, c) | Op::Urem(a, b, c) => three_words(function, *a, *b, *c),
        Op::Set(_, a, b, c) | Op::Setu(_, a, b, c) => three_words(function, *a, *b, *c),
        Op::Load(_, a, b, c) | Op::Store(_, a, b, c) => three_words(function, *a, *b, *c),
        Op::Shl(a, b, c) | Op::Sar(a, b, c) => two_words_and_byte(function, *a, *b, *c),
        Op::Shr(a, b, c) => two_words_and_byte(function, *a, *b, *c),
        Op::Frame(a, k) => word_and_array(function, *a, *k),
        Op::Clear(k) => one_array(function, *k),
        Op::Static(a, _) | Op::Get(_, a, _) | Op::Put(_, _, a) => one_word(function, *a),
        Op::Param(a, _) | Op::Getchar(a) | Op::Exit(a) => one_word(function, *a),
        Op::Call(to, _, list) => call_words(function, *to, list.as_slice()),
        Op::Mark(_) | Op::Turn => true,
        Op::Jump(x) => one_block(function, *x),
        Op::Branch(_, a, b, x, y) | Op::Branchu(_, a, b, x, y) => {
            two_words_and_blocks(function, *a, *b, *x, *y)
        }
        Op::Return(a) => word_if_any(function, *a),
    }
}

/// Whether the function or object that an op names is there, of so many.
fn names_within(functions: usize, objects: usize, op: &Op) -> bool
    ensures { Decides result (NamesWithin functions objects op.now) }
{
    match op {
        Op::Static(_, k) | Op::Get(_, _, k) | Op::Put(_, k, _) => (*k as usize) < objects,
        Op::Call(_, f, _) => (*f as usize) < functions,
        Op::Const(_, _) | Op::Copy(_, _) | Op::Wide(_, _) | Op::Zero(_, _) => true,
        Op::Low(_, _) | Op::Low16(_, _) | Op::Neg(_, _) | Op::Not(_, _) | Op::Frame(_, _) => true,
        Op::Add(_, _, _) | Op::Sub(_, _, _) | Op::Mul(_, _, _) => true,
        Op::And(_, _, _) | Op::Or(_, _, _) | Op::Xor(_, _, _) => true,
        Op::Shl(_, _, _) | Op::Sar(_, _, _) | Op::Shr(_, _, _) => true,
        Op::Div(_, _, _) | Op::Rem(_, _, _) | Op::Udiv(_, _, _) | Op::Urem(_, _, _) => true,
        Op::Set(_, _, _, _) | Op::Setu(_, _, _, _) => true,
        Op::Load(_, _, _, _) | Op::Store(_, _, _, _) => true,
        Op::Clear(_) | Op::Param(_, _) | Op::Putchar(_, _) | Op::Getchar(_) => true,
        Op::Exit(_) | Op::Same(_, _) | Op::Mark(_) | Op::Turn => true,
        Op::Jump(_) | Op::Return(_) => true,
        Op::Branch(_, _, _, _, _) | Op::Branchu(_, _, _, _, _) => true,
    }
}

/// A signed number of 32 bits fits them: a fact for callers.
fn fits_word(number: i32)
    ensures { FitsSigned w32 number }
{
    let _ = number;
}

/// A number without sign of 32 bits: a fact for callers.
pub(crate) fn is_word(number: u32)
    ensures { IsNumber number }
{
    let _ = number;
}

/// The numbers of an op are of 32 bits, as their types have it: a fact for callers.
fn has_numbers(op: &Op)
    ensures { HasNumbers op.now }
{
    match *op {
        Op::Const(_, number) => fits_word(number),
        Op::Param(_, number) | Op::Mark(number) => is_word(number),
        Op::Static(_, _) | Op::Get(_, _, _) | Op::Put(_, _, _) | Op::Call(_, _, _) => {}
        Op::Copy(_, _) | Op::Wide(_, _) | Op::Zero(_, _) => {}
        Op::Low(_, _) | Op::Low16(_, _) => {}
        Op::Neg(_, _) | Op::Not(_, _) | Op::Frame(_, _) | Op::Putchar(_, _) => {}
        Op::Add(_, _, _) | Op::Sub(_, _, _) | Op::Mul(_, _, _) => {}
        Op::And(_, _, _) | Op::Or(_, _, _) | Op::Xor(_, _, _) => {}
        Op::Shl(_, _, _) | Op::Sar(_, _, _) | Op::Shr(_, _, _) => {}
        Op::Div(_, _, _) | Op::Rem(_, _, _) | Op::Udiv(_, _, _) | Op::Urem(_, _, _) => {}
        Op::Set(_, _, _, _) | Op::Setu(_, _, _, _) => {}
        Op::Load(_, _, _, _) | Op::Store(_, _, _, _) => {}
        Op::Clear(_) | Op::Getchar(_) | Op::Exit(_) | Op::Same(_, _) => {}
        Op::Turn | Op::Jump(_) | Op::Return(_) => {}
        Op::Branch(_, _, _, _, _) | Op::Branchu(_, _, _, _, _) => {}
    }
}

/// Whether an op is over variables, arrays and blocks of its function, and functions and objects of the map.
pub(crate) fn is_op(file: &MapFile, function: &MapFunction, op: &Op) -> bool
    ensures { Decides result (IsMapOp (map_of file.now) (function_of function.now) op.now) }
{
    has_numbers(op);
    fits(function, op) && names_within(file.functions.len(), file.objects.len(), op)
}

/// Whether an op is an end of a block.
pub(crate) fn is_end(op: &Op) -> bool
    ensures { result ≡ graphs.is_end op.now }
{
    matches!(
        op,
        Op::Jump(_)
            | Op::Branch(_, _, _, _, _)
            | Op::Branchu(_, _, _, _, _)
            | Op::Return(_)
            | Op::Exit(_)
    )
}
