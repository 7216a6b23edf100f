ghost use Rattle.std.specs.Prelude.{◌≡◌, ◌<◌, ◌∷◌, [], IfOk, length, slice_get};
ghost use Rattle.std.specs.Int.{w32};
ghost use Rattle.std.specs.Int.RustNames.{FitsSigned};
ghost use Rattle.flow_graph.specs.Graphs.{NumbersFit};
ghost use Rattle.flow_graph.specs.Liveness.{defined, uses};

use crate::words::Words;
use pcc_base::NoMemory;
use std::alloc::Global;

/// How many bits an access has.
#[derive(Clone, Copy)]
pub enum Bits {
    Eight,
    Sixteen,
    ThirtyTwo,
}

/// How two values are compared: `==`, `!=`, `<`, `<=`, `>` and `>=` (C99 6.5.8 and 6.5.9).
#[derive(Clone, Copy)]
pub enum Comparison {
    Eq,
    Ne,
    Lt,
    Le,
    Gt,
    Ge,
}

/// How two numbers are ordered that are taken without sign: `<`, `<=`, `>` and `>=` (C99 6.3.1.8 and 6.5.8).
#[derive(Clone, Copy)]
pub enum Order {
    Lt,
    Le,
    Gt,
    Ge,
}

/// What happens at a point. A variable of width Two holds 32 bits or an array, one of width One a byte.
/// The first part of most ops is the variable that is written; the parts are of width Two unless it is
/// said otherwise. A function and a static object go by their numbers in the whole program. Each number that is held is the
/// signed one with its bits; an op that takes a number without sign takes the one from 0 with the same bits.
#[derive(Drop)]
pub enum Op {
    /// A number into a variable of either width.
    Const(u32, i32),
    /// A copy between two variables of one width.
    Copy(u32, u32),
    /// A byte, of width One, sign-extended.
    Wide(u32, u32),
    /// A byte, of width One, zero-extended.
    Zero(u32, u32),
    /// The low byte, into a variable of width One.
    Low(u32, u32),
    /// The number wrapped at 16 bits.
    Low16(u32, u32),
    /// The negation.
    Neg(u32, u32),
    /// The complement of each bit.
    Not(u32, u32),
    /// The sum, wrapped at 32 bits.
    Add(u32, u32, u32),
    /// The difference, wrapped at 32 bits.
    Sub(u32, u32, u32),
    /// The product, wrapped at 32 bits.
    Mul(u32, u32, u32),
    /// The bits that both have.
    And(u32, u32, u32),
    /// The bits that either has.
    Or(u32, u32, u32),
    /// The bits that one of them has.
    Xor(u32, u32, u32),
    /// A shift to the left; the count is of width One and taken modulo 32.
    Shl(u32, u32, u32),
    /// An arithmetic shift to the right; the count is of width One and taken modulo 32.
    Sar(u32, u32, u32),
    /// A shift to the right that fills with zero bits; the count is of width One and taken modulo 32.
    Shr(u32, u32, u32),
    /// The quotient, towards zero. It may trap.
    Div(u32, u32, u32),
    /// The remainder, with the sign of the dividend. It may trap.
    Rem(u32, u32, u32),
    /// The quotient of numbers without sign. It may trap.
    Udiv(u32, u32, u32),
    /// The remainder of numbers without sign. It may trap.
    Urem(u32, u32, u32),
    /// 1 where the comparison holds, else 0.
    Set(Comparison, u32, u32, u32),
    /// 1 where two numbers without sign are so ordered, else 0.
    Setu(Order, u32, u32, u32),
    /// The frame array of that number.
    Frame(u32, u32),
    /// The static object of that number.
    Static(u32, u32),
    /// The element of an array at an index: variable, array, index. It may trap.
    Load(Bits, u32, u32, u32),
    /// Writes an element: array, index, value. It may trap.
    Store(Bits, u32, u32, u32),
    /// The value of a static scalar: variable, object.
    Get(Bits, u32, u32),
    /// Writes a static scalar: object, value.
    Put(Bits, u32, u32),
    /// The frame array of that number becomes zero.
    Clear(u32),
    /// The argument word of that number.
    Param(u32, u32),
    /// A call: the variable of the result, if it is wanted, the function, and the argument words.
    Call(Option<u32>, u32, Words),
    /// Writes the low byte of the second, and gives it.
    Putchar(u32, u32),
    /// Takes a byte of the input, or -1 at its end.
    Getchar(u32),
    /// Ends the program with this status.
    Exit(u32),
    /// Traps unless the two are equal.
    Same(u32, u32),
    /// The statement of that number is visited.
    Mark(u32),
    /// A turn starts.
    Turn,
    /// Goes to a block.
    Jump(u32),
    /// Compares two values, and goes to the first block where that holds, else to the second.
    Branch(Comparison, u32, u32, u32, u32),
    /// Orders two numbers without sign, and goes to the first block where they are so ordered, else to the second.
    Branchu(Order, u32, u32, u32, u32),
    /// Ends a call, with its result or without.
    Return(Option<u32>),
}

/// A number of 32 bits fits them: a fact for callers.
fn fits_word(number: i32)
    ensures { FitsSigned w32 number }
{
    let _ = number;
}

/// A number without sign of 32 bits: a fact for callers.
fn is_word(number: u32)
    ensures { number < 4294967296 }
{
    let _ = number;
}

// The only variable, at place 0.
fn first(place: usize, a: u32) -> Option<u32>
    ensures { result ≡ slice_get (a ∷ []) place }
{
    [a].get(place).copied()
}

// One of two variables.
fn either(place: usize, a: u32, b: u32) -> Option<u32>
    ensures { result ≡ slice_get (a ∷ b ∷ []) place }
{
    [a, b].get(place).copied()
}

// One of three variables.
fn one_of_three(place: usize, a: u32, b: u32, c: u32) -> Option<u32>
    ensures { result ≡ slice_get (a ∷ b ∷ c ∷ []) place }
{
    [a, b, c].get(place).copied()
}

impl Op {
    /// The numbers of an op are of 32 bits, as their types have it: a fact for callers.
    pub(crate) fn numbers_fit(&self)
        ensures { NumbersFit self.now }
    {
        match *self {
            Op::Const(_, number) => fits_word(number),
            Op::Static(_, number) | Op::Get(_, _, number) => is_word(number),
            Op::Put(_, number, _) | Op::Param(_, number) => is_word(number),
            Op::Call(_, number, _) | Op::Mark(number) => is_word(number),
            Op::Copy(_, _) | Op::Wide(_, _) | Op::Zero(_, _) => {}
            Op::Low(_, _) | Op::Low16(_, _) => {}
            Op::Neg(_, _) | Op::Not(_, _) | Op::Frame(_, _) | Op::Putchar(_, _) => {}
            Op::Add(_, _, _) | Op::Sub(_, _, _) | Op::Mul(_, _, _) => {}
            Op::And(_, _, _) | Op::Or(_, _, _) | Op::Xor(_, _, _) => {}
            Op::Shl(_, _, _) | Op::Sar(_, _, _) | Op::Shr(_, _, _) => {}
            Op::Div(_, _, _) | Op::Rem(_, _, _) | Op::Udiv(_, _, _) | Op::Urem(_, _, _) => {}
            Op::Set(_, _, _, _) | Op::Setu(_, _, _, _) => {}
            Op::Load(_, _, _, _) | Op::Store(_, _, _, _) => {}
            Op::Clear(_) | Op::Getchar(_) | Op::Exit(_) | Op::Same(_, _) => {}
            Op::Turn | Op::Jump(_) | Op::Return(_) => {}
            Op::Branch(_, _, _, _, _) | Op::Branchu(_, _, _, _, _) => {}
        }
    }

    /// The variable that the op writes, if it writes one.
    pub fn defined(&self) -> Option<u32>
        ensures { result ≡ defined self.now }
    {
        match *self {
            Op::Const(to, _) | Op::Frame(to, _) | Op::Static(to, _) => Some(to),
            Op::Copy(to, _) | Op::Wide(to, _) | Op::Zero(to, _) => Some(to),
            Op::Low(to, _) | Op::Low16(to, _) => Some(to),
            Op::Neg(to, _) | Op::Not(to, _) | Op::Putchar(to, _) => Some(to),
            Op::Add(to, _, _) | Op::Sub(to, _, _) | Op::Mul(to, _, _) => Some(to),
            Op::And(to, _, _) | Op::Or(to, _, _) | Op::Xor(to, _, _) => Some(to),
            Op::Shl(to, _, _) | Op::Sar(to, _, _) | Op::Shr(to, _, _) => Some(to),
            Op::Div(to, _, _) | Op::Rem(to, _, _) => Some(to),
            Op::Udiv(to, _, _) | Op::Urem(to, _, _) => Some(to),
            Op::Set(_, to, _, _) | Op::Setu(_, to, _, _) => Some(to),
            Op::Load(_, to, _, _) | Op::Get(_, to, _) => Some(to),
            Op::Param(to, _) | Op::Getchar(to) => Some(to),
            Op::Call(to, _, _) => to,
            Op::Store(_, _, _, _) | Op::Put(_, _, _) | Op::Clear(_) => None,
            Op::Same(_, _) | Op::Mark(_) | Op::Turn => None,
            Op::Jump(_) | Op::Return(_) | Op::Exit(_) => None,
            Op::Branch(_, _, _, _, _) | Op::Branchu(_, _, _, _, _) => None,
        }
    }

    /// The variable that the op reads at a place, counted from 0 in the order of its text, if it reads so many.
    pub fn use_at(&self, place: usize) -> Option<u32>
        ensures { result ≡ slice_get (uses self.now) place }
    {
        match *self {
            Op::Const(_, _) | Op::Frame(_, _) | Op::Static(_, _) | Op::Get(_, _, _) => None,
            Op::Clear(_) | Op::Param(_, _) | Op::Getchar(_) => None,
            Op::Mark(_) | Op::Turn | Op::Jump(_) => None,
            Op::Copy(_, from) | Op::Wide(_, from) | Op::Zero(_, from) => first(place, from),
            Op::Low(_, from) | Op::Low16(_, from) | Op::Neg(_, from) | Op::Not(_, from) => first(
                place, from,
            ),
            Op::Put(_, _, from) | Op::Putchar(_, from) | Op::Exit(from) => first(place, from),
            Op::Add(_, a, b) | Op::Sub(_, a, b) | Op::Mul(_, a, b) => either(place, a, b),
            Op::And(_, a, b) | Op::Or(_, a, b) | Op::Xor(_, a, b) => either(place, a, b),
            Op::Shl(_, a, b) | Op::Sar(_, a, b) | Op::Shr(_, a, b) => either(place, a, b),
            Op::Div(_, a, b) | Op::Rem(_, a, b) => either(place, a, b),
            Op::Udiv(_, a, b) | Op::Urem(_, a, b) => either(place, a, b),
            Op::Set(_, _, a, b) | Op::Setu(_, _, a, b) => either(place, a, b),
            Op::Load(_, _, a, b) | Op::Same(a, b) => either(place, a, b),
            Op::Branch(_, a, b, _, _) | Op::Branchu(_, a, b, _, _) => either(place, a, b),
            Op::Store(_, array, index, from) => one_of_three(place, array, index, from),
            Op::Call(_, _, ref words) => words.at(place),
            Op::Return(Some(from)) => first(place, from),
            Op::Return(None) => None,
        }
    }

    /// How many variables the op reads, one that it reads twice counted twice.
    pub fn use_count(&self) -> usize
        ensures { result ≡ length (uses self.now) }
    {
        match *self {
            Op::Const(_, _) | Op::Frame(_, _) | Op::Static(_, _) | Op::Get(_, _, _) => 0,
            Op::Clear(_) | Op::Param(_, _) | Op::Getchar(_) => 0,
            Op::Mark(_) | Op::Turn | Op::Jump(_) => 0,
            Op::Copy(_, _) | Op::Wide(_, _) | Op::Zero(_, _) => 1,
            Op::Low(_, _) | Op::Low16(_, _) => 1,
            Op::Neg(_, _) | Op::Not(_, _) | Op::Put(_, _, _) | Op::Putchar(_, _) | Op::Exit(_) => 1,
            Op::Add(_, _, _) | Op::Sub(_, _, _) | Op::Mul(_, _, _) => 2,
            Op::And(_, _, _) | Op::Or(_, _, _) | Op::Xor(_, _, _) => 2,
            Op::Shl(_, _, _) | Op::Sar(_, _, _) | Op::Shr(_, _, _) => 2,
            Op::Div(_, _, _) | Op::Rem(_, _, _) | Op::Udiv(_, _, _) | Op::Urem(_, _, _) => 2,
            Op::Set(_, _, _, _) | Op::Setu(_, _, _, _) => 2,
            Op::Load(_, _, _, _) | Op::Same(_, _) => 2,
            Op::Branch(_, _, _, _, _) | Op::Branchu(_, _, _, _, _) => 2,
            Op::Store(_, _, _, _) => 3,
            Op::Call(_, _, ref words) => words.len(),
            Op::Return(Some(_)) => 1,
            Op::Return(None) => 0,
        }
    }

    /// The same op once more.
    pub fn copy(&self, alloc: Global) -> Result<Op, NoMemory>
        ensures { IfOk result (λ copy. copy ≡ self.now) }
    {
        Ok(match *self {
            Op::Const(to, number) => Op::Const(to, number),
            Op::Copy(to, from) => Op::Copy(to, from),
            Op::Wide(to, from) => Op::Wide(to, from),
            Op::Zero(to, from) => Op::Zero(to, from),
            Op::Low(to, from) => Op::Low(to, from),
            Op::Low16(to, from) => Op::Low16(to, from),
            Op::Neg(to, a) => Op::Neg(to, a),
            Op::Not(to, a) => Op::Not(to, a),
            Op::Add(to, a, b) => Op::Add(to, a, b),
            Op::Sub(to, a, b) => Op::Sub(to, a, b),
            Op::Mul(to, a, b) => Op::Mul(to, a, b),
            Op::And(to, a, b) => Op::And(to, a, b),
            Op::Or(to, a, b) => Op::Or(to, a, b),
            Op::Xor(to, a, b) => Op::Xor(to, a, b),
            Op::Shl(to, a, count) => Op::Shl(to, a, count),
            Op::Sar(to, a, count) => Op::Sar(to, a, count),
            Op::Shr(to, a, count) => Op::Shr(to, a, count),
            Op::Div(to, a, b) => Op::Div(to, a, b),
            Op::Rem(to, a, b) => Op::Rem(to, a, b),
            Op::Udiv(to, a, b) => Op::Udiv(to, a, b),
            Op::Urem(to, a, b) => Op::Urem(to, a, b),
            Op::Set(how, to, a, b) => Op::Set(how, to, a, b),
            Op::Setu(how, to, a, b) => Op::Setu(how, to, a, b),
            Op::Frame(to, array) => Op::Frame(to, array),
            Op::Static(to, object) => Op::Static(to, object),
            Op::Load(bits, to, array, index) => Op::Load(bits, to, array, index),
            Op::Store(bits, array, index, from) => Op::Store(bits, array, index, from),
            Op::Get(bits, to, object) => Op::Get(bits, to, object),
            Op::Put(bits, object, from) => Op::Put(bits, object, from),
            Op::Clear(array) => Op::Clear(array),
            Op::Param(to, word) => Op::Param(to, word),
            Op::Call(to, function, ref words) => Op::Call(to, function, words.copy(alloc)?),
            Op::Putchar(to, from) => Op::Putchar(to, from),
            Op::Getchar(to) => Op::Getchar(to),
            Op::Exit(status) => Op::Exit(status),
            Op::Same(a, b) => Op::Same(a, b),
            Op::Mark(statement) => Op::Mark(statement),
            Op::Turn => Op::Turn,
            Op::Jump(block) => Op::Jump(block),
            Op::Branch(how, a, b, x, y) => Op::Branch(how, a, b, x, y),
            Op::Branchu(how, a, b, x, y) => Op::Branchu(how, a, b, x, y),
            Op::Return(from) => Op::Return(from),
        })
    }
}
