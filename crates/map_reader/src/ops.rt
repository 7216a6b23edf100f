//! Ops, as far as words are one, by how many words follow the first.

ghost use Rattle.std.specs.Prelude.{◌≡◌, IfOk};
ghost use Rattle.map_text.specs.Reading.{
  call_in,
  op_by,
  op_in,
  op_of_one,
  op_of_three,
  op_of_two,
  op_with_five,
  op_with_four,
  op_with_one,
  op_with_three,
  op_with_two,
};
ghost use Rattle.map_reader.specs.Views.{texts};

use crate::fields::{bits, comparison, order};
use crate::lists::numbers;
use crate::numbers::{if_any, number, signed};
use crate::words::next;
use flow_graph::{Op, Words};
use pcc_base::NoMemory;
use std::alloc::Global;

// ---- ops of numbers

/// An op of one number.
#[tactic(auto, unfolding(map_text::specs::Reading::op_of_one))]
fn of_one(word: &[u8], a: u32) -> Option<Op>
    ensures { result ≡ op_of_one word.now a }
{
    if word == b"clear".as_slice() {
        return Some(Op::Clear(a));
    }
    if word == b"getchar".as_slice() {
        return Some(Op::Getchar(a));
    }
    if word == b"exit".as_slice() {
        return Some(Op::Exit(a));
    }
    if word == b"mark".as_slice() {
        return Some(Op::Mark(a));
    }
    if word == b"jump".as_slice() {
        return Some(Op::Jump(a));
    }
    None
}

/// An op of two numbers.
#[tactic(auto, unfolding(map_text::specs::Reading::op_of_two))]
fn of_two(word: &[u8], a: u32, b: u32) -> Option<Op>
    ensures { result ≡ op_of_two word.now a b }
{
    if word == b"copy".as_slice() {
        return Some(Op::Copy(a, b));
    }
    if word == b"wide".as_slice() {
        return Some(Op::Wide(a, b));
    }
    if word == b"zero".as_slice() {
        return Some(Op::Zero(a, b));
    }
    if word == b"low".as_slice() {
        return Some(Op::Low(a, b));
    }
    if word == b"low16".as_slice() {
        return Some(Op::Low16(a, b));
    }
    if word == b"neg".as_slice() {
        return Some(Op::Neg(a, b));
    }
    if word == b"not".as_slice() {
        return Some(Op::Not(a, b));
    }
    if word == b"frame".as_slice() {
        return Some(Op::Frame(a, b));
    }
    if word == b"static".as_slice() {
        return Some(Op::Static(a, b));
    }
    if word == b"param".as_slice() {
        return Some(Op::Param(a, b));
    }
    if word == b"putchar".as_slice() {
        return Some(Op::Putchar(a, b));
    }
    if word == b"same".as_slice() {
        return Some(Op::Same(a, b));
    }
    None
}

/// An op of three numbers.
#[tactic(auto, unfolding(map_text::specs::Reading::op_of_three))]
fn of_three(word: &[u8], a: u32, b: u32, c: u32) -> Option<Op>
    ensures { result ≡ op_of_three word.now a b c }
{
    if word == b"add".as_slice() {
        return Some(Op::Add(a, b, c));
    }
    if word == b"sub".as_slice() {
        return Some(Op::Sub(a, b, c));
    }
    if word == b"mul".as_slice() {
        return Some(Op::Mul(a, b, c));
    }
    if word == b"and".as_slice() {
        return Some(Op::And(a, b, c));
    }
    if word == b"or".as_slice() {
        return Some(Op::Or(a, b, c));
    }
    if word == b"xor".as_slice() {
        return Some(Op::Xor(a, b, c));
    }
    if word == b"shl".as_slice() {
        return Some(Op::Shl(a, b, c));
    }
    if word == b"sar".as_slice() {
        return Some(Op::Sar(a, b, c));
    }
    if word == b"shr".as_slice() {
        return Some(Op::Shr(a, b, c));
    }
    if word == b"div".as_slice() {
        return Some(Op::Div(a, b, c));
    }
    if word == b"rem".as_slice() {
        return Some(Op::Rem(a, b, c));
    }
    if word == b"udiv".as_slice() {
        return Some(Op::Udiv(a, b, c));
    }
    if word == b"urem".as_slice() {
        return Some(Op::Urem(a, b, c));
    }
    None
}

// ---- ops of words

/// An op of one word.
#[tactic(auto, unfolding(map_text::specs::Reading::op_with_one))]
fn with_one(word: &[u8], a: &[u8]) -> Option<Op>
    ensures { result ≡ op_with_one word.now a.now }
{
    if word == b"return".as_slice() {
        let from = if_any(a)?;
        return Some(Op::Return(from));
    }
    let a = number(a)?;
    of_one(word, a)
}

/// An op of two words.
#[tactic(auto, unfolding(map_text::specs::Reading::op_with_two))]
fn with_two(word: &[u8], a: &[u8], b: &[u8]) -> Option<Op>
    ensures { result ≡ op_with_two word.now a.now b.now }
{
    if word == b"const".as_slice() {
        let to = number(a)?;
        let number = signed(b)?;
        return Some(Op::Const(to, number));
    }
    let a = number(a)?;
    let b = number(b)?;
    of_two(word, a, b)
}

/// An op of three words.
#[tactic(auto, unfolding(map_text::specs::Reading::op_with_three))]
fn with_three(word: &[u8], a: &[u8], b: &[u8], c: &[u8]) -> Option<Op>
    ensures { result ≡ op_with_three word.now a.now b.now c.now }
{
    if word == b"get".as_slice() {
        let bits = bits(a)?;
        let to = number(b)?;
        let object = number(c)?;
        return Some(Op::Get(bits, to, object));
    }
    if word == b"put".as_slice() {
        let bits = bits(a)?;
        let object = number(b)?;
        let from = number(c)?;
        return Some(Op::Put(bits, object, from));
    }
    let a = number(a)?;
    let b = number(b)?;
    let c = number(c)?;
    of_three(word, a, b, c)
}

/// An op of four words.
#[tactic(auto, unfolding(map_text::specs::Reading::op_with_four))]
fn with_four(word: &[u8], a: &[u8], b: &[u8], c: &[u8], d: &[u8]) -> Option<Op>
    ensures { result ≡ op_with_four word.now a.now b.now c.now d.now }
{
    if word == b"set".as_slice() {
        let how = comparison(a)?;
        let to = number(b)?;
        let first = number(c)?;
        let second = number(d)?;
        return Some(Op::Set(how, to, first, second));
    }
    if word == b"setu".as_slice() {
        let how = order(a)?;
        let to = number(b)?;
        let first = number(c)?;
        let second = number(d)?;
        return Some(Op::Setu(how, to, first, second));
    }
    if word == b"load".as_slice() {
        let bits = bits(a)?;
        let to = number(b)?;
        let array = number(c)?;
        let index = number(d)?;
        return Some(Op::Load(bits, to, array, index));
    }
    if word == b"store".as_slice() {
        let bits = bits(a)?;
        let array = number(b)?;
        let index = number(c)?;
        let from = number(d)?;
        return Some(Op::Store(bits, array, index, from));
    }
    None
}

/// An op of five words.
#[tactic(auto, unfolding(map_text::specs::Reading::op_with_five))]
fn with_five(word: &[u8], a: &[u8], b: &[u8], c: &[u8], d: &[u8], e: &[u8]) -> Option<Op>
    ensures { result ≡ op_with_five word.now a.now b.now c.now d.now e.now }
{
    if word == b"branch".as_slice() {
        let how = comparison(a)?;
        let first = number(b)?;
        let second = number(c)?;
        let x = number(d)?;
        let y = number(e)?;
        return Some(Op::Branch(how, first, second, x, y));
    }
    if word == b"branchu".as_slice() {
        let how = order(a)?;
        let first = number(b)?;
        let second = number(c)?;
        let x = number(d)?;
        let y = number(e)?;
        return Some(Op::Branchu(how, first, second, x, y));
    }
    None
}

/// Any op but a call.
#[tactic(auto, unfolding(map_text::specs::Reading::op_by))]
fn by(word: &[u8], words: &[&[u8]]) -> Option<Op>
    ensures { result ≡ op_by word.now (texts words.now) }
{
    let Some((a, words)) = next(words) else {
        return if word == b"turn".as_slice() {
            Some(Op::Turn)
        } else {
            None
        };
    };
    let Some((b, words)) = next(words) else {
        return with_one(word, a);
    };
    let Some((c, words)) = next(words) else {
        return with_two(word, a, b);
    };
    let Some((d, words)) = next(words) else {
        return with_three(word, a, b, c);
    };
    let Some((e, words)) = next(words) else {
        return with_four(word, a, b, c, d);
    };
    match next(words) {
        None => with_five(word, a, b, c, d, e),
        Some(_) => None,
    }
}

/// A call, of any number of argument words.
#[tactic(auto, unfolding(map_text::specs::Reading::call_in))]
fn call(alloc: Global, words: &[&[u8]]) -> Result<Option<Op>, NoMemory>
    ensures { IfOk result (λ op. op ≡ call_in (texts words.now)) }
{
    let Some((to, words)) = next(words) else {
        return Ok(None);
    };
    let Some((function, words)) = next(words) else {
        return Ok(None);
    };
    let Some(to) = if_any(to) else {
        return Ok(None);
    };
    let Some(function) = number(function) else {
        return Ok(None);
    };
    let Some(arguments) = numbers(alloc, words)? else {
        return Ok(None);
    };
    Ok(Some(Op::Call(to, function, Words::new(arguments))))
}

/// An op.
#[tactic(auto, unfolding(map_text::specs::Reading::op_in))]
pub(crate) fn op(alloc: Global, words: &[&[u8]]) -> Result<Option<Op>, NoMemory>
    ensures { IfOk result (λ op. op ≡ op_in (texts words.now)) }
{
    let Some((word, words)) = next(words) else {
        return Ok(None);
    };
    if word == b"call".as_slice() {
        call(alloc, words)
    } else {
        Ok(by(word, words))
    }
}
