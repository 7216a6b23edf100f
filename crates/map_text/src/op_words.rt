//! The words of ops, each behind a space.

ghost use Rattle.std.specs.Prelude.{◌≡◌, ◌∷◌, [], ◌++◌, OnOk, decimal, flat_map};
ghost use Rattle.std.specs.Fmt.{signed_decimal};
ghost use Rattle.flow_graph.specs.declared.op.Op.TheVariants as op;
ghost use Rattle.map_text.specs.Words.{argument_text, bits_text, comparison_text, each_spaced, if_any_text, op_words};
ghost use Rattle.map_text.specs.Words.{order_text};

use crate::digits::push_number;
use flow_graph::{Bits, Comparison, Op, Order, Words};
use itoa::Buffer;
use pcc_base::NoMemory;

/// Puts a word at the end, behind a space.
#[tactic(auto, using(crate::proofs::Printed::word_pushed))]
pub(crate) fn push_word(out: &mut Vec<u8>, word: &[u8]) -> Result<(), NoMemory>
    ensures { OnOk result (out.new.items ≡ out.old.items ++ each_spaced (word.now ∷ [])) }
{
    out.extend_from_slice(b" ")?;
    out.extend_from_slice(word)?;
    Ok(())
}

/// Puts a number at the end, behind a space.
#[tactic(auto, using(crate::proofs::Printed::word_pushed))]
pub(crate) fn push_next(out: &mut Vec<u8>, number: u32) -> Result<(), NoMemory>
    ensures { OnOk result (out.new.items ≡ out.old.items ++ each_spaced (decimal number ∷ [])) }
{
    out.extend_from_slice(b" ")?;
    push_number(out, u64::from(number))?;
    Ok(())
}

/// Puts a signed number at the end, behind a space.
#[tactic(auto, using(crate::proofs::Printed::word_pushed))]
fn push_signed(out: &mut Vec<u8>, number: i32) -> Result<(), NoMemory>
    ensures { OnOk result (out.new.items ≡ out.old.items ++ each_spaced (signed_decimal number ∷ [])) }
{
    let mut buffer = Buffer::new();
    out.extend_from_slice(b" ")?;
    out.extend_from_slice(buffer.format(number).as_bytes())?;
    Ok(())
}

/// Puts a variable at the end, or `-` where there is none, behind a space.
fn push_if_any(out: &mut Vec<u8>, variable: Option<u32>) -> Result<(), NoMemory>
    ensures { OnOk result (out.new.items ≡ out.old.items ++ each_spaced (if_any_text variable ∷ [])) }
{
    match variable {
        Some(variable) => push_next(out, variable)?,
        None => push_word(out, b"-")?,
    }
    Ok(())
}

/// The word of how many bits an access has.
fn bits_word(bits: Bits) -> &'static [u8]
    ensures { result.now ≡ bits_text bits }
{
    match bits {
        Bits::Eight => b"8",
        Bits::Sixteen => b"16",
        Bits::ThirtyTwo => b"32",
    }
}

/// The word of a comparison.
fn comparison_word(how: Comparison) -> &'static [u8]
    ensures { result.now ≡ comparison_text how }
{
    match how {
        Comparison::Eq => b"eq",
        Comparison::Ne => b"ne",
        Comparison::Lt => b"lt",
        Comparison::Le => b"le",
        Comparison::Gt => b"gt",
        Comparison::Ge => b"ge",
    }
}

/// The word of an order.
fn order_word(how: Order) -> &'static [u8]
    ensures { result.now ≡ order_text how }
{
    match how {
        Order::Lt => b"lt",
        Order::Le => b"le",
        Order::Gt => b"gt",
        Order::Ge => b"ge",
    }
}

/// Puts a word and a number at the end.
#[tactic(auto, using(crate::proofs::Printed::two_pushed))]
fn push_one(out: &mut Vec<u8>, word: &[u8], a: u32) -> Result<(), NoMemory>
    ensures { OnOk result (out.new.items ≡ out.old.items ++ each_spaced (word.now ∷ decimal a ∷ [])) }
{
    push_word(out, word)?;
    push_next(out, a)?;
    Ok(())
}

/// Puts a word and two numbers at the end.
#[tactic(auto, using(crate::proofs::Printed::three_pushed))]
fn push_two(out: &mut Vec<u8>, word: &[u8], a: u32, b: u32) -> Result<(), NoMemory>
    ensures { OnOk result (out.new.items ≡ out.old.items ++ each_spaced (word.now ∷ decimal a ∷ decimal b ∷ [])) }
{
    push_word(out, word)?;
    push_next(out, a)?;
    push_next(out, b)?;
    Ok(())
}

/// Puts a word and three numbers at the end.
#[tactic(auto, using(crate::proofs::Printed::four_pushed))]
fn push_three(out: &mut Vec<u8>, word: &[u8], a: u32, b: u32, c: u32) -> Result<(), NoMemory>
    ensures { OnOk result (
        out.new.items ≡ out.old.items ++ each_spaced (word.now ∷ decimal a ∷ decimal b ∷ decimal c ∷ [])) }
{
    push_word(out, word)?;
    push_next(out, a)?;
    push_next(out, b)?;
    push_next(out, c)?;
    Ok(())
}

/// Puts two words and two numbers at the end.
#[tactic(auto, using(crate::proofs::Printed::four_pushed))]
fn push_word_two(out: &mut Vec<u8>, word: &[u8], how: &[u8], a: u32, b: u32) -> Result<(), NoMemory>
    ensures { OnOk result (
        out.new.items ≡ out.old.items ++ each_spaced (word.now ∷ how.now ∷ decimal a ∷ decimal b ∷ [])) }
{
    push_word(out, word)?;
    push_word(out, how)?;
    push_next(out, a)?;
    push_next(out, b)?;
    Ok(())
}

/// Puts two words and three numbers at the end.
#[tactic(auto, using(crate::proofs::Printed::five_pushed))]
fn push_word_three(
    out: &mut Vec<u8>,
    word: &[u8],
    how: &[u8],
    a: u32,
    b: u32,
    c: u32,
) -> Result<(), NoMemory>
    ensures { OnOk result (
        out.new.items
        ≡ out.old.items ++ each_spaced (word.now ∷ how.now ∷ decimal a ∷ decimal b ∷ decimal c ∷ [])) }
{
    push_word(out, word)?;
    push_word(out, how)?;
    push_next(out, a)?;
    push_next(out, b)?;
    push_next(out, c)?;
    Ok(())
}

/// Puts two words and four numbers at the end.
#[tactic(auto, using(crate::proofs::Printed::six_pushed))]
fn push_word_four(
    out: &mut Vec<u8>,
    word: &[u8],
    how: &[u8],
    a: u32,
    b: u32,
    x: u32,
    y: u32,
) -> Result<(), NoMemory>
    ensures { OnOk result (
        out.new.items
        ≡ out.old.items
        ++ each_spaced (word.now ∷ how.now ∷ decimal a ∷ decimal b ∷ decimal x ∷ decimal y ∷ [])) }
{
    push_word(out, word)?;
    push_word(out, how)?;
    push_next(out, a)?;
    push_next(out, b)?;
    push_next(out, x)?;
    push_next(out, y)?;
    Ok(())
}

/// Puts the words of a constant at the end.
#[tactic(auto, using(crate::proofs::Printed::three_pushed))]
fn push_const(out: &mut Vec<u8>, to: u32, number: i32) -> Result<(), NoMemory>
    ensures { OnOk result (out.new.items ≡ out.old.items ++ each_spaced (op_words (op.Const to number))) }
{
    push_word(out, b"const")?;
    push_next(out, to)?;
    push_signed(out, number)?;
    Ok(())
}

/// Puts numbers at the end, a space before each.
pub(crate) fn push_numbers(out: &mut Vec<u8>, numbers: &[u32]) -> Result<(), NoMemory>
    ensures { OnOk result (out.new.items ≡ out.old.items ++ flat_map argument_text numbers.now) }
{
    for number in numbers {
        out.extend_from_slice(b" ")?;
        push_number(out, u64::from(*number))?;
    }
    Ok(())
}

/// Puts the words of a call at the end: the variable of its result, the function, and the argument words.
#[tactic(auto, using(crate::proofs::Printed::call_words_pushed))]
fn push_call(
    out: &mut Vec<u8>,
    to: Option<u32>,
    function: u32,
    arguments: &Words,
) -> Result<(), NoMemory>
    ensures { OnOk result (
        out.new.items ≡ out.old.items ++ each_spaced (op_words (op.Call to function arguments.now))) }
{
    push_word(out, b"call")?;
    push_if_any(out, to)?;
    push_next(out, function)?;
    push_numbers(out, arguments.as_slice())?;
    Ok(())
}

/// Puts the words of a return at the end: its variable, if it has one.
#[tactic(auto, using(crate::proofs::Printed::two_pushed))]
fn push_return(out: &mut Vec<u8>, from: Option<u32>) -> Result<(), NoMemory>
    ensures { OnOk result (out.new.items ≡ out.old.items ++ each_spaced (op_words (op.Return from))) }
{
    push_word(out, b"return")?;
    push_if_any(out, from)?;
    Ok(())
}

/// Puts the words of an op at the end, a space before each. The only refusal is want of memory.
pub fn push_op(out: &mut Vec<u8>, op: &Op) -> Result<(), NoMemory>
    ensures { OnOk result (out.new.items ≡ out.old.items ++ each_spaced (op_words op.now)) }
{
    match *op {
        Op::Const(to, number) => push_const(out, to, number)?,
        Op::Copy(to, from) => push_two(out, b"copy", to, from)?,
        Op::Wide(to, from) => push_two(out, b"wide", to, from)?,
        Op::Zero(to, from) => push_two(out, b"zero", to, from)?,
        Op::Low(to, from) => push_two(out, b"low", to, from)?,
        Op::Low16(to, from) => push_two(out, b"low16", to, from)?,
        Op::Neg(to, a) => push_two(out, b"neg", to, a)?,
        Op::Not(to, a) => push_two(out, b"not", to, a)?,
        Op::Add(to, a, b) => push_three(out, b"add", to, a, b)?,
        Op::Sub(to, a, b) => push_three(out, b"sub", to, a, b)?,
        Op::Mul(to, a, b) => push_three(out, b"mul", to, a, b)?,
        Op::And(to, a, b) => push_three(out, b"and", to, a, b)?,
        Op::Or(to, a, b) => push_three(out, b"or", to, a, b)?,
        Op::Xor(to, a, b) => push_three(out, b"xor", to, a, b)?,
        Op::Shl(to, a, count) => push_three(out, b"shl", to, a, count)?,
        Op::Sar(to, a, count) => push_three(out, b"sar", to, a, count)?,
        Op::Shr(to, a, count) => push_three(out, b"shr", to, a, count)?,
        Op::Div(to, a, b) => push_three(out, b"div", to, a, b)?,
        Op::Rem(to, a, b) => push_three(out, b"rem", to, a, b)?,
        Op::Udiv(to, a, b) => push_three(out, b"udiv", to, a, b)?,
        Op::Urem(to, a, b) => push_three(out, b"urem", to, a, b)?,
        Op::Set(how, to, a, b) => push_word_three(out, b"set", comparison_word(how), to, a, b)?,
        Op::Setu(how, to, a, b) => push_word_three(out, b"setu", order_word(how), to, a, b)?,
        Op::Frame(to, array) => push_two(out, b"frame", to, array)?,
        Op::Static(to, object) => push_two(out, b"static", to, object)?,
        Op::Load(bits, to, p, i) => push_word_three(out, b"load", bits_word(bits), to, p, i)?,
        Op::Store(bits, p, i, from) => push_word_three(out, b"store", bits_word(bits), p, i, from)?,
        Op::Get(bits, to, object) => push_word_two(out, b"get", bits_word(bits), to, object)?,
        Op::Put(bits, object, from) => push_word_two(out, b"put", bits_word(bits), object, from)?,
        Op::Clear(array) => push_one(out, b"clear", array)?,
        Op::Param(to, word) => push_two(out, b"param", to, word)?,
        Op::Call(to, function, ref words) => push_call(out, to, function, words)?,
        Op::Putchar(to, from) => push_two(out, b"putchar", to, from)?,
        Op::Getchar(to) => push_one(out, b"getchar", to)?,
        Op::Exit(status) => push_one(out, b"exit", status)?,
        Op::Same(a, b) => push_two(out, b"same", a, b)?,
        Op::Mark(statement) => push_one(out, b"mark", statement)?,
        Op::Turn => push_word(out, b"turn")?,
        Op::Jump(block) => push_one(out, b"jump", block)?,
        Op::Branch(how, a, b, x, y) => {
            push_word_four(out, b"branch", comparison_word(how), a, b, x, y)?
        }
        Op::Branchu(how, a, b, x, y) => {
            push_word_four(out, b"branchu", order_word(how), a, b, x, y)?
        }
        Op::Return(from) => push_return(out, from)?,
    }
    Ok(())
}
