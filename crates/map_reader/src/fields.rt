//! Widths, comparisons, orders and names, as far as a word is one.

ghost use Rattle.std.specs.Prelude.{◌≡◌, IfOk, option_map};
ghost use Rattle.map_text.specs.Fields.{bits_in, comparison_in, named_in, order_in, width_in};
ghost use Rattle.map_file.specs.Views.{name_of};

use crate::words::cut_at;
use flow_graph::{Bits, Comparison, Order};
use map_file::MapName;
use pcc_base::{Name, NoMemory, Width};
use std::alloc::Global;
use std::rc::Rc;

/// The width that a word writes.
#[tactic(auto, unfolding(map_text::specs::Fields::width_in))]
pub(crate) fn width(word: &[u8]) -> Option<Width>
    ensures { result ≡ width_in word.now }
{
    if word == b"1".as_slice() {
        return Some(Width::One);
    }
    if word == b"2".as_slice() {
        return Some(Width::Two);
    }
    None
}

/// How many bits an access has.
#[tactic(auto, unfolding(map_text::specs::Fields::bits_in))]
pub(crate) fn bits(word: &[u8]) -> Option<Bits>
    ensures { result ≡ bits_in word.now }
{
    if word == b"8".as_slice() {
        return Some(Bits::Eight);
    }
    if word == b"16".as_slice() {
        return Some(Bits::Sixteen);
    }
    if word == b"32".as_slice() {
        return Some(Bits::ThirtyTwo);
    }
    None
}

/// How two values are compared.
#[tactic(auto, unfolding(map_text::specs::Fields::comparison_in))]
pub(crate) fn comparison(word: &[u8]) -> Option<Comparison>
    ensures { result ≡ comparison_in word.now }
{
    if word == b"eq".as_slice() {
        return Some(Comparison::Eq);
    }
    if word == b"ne".as_slice() {
        return Some(Comparison::Ne);
    }
    if word == b"lt".as_slice() {
        return Some(Comparison::Lt);
    }
    if word == b"le".as_slice() {
        return Some(Comparison::Le);
    }
    if word == b"gt".as_slice() {
        return Some(Comparison::Gt);
    }
    if word == b"ge".as_slice() {
        return Some(Comparison::Ge);
    }
    None
}

/// How two numbers without sign are ordered.
#[tactic(auto, unfolding(map_text::specs::Fields::order_in))]
pub(crate) fn order(word: &[u8]) -> Option<Order>
    ensures { result ≡ order_in word.now }
{
    if word == b"lt".as_slice() {
        return Some(Order::Lt);
    }
    if word == b"le".as_slice() {
        return Some(Order::Le);
    }
    if word == b"gt".as_slice() {
        return Some(Order::Gt);
    }
    if word == b"ge".as_slice() {
        return Some(Order::Ge);
    }
    None
}

/// The name with these bytes.
pub(crate) fn name(alloc: Global, word: &[u8]) -> Result<Name, NoMemory>
    ensures { IfOk result (λ name. name ≡ word.now) }
{
    let bytes = word.to_vec(alloc)?;
    Ok(Name::new(Rc::new(alloc, bytes)?))
}

/// What a variable is: a name, a name with `.base` or `.index` behind it, or `-`.
#[tactic(auto, unfolding(map_text::specs::Fields::named_in))]
pub(crate) fn named(alloc: Global, word: &[u8]) -> Result<Option<MapName>, NoMemory>
    ensures { IfOk result (λ named. option_map name_of named ≡ named_in word.now) }
{
    let Some((front, part)) = cut_at(word, b'.') else {
        if word == b"-".as_slice() {
            return Ok(Some(MapName::Temporary));
        }
        let scalar = name(alloc, word)?;
        return Ok(Some(MapName::Scalar(scalar)));
    };
    if part == b"base".as_slice() {
        let array = name(alloc, front)?;
        return Ok(Some(MapName::Base(array)));
    }
    if part == b"index".as_slice() {
        let array = name(alloc, front)?;
        return Ok(Some(MapName::Index(array)));
    }
    Ok(None)
}
