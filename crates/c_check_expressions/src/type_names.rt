//! The types that casts name (C99 6.7.6).

ghost use Rattle.std.specs.Prelude.{◌≡◌, option_map};
ghost use Rattle.std.specs.List.{list_any};
ghost use Rattle.c_syntax.specs.Expressions.{star_of};
ghost use Rattle.c_check_expressions.specs.Parts.{Stands};
ghost use Rattle.c_typing.specs.Expressions.{first_word, type_name};
ghost use Rattle.c_typing.specs.Types.{pointed, specified, the_type, times, word_number, words_of, InCast};
ghost use Rattle.c_check_expressions.specs.TypeNames.{is_storage};

use crate::judged::Judged;
use c_syntax::{Pointer, Specifier, SpecifierWord};
use c_tree::{IntegerType, ValueType};
use pcc_base::{Fault, FaultKind, Span};

/// The number of a specifier.
fn word_number(word: SpecifierWord) -> u8
    ensures { result ≡ word_number word }
{
    match word {
        SpecifierWord::Auto => 0,
        SpecifierWord::Register => 1,
        SpecifierWord::Static => 2,
        SpecifierWord::Extern => 3,
        SpecifierWord::Const => 4,
        SpecifierWord::Void => 5,
        SpecifierWord::Char => 6,
        SpecifierWord::Short => 7,
        SpecifierWord::Int => 8,
        SpecifierWord::Signed => 9,
    }
}

/// How often a word stands among specifiers.
fn times(word: SpecifierWord, specifiers: &[Specifier]) -> usize
    ensures { result ≡ times word (words_of specifiers.now) }
{
    specifiers
        .iter()
        .map(|s| s.word)
        .filter(|other| word_number(*other) == word_number(word))
        .count()
}

/// The type that specifiers name, in any order (C99 6.7.2p2).
pub fn the_type(specifiers: &[Specifier]) -> Option<ValueType>
    ensures { result ≡ the_type (words_of specifiers.now) }
{
    let void = times(SpecifierWord::Void, specifiers);
    let char = times(SpecifierWord::Char, specifiers);
    let short = times(SpecifierWord::Short, specifiers);
    let int = times(SpecifierWord::Int, specifiers);
    let signed = times(SpecifierWord::Signed, specifiers);
    match (void, char, short, int, signed) {
        (1, 0, 0, 0, 0) => Some(ValueType::Void),
        (0, 1, 0, 0, 0 | 1) => Some(ValueType::Integer(IntegerType::Char)),
        (0, 0, 1, 0 | 1, 0 | 1) => Some(ValueType::Integer(IntegerType::Short)),
        (0, 0, 0, 1, 0 | 1) | (0, 0, 0, 0, 1) => Some(ValueType::Integer(IntegerType::Int)),
        _ => None,
    }
}

/// Whether a specifier is a storage word (C99 6.7.1).
fn is_storage(word: SpecifierWord) -> bool
    ensures { result ≡ is_storage word }
{
    match word {
        SpecifierWord::Auto
        | SpecifierWord::Register
        | SpecifierWord::Static
        | SpecifierWord::Extern => true,
        SpecifierWord::Const
        | SpecifierWord::Void
        | SpecifierWord::Char
        | SpecifierWord::Short
        | SpecifierWord::Int
        | SpecifierWord::Signed => false,
    }
}

/// Whether a storage word stands among specifiers.
pub(crate) fn has_storage(specifiers: &[Specifier]) -> bool
    ensures { result ≡ list_any is_storage (words_of specifiers.now) }
{
    specifiers.iter().map(|s| s.word).any(is_storage)
}

/// The type that the specifiers of a cast name: no storage word stands there.
fn base(specifiers: &[Specifier]) -> Option<ValueType>
    ensures { result ≡ option_map (λ s. s.base) (specified InCast specifiers.now) }
{
    if has_storage(specifiers) {
        return None;
    }
    the_type(specifiers)
}

/// A base with `*` or without; none is a pointer to void, which the language hasn't.
pub fn pointed(base: ValueType, pointer: &Option<Pointer>) -> Option<ValueType>
    ensures { result ≡ pointed base (star_of pointer.now) }
{
    match (base, pointer) {
        (_, None) => Some(base),
        (ValueType::Integer(of), Some(_)) => Some(ValueType::Pointer(of)),
        (ValueType::Void | ValueType::Pointer(_), Some(_)) => None,
    }
}

/// The place of the first specifier.
pub fn first_word(specifiers: &[Specifier]) -> Span
    ensures { result ≡ first_word specifiers.now }
{
    match specifiers.first() {
        Some(specifier) => specifier.at,
        None => Span {
            file: 0,
            line: 0,
            col: 0,
        },
    }
}

/// The type that a cast names, or the fault at its specifiers or its `(`.
pub fn type_name(
    opening: Span,
    specifiers: &[Specifier],
    pointer: &Option<Pointer>,
) -> Judged<ValueType>
    ensures { Stands (λ t u. u ≡ t) (type_name opening specifiers.now (star_of pointer.now)) result }
{
    let Some(base) = base(specifiers) else {
        return Judged::Fails(Fault {
            kind: FaultKind::TypeRule,
            at: first_word(specifiers),
        });
    };
    match pointed(base, pointer) {
        Some(of) => Judged::Fits(of),
        None => Judged::Fails(Fault {
            kind: FaultKind::PointerUse,
            at: opening,
        }),
    }
}
