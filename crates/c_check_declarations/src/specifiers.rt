//! What specifiers say, in any order (C99 6.7.1 to 6.7.3).

ghost use Rattle.std.specs.Prelude.{◌≡◌, ◌∷◌, ◌++◌, List, filter_map, option_map};
ghost use Rattle.c_syntax.specs.declared.operator.SpecifierWord.{SpecifierWord as Words};
ghost use Rattle.c_typing.specs.Checked.{Note};
ghost use Rattle.c_typing.specs.Expressions.{specifiers_at};
ghost use Rattle.c_typing.specs.Types.{may_stand, specified, storage_word, the_storage, words_of};
ghost use Rattle.c_check_names.specs.Views.{storage_of};
ghost use Rattle.c_check_expressions.specs.Said.{IsSaid};
ghost use Rattle.c_check_declarations.specs.DeclaratorAnswers.{IsSpecified, value_answered};
ghost use Rattle.c_check_declarations.specs.Views.{position_of, specified_of, storage_behind, storage_words};

use c_check_expressions::Judged;
use c_check_expressions::type_names::{first_word, the_type};
use c_check_names::Storage;
use c_syntax::{Specifier, SpecifierWord};
use c_tree::ValueType;
use pcc_base::{Fault, FaultKind};

/// Where specifiers stand: outside functions, in a block, in a `for`, in a list of parameters, or in a cast.
#[derive(Clone, Copy)]
pub enum Position {
    Outside,
    InBlock,
    InFor,
    InParameters,
    InCast,
}

/// What specifiers say: void or an integer type, and the storage word.
#[derive(Clone, Copy)]
pub struct Specified {
    pub base: ValueType,
    pub storage: Storage,
}

/// A specifier as a storage word (C99 6.7.1).
fn storage_word(word: SpecifierWord) -> Option<Storage>
    ensures { option_map storage_of result ≡ storage_word word }
{
    match word {
        SpecifierWord::Auto => Some(Storage::Auto),
        SpecifierWord::Register => Some(Storage::Register),
        SpecifierWord::Static => Some(Storage::Static),
        SpecifierWord::Extern => Some(Storage::Extern),
        SpecifierWord::Const
        | SpecifierWord::Void
        | SpecifierWord::Char
        | SpecifierWord::Short
        | SpecifierWord::Int
        | SpecifierWord::Signed => None,
    }
}

/// One more specifier behind a storage word, or behind none: two storage words are too many.
fn one_more(found: Storage, word: SpecifierWord) -> Option<Storage>
    ensures { (words : List Words) → storage_behind result words
        ≡ the_storage (storage_words found ++ filter_map storage_word (word ∷ words)) }
{
    match (found, storage_word(word)) {
        (found, None) => Some(found),
        (Storage::Unsaid, Some(storage)) => Some(storage),
        (_, Some(_)) => None,
    }
}

/// The storage word among specifiers, of which there may be one (C99 6.7.1p2).
fn the_storage(specifiers: &[Specifier]) -> Option<Storage>
    ensures { option_map storage_of result ≡ the_storage (filter_map storage_word (words_of specifiers.now)) }
{
    let mut found = Storage::Unsaid;
    for specifier in specifiers {
        match one_more(found, specifier.word) {
            Some(storage) => found = storage,
            None => return None,
        }
    }
    Some(found)
}

/// Whether a storage word may stand there (C99 6.7.1, 6.7.5.3p2, 6.8.5p3 and 6.9p2).
fn may_stand(position: Position, storage: Storage) -> bool
    ensures { result ≡ may_stand (position_of position) (storage_of storage) }
{
    match (position, storage) {
        (_, Storage::Unsaid)
        | (Position::Outside, Storage::Static | Storage::Extern)
        | (Position::InBlock, Storage::Auto | Storage::Register | Storage::Static)
        | (Position::InFor, Storage::Auto | Storage::Register)
        | (Position::InParameters, Storage::Register) => true,
        _ => false,
    }
}

/// What specifiers say, or none where they say nothing that may stand there.
pub(crate) fn specifiers_if_any(position: Position, specifiers: &[Specifier]) -> Option<Specified>
    ensures { option_map specified_of result ≡ specified (position_of position) specifiers.now }
{
    let base = the_type(specifiers)?;
    let storage = the_storage(specifiers)?;
    if may_stand(position, storage) {
        Some(Specified { base, storage })
    } else {
        None
    }
}

/// What specifiers say, or the fault at their first word.
pub fn specifiers_at(position: Position, specifiers: &[Specifier]) -> Judged<Specified>
    ensures said { (notes : List Note)
        → IsSaid IsSpecified (specifiers_at (position_of position) specifiers.now) result notes notes }
    ensures value { option_map specified_of (value_answered result)
        ≡ specified (position_of position) specifiers.now }
{
    match specifiers_if_any(position, specifiers) {
        Some(said) => Judged::Fits(said),
        None => Judged::Fails(Fault {
            kind: FaultKind::TypeRule,
            at: first_word(specifiers),
        }),
    }
}
