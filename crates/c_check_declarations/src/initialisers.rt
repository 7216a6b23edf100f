//! Initialisers of locals and of objects of static storage (C99 6.7.8).

ghost use Rattle.std.specs.Prelude.{◌≡◌, ℤ, List, Some, map, option_map, IfOk};
ghost use Rattle.pcc_base.specs.declared.span.Span.{Span as Place};
ghost use Rattle.c_syntax.specs.Declarations.{initialiser_of, value_of};
ghost use Rattle.c_syntax.specs.Expressions.{expr_of, exprs_of};
ghost use Rattle.c_tree.specs.Erased.{boxed_of, expression_of};
ghost use Rattle.c_tree.specs.Program.{Expression as Typed, Elements, Text};
ghost use Rattle.c_typing.specs.Checked.{Checked, Contents as Holding, Note, Values, fits, if_fits};
ghost use Rattle.c_typing.specs.Declarators.{array_values};
ghost use Rattle.c_typing.specs.Expressions.{text_entity, text_values};
ghost use Rattle.c_typing.specs.Initialisers.{
  array_initialiser,
  constants_for,
  constants_in,
  contents_for,
  elements_for,
  first_of,
  letters_for,
  scalar_initialiser,
  scalar_values,
};
ghost use Rattle.c_typing.specs.Names.{object_number};
ghost use Rattle.c_check_expressions.specs.Arguments.{AreTrees};
ghost use Rattle.c_check_expressions.specs.Notes.{contents_of};
ghost use Rattle.c_check_expressions.specs.Said.{IsSaid};
ghost use Rattle.c_check_declarations.specs.DeclaratorAnswers.{AreSame};
ghost use Rattle.c_check_declarations.specs.ItemAnswers.{IsContents, IsInitialiser, IsTreeIfAny};
ghost use Rattle.c_check_declarations.specs.Letters.{letters_fault};
ghost use Rattle.c_check_declarations.specs.Views.{object_of};

use crate::forms::letters_in;
use crate::initial_values::{constants, no_values, trees};
use crate::objects::ObjectType;
use crate::sizes::text_length;
use c_check_expressions::texts::{text_entity, text_note, text_values};
use c_check_expressions::{Contents, Judged, Notes, first_piece};
use c_check_names::Scopes;
use c_syntax::{Expression, Initialiser, InitialiserPart, TextPiece};
use c_tree::{Expression as Tree, Initialiser as First, IntegerType, ValueType};
use pcc_base::{Fault, FaultKind, NoMemory};
use std::alloc::Global;
use std::slice;

/// The values of a scalar's initialiser, in braces or not (C99 6.7.8p11).
pub fn scalar_values(value: &Initialiser) -> &[Expression]
    ensures { exprs_of (map expr_of result.now) ≡ scalar_values (initialiser_of value.now) }
{
    match value {
        Initialiser::Single(e) => slice::from_ref(&**e),
        Initialiser::List { values, .. } => values.as_slice(),
    }
}

/// The first of several trees.
fn first_of(alloc: Global, values: Vec<Tree>) -> Result<Option<Box<Tree>>, NoMemory>
    ensures { IfOk result (λ e. option_map boxed_of e ≡ first_of (map expression_of values.items)) }
{
    match values.into_iter().next() {
        Some(tree) => Ok(Some(Box::new(alloc, tree)?)),
        None => Ok(None),
    }
}

/// The value of a scalar, of which there is one at most.
fn scalar(alloc: Global, values: Judged<Vec<Tree>>) -> Result<Judged<Option<Box<Tree>>>, NoMemory>
    ensures { IfOk result (λ j. (c : Checked (List Typed)) (before after : List Note)
        → IsSaid AreTrees c values before after
        → IsSaid IsTreeIfAny (if_fits c (λ es. fits (first_of es))) j before after) }
{
    match values {
        Judged::Fails(fault) => Ok(Judged::Fails(fault)),
        Judged::Fits(values) => Ok(Judged::Fits(first_of(alloc, values)?)),
    }
}

/// The initialiser of a local that is no array.
pub(crate) fn scalar_initialiser(
    alloc: Global,
    scopes: &Scopes,
    notes: &mut Notes,
    of: ValueType,
    value: &Option<InitialiserPart>,
) -> Result<Judged<Option<Box<Tree>>>, NoMemory>
    ensures { IfOk result (λ j. IsSaid IsTreeIfAny (scalar_initialiser scopes.now of (value_of value.now)) j
        notes.old notes.new) }
{
    match value {
        None => Ok(Judged::Fits(None)),
        Some(part) => {
            let values = trees(alloc, scopes, notes, 1, of, scalar_values(&part.value))?;
            scalar(alloc, values)
        }
    }
}

/// The fault of a string that has more bytes than an array has elements, its zero not counted.
fn letters_fault(count: u32, pieces: &[TextPiece]) -> Result<Option<Fault>, NoMemory>
    ensures { IfOk result (λ f. f ≡ letters_fault count pieces.now) }
{
    if text_length(pieces)? <= count as usize {
        return Ok(None);
    }
    Ok(Some(Fault {
        kind: FaultKind::Initialiser,
        at: first_piece(pieces),
    }))
}

/// A string that initialises an array of a function.
fn text_elements(
    alloc: Global,
    scopes: &Scopes,
    notes: &mut Notes,
    count: u32,
    pieces: &[TextPiece],
) -> Result<Judged<First>, NoMemory>
    ensures { IfOk result (λ j. IsSaid IsInitialiser
        (letters_for count pieces.now (Text (object_number scopes.now (text_entity pieces.now)))) j
        notes.old notes.new) }
{
    match letters_fault(count, pieces)? {
        Some(fault) => Ok(Judged::Fails(fault)),
        None => {
            let number = scopes.object_number(&text_entity(pieces))?;
            notes.push(text_note(alloc, pieces)?)?;
            Ok(Judged::Fits(First::Text(number)))
        }
    }
}

/// The first elements of an array of a function.
fn elements(values: Judged<Vec<Tree>>) -> Judged<First>
    ensures { (c : Checked (List Typed)) (before after : List Note) → IsSaid AreTrees c values before after
        → IsSaid IsInitialiser (if_fits c (λ es. fits (Elements es))) result before after }
{
    match values {
        Judged::Fails(fault) => Judged::Fails(fault),
        Judged::Fits(values) => Judged::Fits(First::List(values)),
    }
}

/// What initialises an array of a function.
fn elements_for(
    alloc: Global,
    scopes: &Scopes,
    notes: &mut Notes,
    element: IntegerType,
    count: u32,
    value: &Initialiser,
) -> Result<Judged<First>, NoMemory>
    ensures { IfOk result (λ j. IsSaid IsInitialiser
        (elements_for scopes.now element count (array_values element (initialiser_of value.now))) j
        notes.old notes.new) }
{
    let of = ValueType::Integer(element);
    if let Some(pieces) = letters_in(Some(of), value) {
        return text_elements(alloc, scopes, notes, count, pieces);
    }
    match value {
        Initialiser::Single(e) => {
            let fault = no_values(alloc, scopes, notes, e)?;
            Ok(Judged::Fails(fault))
        }
        Initialiser::List { values, .. } => {
            let values = trees(alloc, scopes, notes, count, of, values.as_slice())?;
            Ok(elements(values))
        }
    }
}

/// The initialiser of an array of a function.
pub(crate) fn array_initialiser(
    alloc: Global,
    scopes: &Scopes,
    notes: &mut Notes,
    element: IntegerType,
    count: u32,
    value: &Option<InitialiserPart>,
) -> Result<Judged<First>, NoMemory>
    ensures { IfOk result (λ j. IsSaid IsInitialiser
        (array_initialiser scopes.now element count (value_of value.now)) j notes.old notes.new) }
{
    match value {
        None => Ok(Judged::Fits(First::List(Vec::new(alloc)))),
        Some(part) => elements_for(alloc, scopes, notes, element, count, &part.value),
    }
}

/// A string that initialises an array of static storage.
fn text_contents(
    alloc: Global,
    notes: &mut Notes,
    count: u32,
    pieces: &[TextPiece],
) -> Result<Judged<Contents>, NoMemory>
    ensures { IfOk result (λ j. IsSaid IsContents
        (letters_for count pieces.now (Values (text_values pieces.now))) j notes.old notes.new) }
{
    match letters_fault(count, pieces)? {
        Some(fault) => Ok(Judged::Fails(fault)),
        None => {
            let values = text_values(alloc, pieces)?;
            notes.push(text_note(alloc, pieces)?)?;
            Ok(Judged::Fits(Contents::Values(values)))
        }
    }
}

/// The first elements of an object of static storage.
fn values_contents(values: Judged<Vec<i32>>) -> Judged<Contents>
    ensures { (c : Checked (List ℤ)) (before after : List Note) → IsSaid AreSame c values before after
        → IsSaid IsContents (if_fits c (λ ns. fits (Values ns))) result before after }
{
    match values {
        Judged::Fails(fault) => Judged::Fails(fault),
        Judged::Fits(values) => Judged::Fits(Contents::Values(values)),
    }
}

/// Constants that initialise an object of static storage, which has room for so many.
fn constants_for(
    alloc: Global,
    scopes: &Scopes,
    notes: &mut Notes,
    of: IntegerType,
    room: u32,
    values: &[Expression],
) -> Result<Judged<Contents>, NoMemory>
    ensures { IfOk result (λ j. IsSaid IsContents
        (constants_for scopes.now of room (exprs_of (map expr_of values.now))) j notes.old notes.new) }
{
    let values = constants(alloc, scopes, notes, room, of, values)?;
    Ok(values_contents(values))
}

/// What initialises an array of static storage.
fn constants_in(
    alloc: Global,
    scopes: &Scopes,
    notes: &mut Notes,
    element: IntegerType,
    count: u32,
    value: &Initialiser,
) -> Result<Judged<Contents>, NoMemory>
    ensures { IfOk result (λ j. IsSaid IsContents
        (constants_in scopes.now element count (array_values element (initialiser_of value.now))) j
        notes.old notes.new) }
{
    if let Some(pieces) = letters_in(Some(ValueType::Integer(element)), value) {
        return text_contents(alloc, notes, count, pieces);
    }
    match value {
        Initialiser::Single(e) => {
            let fault = no_values(alloc, scopes, notes, e)?;
            Ok(Judged::Fails(fault))
        }
        Initialiser::List { values, .. } => {
            constants_for(alloc, scopes, notes, element, count, values.as_slice())
        }
    }
}

/// What an object of static storage holds at first, which something initialises.
fn contents_given(
    alloc: Global,
    scopes: &Scopes,
    notes: &mut Notes,
    of: ObjectType,
    value: &Initialiser,
) -> Result<Judged<Contents>, NoMemory>
    ensures { IfOk result (λ j. (otherwise : Holding) (equal : Place) → IsSaid IsContents
        (contents_for scopes.now (object_of of) otherwise
        (Some (record { equal = equal; value = initialiser_of value.now })))
        j notes.old notes.new) }
{
    match of {
        ObjectType::Integer(of) | ObjectType::Pointer(of) => {
            constants_for(alloc, scopes, notes, of, 1, scalar_values(value))
        }
        ObjectType::Array(element, count) => {
            constants_in(alloc, scopes, notes, element, count, value)
        }
    }
}

/// What an object of static storage holds at first: `otherwise` where nothing initialises it.
pub(crate) fn contents_for(
    alloc: Global,
    scopes: &Scopes,
    notes: &mut Notes,
    of: ObjectType,
    otherwise: Contents,
    value: &Option<InitialiserPart>,
) -> Result<Judged<Contents>, NoMemory>
    ensures { IfOk result (λ j. IsSaid IsContents
        (contents_for scopes.now (object_of of) (contents_of otherwise) (value_of value.now)) j
        notes.old notes.new) }
{
    match value {
        None => Ok(Judged::Fits(otherwise)),
        Some(part) => contents_given(alloc, scopes, notes, of, &part.value),
    }
}
