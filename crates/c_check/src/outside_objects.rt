//! Objects that are declared outside functions (C99 6.9.2).

ghost use Rattle.std.specs.Prelude.{◌≡◌, [], List, Some, is_some, option_map, true, IfOk, OnOk};
ghost use Rattle.c_syntax.specs.Declarations.{item_of, value_of};
ghost use Rattle.c_tree.specs.Program.{Function as Defined};
ghost use Rattle.c_typing.specs.Checked.{Checked, Note, also, if_fits};
ghost use Rattle.c_typing.specs.Declarators.{ObjectType as Objects, object_allowed};
ghost use Rattle.c_typing.specs.Files.{
  after_object,
  bound_outer,
  outer_of,
  redeclared_faults,
  sized_object,
  typed_object,
  without_value,
};
ghost use Rattle.c_typing.specs.Initialisers.{contents_for};
ghost use Rattle.c_typing.specs.Statements.{bound_object, stored};
ghost use Rattle.c_check_names.specs.Views as views;
ghost use Rattle.c_check_expressions.specs.Notes.{contents_of};
ghost use Rattle.c_check_expressions.specs.Said.{IsSaid};
ghost use Rattle.c_check_declarations.specs.DeclaratorAnswers.{IsObject, value_answered};
ghost use Rattle.c_check_declarations.specs.Views.{object_of, specified_of};
ghost use Rattle.c_check.specs.OutsideAnswers.{AreNone};
ghost use Rattle.c_check.specs.Objects.{bound_if_any};

use crate::outers::{outer, redeclared_fault};
use c_check_declarations::{
    ObjectType, Specified, also, bind_object, object_allowed, object_declared, stored_object,
    type_fault,
};
use c_check_expressions::{Contents, Judged, Notes};
use c_check_names::{Declared, Entity, Scopes, Storage};
use c_syntax::{Identifier, InitialiserPart, Item};
use pcc_base::NoMemory;
use std::alloc::Global;

/// What an object holds where nothing initialises it: an `extern` one is defined elsewhere, another one is zero.
fn without_value(said: Specified) -> Contents
    ensures { contents_of result ≡ without_value (specified_of said) }
{
    match said.storage {
        Storage::Extern => Contents::Elsewhere,
        Storage::Unsaid | Storage::Auto | Storage::Register | Storage::Static => Contents::Zeros,
    }
}

/// An object of an allowed type, which is declared before its initialiser.
fn allowed_object(
    alloc: Global,
    scopes: &mut Scopes,
    notes: &mut Notes,
    said: Specified,
    name: &Identifier,
    entity: Entity,
    of: ObjectType,
    value: &Option<InitialiserPart>,
) -> Result<Judged<()>, NoMemory>
    ensures said { let inside = bound_object name.now (views.entity_of entity) (object_of of) scopes.old in
        IfOk result (λ j. IsSaid AreNone (stored {A = List Defined} (views.entity_of entity) (object_of of) []
        (contents_for inside (object_of of) (without_value (specified_of said)) (value_of value.now))) j
        notes.old notes.new) }
    ensures scope { OnOk result (scopes.new
        ≡ bound_object name.now (views.entity_of entity) (object_of of) scopes.old) }
{
    let seen = entity.copy(alloc)?;
    bind_object(alloc, scopes, name, seen, of)?;
    let otherwise = without_value(said);
    stored_object(alloc, scopes, notes, entity, of, otherwise, value)
}

/// An object, where its type is one that it may have.
fn object_if_allowed(
    alloc: Global,
    scopes: &mut Scopes,
    notes: &mut Notes,
    said: Specified,
    name: &Identifier,
    entity: Entity,
    of: Judged<ObjectType>,
    value: &Option<InitialiserPart>,
) -> Result<Judged<()>, NoMemory>
    ensures said { let e = views.entity_of entity in
        let inside = bound_if_any name.now e (option_map object_of (value_answered of)) scopes.old in
        IfOk result (λ j. (c : Checked Objects) (before : List Note) → IsSaid IsObject c of before notes.old
        → IsSaid AreNone (if_fits c (λ type. stored {A = List Defined} e type []
        (contents_for inside type (without_value (specified_of said)) (value_of value.now)))) j before notes.new) }
    ensures scope { OnOk result (scopes.new ≡ bound_if_any name.now (views.entity_of entity)
        (option_map object_of (value_answered of)) scopes.old) }
{
    match of {
        Judged::Fails(fault) => Ok(Judged::Fails(fault)),
        Judged::Fits(of) => allowed_object(alloc, scopes, notes, said, name, entity, of, value),
    }
}

/// An object of a declared type.
fn declared_object(
    alloc: Global,
    scopes: &mut Scopes,
    notes: &mut Notes,
    said: Specified,
    item: &Item,
    declared: Declared,
) -> Result<Judged<()>, NoMemory>
    ensures said { let i = item_of item.now in
        let name = i.declarator.name in
        let whole = is_some i.initialiser in
        let type = views.declared_of declared in
        let o = outer_of scopes.old (specified_of said) name whole type in
        let inside = bound_outer (specified_of said) name whole (Some type) scopes.old in
        IfOk result (λ j. IsSaid AreNone (also (redeclared_faults scopes.old name o)
        (if_fits (object_allowed true name.at type) (λ allowed. stored {A = List Defined} o.entity allowed []
        (contents_for inside allowed (without_value (specified_of said)) i.initialiser)))) j notes.old notes.new) }
    ensures scope { let i = item_of item.now in OnOk result (scopes.new ≡ bound_outer (specified_of said)
        i.declarator.name (is_some i.initialiser) (Some (views.declared_of declared)) scopes.old) }
{
    let name = &item.declarator.name;
    let of = object_allowed(true, name.at, &declared);
    let whole = item.initialiser.is_some();
    let outer = outer(alloc, scopes, said, name, whole, declared)?;
    let fault = redeclared_fault(scopes, name, &outer);
    let entity = outer.entity.copy(alloc)?;
    scopes.add_outer(alloc, outer)?;
    let part = object_if_allowed(
        alloc,
        scopes,
        notes,
        said,
        name,
        entity,
        of,
        &item.initialiser,
    )?;
    Ok(also(fault, part))
}

/// An object, but for what its specifiers and `*` forbid whatever its size is.
fn sized_object(
    alloc: Global,
    scopes: &mut Scopes,
    notes: &mut Notes,
    said: Specified,
    item: &Item,
) -> Result<Judged<()>, NoMemory>
    ensures said { IfOk result (λ j. IsSaid AreNone
        (sized_object (specified_of said) (item_of item.now) scopes.old) j notes.old notes.new) }
    ensures scope { OnOk result (scopes.new ≡ after_object (specified_of said) (item_of item.now) scopes.old) }
{
    match object_declared(
        alloc,
        scopes,
        notes,
        said,
        &item.declarator,
        &item.initialiser,
    )? {
        Judged::Fails(fault) => Ok(Judged::Fails(fault)),
        Judged::Fits(declared) => declared_object(alloc, scopes, notes, said, item, declared),
    }
}

/// A declared item that is an object. Its name is seen behind its declarator, in its own initialiser already
/// (C99 6.2.1p7).
pub(crate) fn object(
    alloc: Global,
    scopes: &mut Scopes,
    notes: &mut Notes,
    said: Specified,
    item: &Item,
) -> Result<Judged<()>, NoMemory>
    ensures said { IfOk result (λ j. IsSaid AreNone
        (typed_object (specified_of said) (item_of item.now) scopes.old) j notes.old notes.new) }
    ensures scope { OnOk result (scopes.new ≡ after_object (specified_of said) (item_of item.now) scopes.old) }
{
    let forbidden = type_fault(true, said, &item.declarator);
    let part = sized_object(alloc, scopes, notes, said, item)?;
    Ok(also(forbidden, part))
}
