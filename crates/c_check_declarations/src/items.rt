//! Declared items of a block or a `for` (C99 6.7 and 6.8.2).

ghost use Rattle.std.specs.Prelude.{◌≡◌, ◌∷◌, [], List, Option, Some, length, map, option_map, IfOk, OnOk};
ghost use Rattle.c_syntax.specs.Declarations.{declaration_of, item_of, value_of};
ghost use Rattle.c_tree.specs.Program as tree;
ghost use Rattle.c_tree.specs.Program.{Expression as Typed, Initialiser as TypedFirst};
ghost use Rattle.c_typing.specs.Checked.{Checked, Contents as Holding, Note, Zeros, also, fits, if_fits, value_in};
ghost use Rattle.c_typing.specs.Declarators.{ObjectType as Objects, object_allowed};
ghost use Rattle.c_typing.specs.Initialisers.{array_initialiser, contents_for, scalar_initialiser};
ghost use Rattle.c_typing.specs.Library.{At, Entity as Thing};
ghost use Rattle.c_typing.specs.Names.{numbered, with_array, with_local};
ghost use Rattle.c_typing.specs.Statements.{
  after_declaration,
  after_item,
  after_items,
  bound_item,
  bound_local,
  bound_object,
  local_item,
  object_item,
  scope_faults,
  sized_item,
  stored,
  typed_declaration,
  typed_item,
  typed_items,
};
ghost use Rattle.c_typing.specs.Types.{is_static};
ghost use Rattle.c_check_names.specs.Views.{declared_of, entity_of, storage_of};
ghost use Rattle.c_check_expressions.specs.Said.{IsSaid};
ghost use Rattle.c_check_declarations.specs.DeclaratorAnswers.{IsObject, value_answered};
ghost use Rattle.c_check_declarations.specs.ItemAnswers.{
  AreItem,
  AreItems,
  IsAnything,
  IsInitialiser,
  IsTreeIfAny,
};
ghost use Rattle.c_check_declarations.specs.Together.{listed};
ghost use Rattle.c_check_declarations.specs.Views.{object_of, position_of, specified_of};

use crate::answers::{also, maybe_behind};
use crate::initialisers::{array_initialiser, scalar_initialiser};
use crate::objects::{ObjectType, bind_object, object_allowed, type_fault};
use crate::sizes::object_declared;
use crate::specifiers::{Position, Specified, specifiers_at};
use crate::stored::stored_object;
use c_check_expressions::{Contents, Judged, Notes};
use c_check_names::{Declared, Entity, Scopes, Storage};
use c_syntax::{Declaration, Identifier, InitialiserPart, Item as RawItem};
use c_tree::{Expression, Initialiser, IntegerType, Item, ValueType};
use pcc_base::{Fault, FaultKind, NoMemory};
use std::alloc::Global;

/// Whether a storage word is `static`.
fn is_static(storage: Storage) -> bool
    ensures { result ≡ is_static (storage_of storage) }
{
    match storage {
        Storage::Static => true,
        Storage::Unsaid | Storage::Auto | Storage::Register | Storage::Extern => false,
    }
}

/// The item of a local that is no array, whose initialiser was judged.
fn scalar(number: u32, local: u32, value: Judged<Option<Box<Expression>>>) -> Judged<Option<Item>>
    ensures { (c : Checked (Option Typed)) (before after : List Note) → IsSaid IsTreeIfAny c value before after
        → IsSaid AreItem (if_fits c (λ e. fits (tree.Scalar number local e ∷ []))) result before after }
{
    match value {
        Judged::Fails(fault) => Judged::Fails(fault),
        Judged::Fits(value) => Judged::Fits(Some(Item::Scalar(number, local, value))),
    }
}

/// The item of an array, whose initialiser was judged.
fn array(
    number: u32,
    array: u32,
    element: IntegerType,
    value: Judged<Initialiser>,
) -> Judged<Option<Item>>
    ensures { (c : Checked TypedFirst) (before after : List Note) → IsSaid IsInitialiser c value before after
        → IsSaid AreItem (if_fits c (λ first. fits (tree.Array number array element first ∷ []))) result before after }
{
    match value {
        Judged::Fails(fault) => Judged::Fails(fault),
        Judged::Fits(value) => Judged::Fits(Some(Item::Array(number, array, element, value))),
    }
}

/// A local that is no array, which is declared before its initialiser.
fn scalar_item(
    alloc: Global,
    scopes: &mut Scopes,
    notes: &mut Notes,
    name: &Identifier,
    of: ValueType,
    value: &Option<InitialiserPart>,
) -> Result<Judged<Option<Item>>, NoMemory>
    ensures said { let inside = with_local name.now.name of (numbered scopes.old) in
        IfOk result (λ j. IsSaid AreItem (if_fits (scalar_initialiser inside of (value_of value.now)) (λ e.
        fits (tree.Scalar scopes.old.next (length scopes.old.locals) e ∷ []))) j notes.old notes.new) }
    ensures scope { OnOk result (scopes.new ≡ with_local name.now.name of (numbered scopes.old)) }
{
    let number = scopes.take_number()?;
    let local = scopes.declare_local(alloc, &name.name, of)?;
    let value = scalar_initialiser(alloc, scopes, notes, of, value)?;
    Ok(scalar(number, local, value))
}

/// An array of the function, which is declared before its initialiser.
fn array_item(
    alloc: Global,
    scopes: &mut Scopes,
    notes: &mut Notes,
    name: &Identifier,
    element: IntegerType,
    count: u32,
    value: &Option<InitialiserPart>,
) -> Result<Judged<Option<Item>>, NoMemory>
    ensures said { let inside = with_array name.now.name element count (numbered scopes.old) in
        IfOk result (λ j. IsSaid AreItem (if_fits (array_initialiser inside element count (value_of value.now))
        (λ first. fits (tree.Array scopes.old.next (length scopes.old.arrays) element first ∷ []))) j
        notes.old notes.new) }
    ensures scope { OnOk result (scopes.new ≡ with_array name.now.name element count (numbered scopes.old)) }
{
    let number = scopes.take_number()?;
    let place = scopes.declare_array(alloc, &name.name, element, count)?;
    let value = array_initialiser(alloc, scopes, notes, element, count, value)?;
    Ok(array(number, place, element, value))
}

/// A local or an array of the function, which is declared before its initialiser.
fn local_item(
    alloc: Global,
    scopes: &mut Scopes,
    notes: &mut Notes,
    name: &Identifier,
    of: ObjectType,
    value: &Option<InitialiserPart>,
) -> Result<Judged<Option<Item>>, NoMemory>
    ensures said { IfOk result (λ j. IsSaid AreItem
        (local_item scopes.old (bound_local name.now (object_of of) scopes.old) (object_of of) (value_of value.now)) j
        notes.old notes.new) }
    ensures scope { OnOk result (scopes.new ≡ bound_local name.now (object_of of) scopes.old) }
{
    match of {
        ObjectType::Integer(of) => {
            scalar_item(alloc, scopes, notes, name, ValueType::Integer(of), value)
        }
        ObjectType::Pointer(of) => {
            scalar_item(alloc, scopes, notes, name, ValueType::Pointer(of), value)
        }
        ObjectType::Array(element, count) => {
            array_item(alloc, scopes, notes, name, element, count, value)
        }
    }
}

/// No item, where a static object was judged.
fn no_item(part: Judged<()>) -> Judged<Option<Item>>
    ensures { (e : Thing) (of : Objects) (c : Checked Holding) (before after : List Note)
        → IsSaid IsAnything (stored {A = Unit {0}} e of tt c) part before after
        → IsSaid AreItem (stored e of [] c) result before after }
{
    match part {
        Judged::Fails(fault) => Judged::Fails(fault),
        Judged::Fits(()) => Judged::Fits(None),
    }
}

/// The place of a name, which names a static object of a block.
fn static_entity(name: &Identifier) -> Entity
    ensures { entity_of result ≡ At name.now.at }
{
    Entity::At(name.at.file, name.at.line, name.at.col)
}

/// A static object of a block, which is declared before its initialiser.
fn static_item(
    alloc: Global,
    scopes: &mut Scopes,
    notes: &mut Notes,
    name: &Identifier,
    of: ObjectType,
    value: &Option<InitialiserPart>,
) -> Result<Judged<Option<Item>>, NoMemory>
    ensures said { let inside = bound_object name.now (At name.now.at) (object_of of) scopes.old in
        IfOk result (λ j. IsSaid AreItem (stored (At name.now.at) (object_of of) []
        (contents_for inside (object_of of) Zeros (value_of value.now))) j notes.old notes.new) }
    ensures scope { OnOk result (scopes.new ≡ bound_object name.now (At name.now.at) (object_of of) scopes.old) }
{
    bind_object(alloc, scopes, name, static_entity(name), of)?;
    let part = stored_object(
        alloc,
        scopes,
        notes,
        static_entity(name),
        of,
        Contents::Zeros,
        value,
    )?;
    Ok(no_item(part))
}

/// An object of a block, which is declared before its initialiser.
fn object_item(
    alloc: Global,
    scopes: &mut Scopes,
    notes: &mut Notes,
    is_static: bool,
    name: &Identifier,
    of: ObjectType,
    value: &Option<InitialiserPart>,
) -> Result<Judged<Option<Item>>, NoMemory>
    ensures said { let inside = bound_item is_static name.now (Some (object_of of)) scopes.old in
        IfOk result (λ j. IsSaid AreItem
        (object_item is_static scopes.old inside name.now (value_of value.now) (object_of of)) j
        notes.old notes.new) }
    ensures scope { OnOk result (scopes.new ≡ bound_item is_static name.now (Some (object_of of)) scopes.old) }
{
    if is_static {
        return static_item(alloc, scopes, notes, name, of, value);
    }
    local_item(alloc, scopes, notes, name, of, value)
}

/// An object of a block, where its type is one that it may have.
fn allowed_item(
    alloc: Global,
    scopes: &mut Scopes,
    notes: &mut Notes,
    is_static: bool,
    name: &Identifier,
    of: Judged<ObjectType>,
    value: &Option<InitialiserPart>,
) -> Result<Judged<Option<Item>>, NoMemory>
    ensures said { let inside = bound_item is_static name.now (option_map object_of (value_answered of)) scopes.old in
        IfOk result (λ j. (c : Checked Objects) (before : List Note) → IsSaid IsObject c of before notes.old
        → IsSaid AreItem (if_fits c
        (object_item is_static scopes.old inside name.now (value_of value.now))) j before notes.new) }
    ensures scope { OnOk result (scopes.new
        ≡ bound_item is_static name.now (option_map object_of (value_answered of)) scopes.old) }
{
    match of {
        Judged::Fails(fault) => Ok(Judged::Fails(fault)),
        Judged::Fits(of) => object_item(alloc, scopes, notes, is_static, name, of, value),
    }
}

/// The fault of a name that stands twice in a scope (C99 6.7p3).
fn scope_fault(scopes: &Scopes, name: &Identifier) -> Option<Fault>
    ensures { listed result ≡ scope_faults scopes.now name.now }
{
    if scopes.is_declared_here(&name.name) {
        return Some(Fault {
            kind: FaultKind::Redeclared,
            at: name.at,
        });
    }
    None
}

/// An item whose declarator was judged.
fn declared_item(
    alloc: Global,
    scopes: &mut Scopes,
    notes: &mut Notes,
    is_static: bool,
    item: &RawItem,
    declared: &Declared,
) -> Result<Judged<Option<Item>>, NoMemory>
    ensures said { let name = item.now.declarator.name in
        let inside = bound_item is_static name (value_in (object_allowed is_static name.at (declared_of declared.now)))
        scopes.old in IfOk result (λ j. IsSaid AreItem (also (scope_faults scopes.old name)
        (if_fits (object_allowed is_static name.at (declared_of declared.now))
        (object_item is_static scopes.old inside name (value_of item.now.initialiser)))) j notes.old notes.new) }
    ensures scope { let name = item.now.declarator.name in OnOk result (scopes.new ≡ bound_item is_static name
        (value_in (object_allowed is_static name.at (declared_of declared.now))) scopes.old) }
{
    let name = &item.declarator.name;
    let fault = scope_fault(scopes, name);
    let of = object_allowed(is_static, name.at, declared);
    let part = allowed_item(alloc, scopes, notes, is_static, name, of, &item.initialiser)?;
    Ok(also(fault, part))
}

/// A declared item, but for what its specifiers and `*` forbid whatever its size is.
fn sized_item(
    alloc: Global,
    scopes: &mut Scopes,
    notes: &mut Notes,
    said: Specified,
    item: &RawItem,
) -> Result<Judged<Option<Item>>, NoMemory>
    ensures said { IfOk result (λ j. IsSaid AreItem
        (sized_item (specified_of said) (item_of item.now) scopes.old) j notes.old notes.new) }
    ensures scope { OnOk result (scopes.new ≡ after_item (specified_of said) (item_of item.now) scopes.old) }
{
    match object_declared(
        alloc,
        scopes,
        notes,
        said,
        &item.declarator,
        &item.initialiser,
    )? {
        Judged::Fails(fault) => Ok(Judged::Fails(fault)),
        Judged::Fits(declared) => {
            let is_static = is_static(said.storage);
            declared_item(alloc, scopes, notes, is_static, item, &declared)
        }
    }
}

/// A declared item of a block or a `for`; one of static storage is none. Its name is seen behind its declarator, in its
/// own initialiser already (C99 6.2.1p7).
fn item(
    alloc: Global,
    scopes: &mut Scopes,
    notes: &mut Notes,
    said: Specified,
    item: &RawItem,
) -> Result<Judged<Option<Item>>, NoMemory>
    ensures said { IfOk result (λ j. IsSaid AreItem
        (typed_item (specified_of said) (item_of item.now) scopes.old) j notes.old notes.new) }
    ensures scope { OnOk result (scopes.new ≡ after_item (specified_of said) (item_of item.now) scopes.old) }
{
    let forbidden = type_fault(is_static(said.storage), said, &item.declarator);
    let part = sized_item(alloc, scopes, notes, said, item)?;
    Ok(also(forbidden, part))
}

/// The items of a list, one behind the other.
fn items(
    alloc: Global,
    scopes: &mut Scopes,
    notes: &mut Notes,
    said: Specified,
    list: &[RawItem],
) -> Result<Judged<Vec<Item>>, NoMemory>
    ensures said { IfOk result (λ j. IsSaid AreItems
        (typed_items (specified_of said) (map item_of list.now) scopes.old) j notes.old notes.new) }
    ensures scope { OnOk result (scopes.new ≡ after_items (specified_of said) (map item_of list.now) scopes.old) }
{
    let mut items = Judged::Fits(Vec::new(alloc));
    for one in list {
        let part = item(alloc, scopes, notes, said, one)?;
        items = maybe_behind(items, part)?;
    }
    Ok(items)
}

/// The items of a declaration in a block or a `for`, but for those of static storage. Their names are seen behind it.
pub fn declaration(
    alloc: Global,
    scopes: &mut Scopes,
    notes: &mut Notes,
    position: Position,
    declaration: &Declaration,
) -> Result<Judged<Vec<Item>>, NoMemory>
    ensures said { IfOk result (λ j. IsSaid AreItems
        (typed_declaration (position_of position) (declaration_of declaration.now) scopes.old) j
        notes.old notes.new) }
    ensures scope { OnOk result (scopes.new
        ≡ after_declaration (position_of position) (declaration_of declaration.now) scopes.old) }
{
    match specifiers_at(position, declaration.specifiers.as_slice()) {
        Judged::Fails(fault) => Ok(Judged::Fails(fault)),
        Judged::Fits(said) => items(alloc, scopes, notes, said, declaration.items.as_slice()),
    }
}
