//! Items and declarations.

ghost use Rattle.c_syntax.specs.Declarations.{declarator_of, item_of, declaration_of};
ghost use Rattle.c_grammar.specs.DeclarationReading.{item_behind, read_item, read_more, declaration_behind};
ghost use Rattle.c_grammar.specs.DeclarationReading.{read_declaration};
ghost use Rattle.c_parse_expressions.specs.ExpressionReadings.{below};
ghost use Rattle.c_parse_expressions.specs.Readings.{IsRead, IsPartRead};
ghost use Rattle.c_parse.specs.DeclarationParts.{items_listed};

use crate::declarators::declarator;
use crate::initialisers::maybe_value;
use crate::lists::ItemList;
use crate::optional_parts::some_specifiers;
use c_lex::Punct;
use c_parse_expressions::{Cursor, Height, ParseError, push};
use c_syntax::{Declaration, Declarator, Item, Specifier};

/// `item : declarator ('=' initialiser)?`, behind the declarator
fn item_behind(
    cursor: &mut Cursor<'_>,
    declarator: Declarator,
    height: Height,
) -> Result<Item, ParseError>
    ensures { IsPartRead item_of (item_behind (below height.levels) (declarator_of declarator)) cursor.old.rest.now
        cursor.new.rest.now result }
{
    match maybe_value(cursor, height) {
        Ok(initialiser) => Ok(Item {
            declarator,
            initialiser,
        }),
        Err(error) => {
            drop(declarator);
            Err(error)
        }
    }
}

/// `item : declarator ('=' initialiser)?`
fn item(cursor: &mut Cursor<'_>, height: Height) -> Result<Item, ParseError>
    ensures { IsPartRead item_of (read_item (below height.levels)) cursor.old.rest.now
        cursor.new.rest.now result }
{
    let declarator = declarator(cursor, height)?;
    item_behind(cursor, declarator, height)
}

/// `(',' item)*`, behind the first item
fn items_behind(
    cursor: &mut Cursor<'_>,
    first: Item,
    height: Height,
) -> Result<ItemList, ParseError>
    ensures { IsPartRead items_listed (read_more (read_item (below height.levels)) (item_of first)) cursor.old.rest.now
        cursor.new.rest.now result }
{
    let mut items = Vec::new(cursor.alloc);
    let mut commas = Vec::new(cursor.alloc);
    push(&mut items, first)?;
    'items: while let Some(comma) = cursor.take_mark(Punct::Comma) {
        let next = item(cursor, height)?;
        push(&mut items, next)?;
        push(&mut commas, comma)?;
    }
    Ok(ItemList { items, commas })
}

/// `declaration : specifiers item (',' item)* ';'`, behind the specifiers and the first declarator
pub fn declaration_behind(
    cursor: &mut Cursor<'_>,
    specifiers: Vec<Specifier>,
    declarator: Declarator,
    height: Height,
) -> Result<Declaration, ParseError>
    ensures { IsRead declaration_of
        (declaration_behind (below height.levels) specifiers.items (declarator_of declarator))
        cursor.old.rest.now cursor.new.rest.now result }
{
    let first = item_behind(cursor, declarator, height)?;
    let list = items_behind(cursor, first, height)?;
    let Some(semicolon) = cursor.take_mark(Punct::Semicolon) else {
        return Err(cursor.fault());
    };
    Ok(Declaration {
        specifiers,
        items: list.items,
        commas: list.commas,
        semicolon,
    })
}

/// `declaration : specifiers item (',' item)* ';'` (C99 6.7)
pub fn declaration(cursor: &mut Cursor<'_>, height: Height) -> Result<Declaration, ParseError>
    ensures { IsRead declaration_of (read_declaration (below height.levels)) cursor.old.rest.now
        cursor.new.rest.now result }
{
    let specifiers = some_specifiers(cursor)?;
    let declarator = declarator(cursor, height)?;
    declaration_behind(cursor, specifiers, declarator, height)
}
