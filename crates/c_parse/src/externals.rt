//! External declarations, and the unit of a file.

ghost use Rattle.std.specs.Prelude.{◌≡◌, [], IfOk};
ghost use Rattle.c_grammar.specs.Chains.{Found, then_read};
ghost use Rattle.c_syntax.specs.Declarations.{declarator_of, part_of};
ghost use Rattle.c_syntax.specs.Statements.{external_of, unit_of, FunctionTree};
ghost use Rattle.c_grammar.specs.StatementReading.{has_parameters, read_external, read_unit};
ghost use Rattle.c_parse_expressions.specs.Readings.{IsRead, IsPartRead};
ghost use Rattle.c_parse.specs.StatementParts.{below_node};

use crate::declarations::declaration_behind;
use crate::declarators::declarator;
use crate::optional_parts::some_specifiers;
use crate::statements::statement_below;
use c_lex::Punct;
use c_parse_expressions::{Cursor, Height, ParseError, push};
use c_syntax::{Declarator, DeclaratorPart, External, RawUnit, Specifier};

/// Whether a declarator with this part is a function's.
fn is_function(part: &DeclaratorPart) -> bool
    ensures { result ≡ has_parameters (part_of part.now) }
{
    match part {
        DeclaratorPart::Function(_) => true,
        DeclaratorPart::Plain | DeclaratorPart::Array(_) => false,
    }
}

/// `block`, behind the specifiers and the declarator of a function. The declarator is dropped by a call, since a drop
/// in place is proved over again through each kind of node.
fn function_behind(
    cursor: &mut Cursor<'_>,
    specifiers: Vec<Specifier>,
    declarator: Declarator,
    height: Height,
) -> Result<External, ParseError>
    ensures { IsRead external_of (λ ts. then_read ((below_node height.levels).statement ts)
        (λ body us. Found (FunctionTree specifiers.items (declarator_of declarator) body) us))
        cursor.old.rest.now cursor.new.rest.now result }
{
    match statement_below(cursor, height) {
        Ok(body) => Ok(External::Function {
            specifiers,
            declarator,
            body,
        }),
        Err(error) => {
            drop(declarator);
            Err(error)
        }
    }
}

/// `external : specifiers pointer? ident '(' parameters? ')' block | declaration` (C99 6.9), in a unit with
/// nodes of less than this height and such a declaration
fn external(cursor: &mut Cursor<'_>, height: Height) -> Result<External, ParseError>
    ensures { IsRead external_of (read_external (below_node height.levels)) cursor.old.rest.now
        cursor.new.rest.now result }
{
    let specifiers = some_specifiers(cursor)?;
    let declarator = declarator(cursor, height)?;
    if is_function(&declarator.part) && cursor.at_mark(Punct::LeftBrace) {
        return function_behind(cursor, specifiers, declarator, height);
    }
    let declaration = declaration_behind(cursor, specifiers, declarator, height)?;
    Ok(External::Declaration(declaration))
}

/// `unit : external*`, to the end of the tokens, of at most this height
pub(crate) fn unit(cursor: &mut Cursor<'_>, height: Height) -> Result<RawUnit, ParseError>
    ensures reads { IsPartRead unit_of (read_unit (below_node height.levels)) cursor.old.rest.now
        cursor.new.rest.now result }
    ensures whole { IfOk result (λ _. cursor.new.rest.now ≡ []) }
{
    let mut externals = Vec::new(cursor.alloc);
    'externals: while !cursor.rest.is_empty() {
        let next = external(cursor, height)?;
        push(&mut externals, next)?;
    }
    Ok(RawUnit { externals })
}
