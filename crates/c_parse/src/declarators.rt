//! Declarators and parameters.

ghost use Rattle.c_syntax.specs.Declarations.{parameter_of, parameters_of, part_of, declarator_of};
ghost use Rattle.c_grammar.specs.DeclarationReading.{read_parameter, read_parameters, parameters_behind, read_part};
ghost use Rattle.c_grammar.specs.DeclarationReading.{read_declarator};
ghost use Rattle.c_parse_expressions.specs.ExpressionReadings.{below};
ghost use Rattle.c_parse_expressions.specs.Readings.{IsRead, IsPartRead};
ghost use Rattle.c_parse.specs.DeclarationParts.{parameters_listed};

use crate::lists::ParameterList;
use crate::optional_parts::{array_behind, maybe_array, some_specifiers, take_name};
use c_lex::Punct;
use c_parse_expressions::{Cursor, Height, ParseError, push};
use c_syntax::{Declarator, DeclaratorPart, Parameter, ParametersPart};
use pcc_base::Span;

/// `parameter : specifiers pointer? ident? ('[' conditional? ']')?`
fn parameter(cursor: &mut Cursor<'_>, height: Height) -> Result<Parameter, ParseError>
    ensures { IsRead parameter_of (read_parameter (below height.levels)) cursor.old.rest.now
        cursor.new.rest.now result }
{
    let specifiers = some_specifiers(cursor)?;
    let pointer = cursor.take_pointer()?;
    let name = take_name(cursor)?;
    let array = maybe_array(cursor, height)?;
    Ok(Parameter {
        specifiers,
        pointer,
        name,
        array,
    })
}

/// `parameters?`, before a `)`, with `parameters : parameter (',' parameter)*`
fn parameters(cursor: &mut Cursor<'_>, height: Height) -> Result<ParameterList, ParseError>
    ensures { IsPartRead parameters_listed (read_parameters (below height.levels)) cursor.old.rest.now
        cursor.new.rest.now result }
{
    let mut parameters = Vec::new(cursor.alloc);
    let mut commas = Vec::new(cursor.alloc);
    if cursor.at_mark(Punct::RightParen) {
        return Ok(ParameterList { parameters, commas });
    }
    let first = parameter(cursor, height)?;
    push(&mut parameters, first)?;
    'parameters: while let Some(comma) = cursor.take_mark(Punct::Comma) {
        let next = parameter(cursor, height)?;
        push(&mut parameters, next)?;
        push(&mut commas, comma)?;
    }
    Ok(ParameterList { parameters, commas })
}

/// `'(' parameters? ')'`, behind the `(`
fn parameters_behind(
    cursor: &mut Cursor<'_>,
    opening: Span,
    height: Height,
) -> Result<ParametersPart, ParseError>
    ensures { IsRead parameters_of (parameters_behind (below height.levels) opening) cursor.old.rest.now
        cursor.new.rest.now result }
{
    let list = parameters(cursor, height)?;
    let Some(close) = cursor.take_mark(Punct::RightParen) else {
        return Err(cursor.fault());
    };
    Ok(ParametersPart {
        opening,
        parameters: list.parameters,
        commas: list.commas,
        close,
    })
}

/// `('[' conditional? ']' | '(' parameters? ')')?`
fn part(cursor: &mut Cursor<'_>, height: Height) -> Result<DeclaratorPart, ParseError>
    ensures { IsPartRead part_of (read_part (below height.levels)) cursor.old.rest.now
        cursor.new.rest.now result }
{
    if let Some(opening) = cursor.take_mark(Punct::LeftBracket) {
        let array = array_behind(cursor, opening, height)?;
        return Ok(DeclaratorPart::Array(array));
    }
    let Some(opening) = cursor.take_mark(Punct::LeftParen) else {
        return Ok(DeclaratorPart::Plain);
    };
    let parameters = parameters_behind(cursor, opening, height)?;
    Ok(DeclaratorPart::Function(parameters))
}

/// `declarator : pointer? ident ('[' conditional? ']' | '(' parameters? ')')?`
pub fn declarator(cursor: &mut Cursor<'_>, height: Height) -> Result<Declarator, ParseError>
    ensures { IsPartRead declarator_of (read_declarator (below height.levels)) cursor.old.rest.now
        cursor.new.rest.now result }
{
    let pointer = cursor.take_pointer()?;
    let Some(name) = take_name(cursor)? else {
        return Err(cursor.fault());
    };
    let part = part(cursor, height)?;
    Ok(Declarator {
        pointer,
        name,
        part,
    })
}
