//! Parts that stand in several rules.

ghost use Rattle.std.specs.Prelude.{◌<◌, length, IfOk, IfErr};
ghost use Rattle.c_syntax.specs.Declarations.{maybe_expr_of, array_of, maybe_array_of};
ghost use Rattle.c_grammar.specs.DeclarationReading.{take_name, maybe_before, array_behind, read_maybe_array};
ghost use Rattle.c_parse_expressions.specs.ExpressionReadings.{IsRule, below, reader_of};
ghost use Rattle.c_parse_expressions.specs.Readings.{IsRead, IsPartRead};
ghost use Rattle.c_parse_expressions.specs.Rows.{IsRow};
ghost use Rattle.c_parse.specs.DeclarationParts.{AreSpecifiers, NoSpecifiers};

use c_lex::{Punct, TokenKind};
use c_parse_expressions::{Cursor, Height, ParseError, Rule, tree_of};
use c_syntax::{ArrayPart, Expression, Identifier, Specifier};
use pcc_base::{NoMemory, Span};

/// A tree of the rule, where this mark does not come at once.
pub fn maybe(
    cursor: &mut Cursor<'_>,
    rule: Rule,
    close: Punct,
    height: Height,
) -> Result<Option<Box<Expression>>, ParseError>
    requires rule { IsRule rule }
    ensures { IsPartRead maybe_expr_of (maybe_before (reader_of rule (below height.levels)) close) cursor.old.rest.now
        cursor.new.rest.now result }
{
    if cursor.at_mark(close) {
        return Ok(None);
    }
    let Some(lower) = height.lower() else {
        return Err(cursor.no_height());
    };
    let found = tree_of(cursor, rule, lower)?;
    Ok(Some(found.tree))
}

/// `specifiers : one or more of auto register static extern const void char short int signed`
pub fn some_specifiers(cursor: &mut Cursor<'_>) -> Result<Vec<Specifier>, ParseError>
    ensures ok { IfOk result (λ v. AreSpecifiers cursor.old.rest.now cursor.new.rest.now v.items) }
    ensures err { IfErr result (NoSpecifiers cursor.old.rest.now) }
    ensures shorter { IfOk result (λ _. length cursor.new.rest.now < length cursor.old.rest.now) }
{
    if !cursor.at_specifier() {
        return Err(cursor.fault());
    }
    Ok(cursor.take_specifiers()?)
}

/// `ident?`
pub(crate) fn take_name(cursor: &mut Cursor<'_>) -> Result<Option<Identifier>, NoMemory>
    ensures { IfOk result (λ name. IsRow take_name cursor.old.rest.now cursor.new.rest.now name) }
{
    let rest = cursor.rest;
    let Some((first, others)) = rest.split_first() else {
        return Ok(None);
    };
    match &first.kind {
        TokenKind::Ident(name) => {
            cursor.rest = others;
            let name = name.copy()?;
            Ok(Some(Identifier { name, at: first.at }))
        }
        TokenKind::Word(_) | TokenKind::Number { .. } | TokenKind::Text(_) | TokenKind::Mark(_) =>
            Ok(None),
    }
}

/// `'[' conditional? ']'`, behind the `[`
pub(crate) fn array_behind(
    cursor: &mut Cursor<'_>,
    opening: Span,
    height: Height,
) -> Result<ArrayPart, ParseError>
    ensures { IsRead array_of (array_behind (below height.levels) opening) cursor.old.rest.now
        cursor.new.rest.now result }
{
    let size = maybe(cursor, Rule::Conditional, Punct::RightBracket, height)?;
    let Some(close) = cursor.take_mark(Punct::RightBracket) else {
        drop(size);
        return Err(cursor.fault());
    };
    Ok(ArrayPart {
        opening,
        size,
        close,
    })
}

/// `('[' conditional? ']')?`
pub(crate) fn maybe_array(
    cursor: &mut Cursor<'_>,
    height: Height,
) -> Result<Option<ArrayPart>, ParseError>
    ensures { IsPartRead maybe_array_of (read_maybe_array (below height.levels)) cursor.old.rest.now
        cursor.new.rest.now result }
{
    let Some(opening) = cursor.take_mark(Punct::LeftBracket) else {
        return Ok(None);
    };
    let array = array_behind(cursor, opening, height)?;
    Ok(Some(array))
}
