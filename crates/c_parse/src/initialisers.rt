//! Initialisers.

ghost use Rattle.std.specs.Prelude.{◌≡◌, None};
ghost use Rattle.c_syntax.specs.Declarations.{initialiser_of, value_of};
ghost use Rattle.c_grammar.specs.Reading.{readers};
ghost use Rattle.c_grammar.specs.Taking.{take_mark};
ghost use Rattle.c_grammar.specs.DeclarationReading.{brace_step, read_values, read_initialiser, value_from};
ghost use Rattle.c_parse_expressions.specs.Readings.{IsRead, IsPartRead};
ghost use Rattle.c_parse_expressions.specs.ExpressionReadings.{below};
ghost use Rattle.c_parse_expressions.specs.Values.{values_of, height_of_values};
ghost use Rattle.c_parse.specs.Braces.{IsBraceTurn, braced_of};

use c_lex::Punct;
use c_parse_expressions::{Cursor, Height, ParseError, Rule, Values, one_more, one_value, tree_of};
use c_syntax::{Initialiser, InitialiserPart};
use pcc_base::Span;

/// Values in braces, and the comma behind the last of them.
#[derive(Drop)]
struct Braced {
    values: Values,
    trailing: Option<Span>,
}

/// One turn of the loop over values in braces: one value more, or the comma that is the last, or the end.
#[derive(Drop)]
enum BraceTurn {
    More(Values),
    Trailing(Values, Span),
    Last(Values),
}

/// `',' assignment`, behind values in braces, or a `,` before the `}`; each value of at most this height
fn brace_value(
    cursor: &mut Cursor<'_>,
    values: Values,
    lower: Height,
) -> Result<BraceTurn, ParseError>
    requires { values.height ≡ height_of_values values }
    ensures { IsBraceTurn (brace_step (readers lower.levels) (values_of values, None) cursor.old.rest.now)
        (values_of values) cursor.old.rest.now cursor.new.rest.now result }
{
    let Some(comma) = cursor.take_mark(Punct::Comma) else {
        return Ok(BraceTurn::Last(values));
    };
    if cursor.at_mark(Punct::RightBrace) {
        return Ok(BraceTurn::Trailing(values, comma));
    }
    match tree_of(cursor, Rule::Assignment, lower) {
        Ok(next) => Ok(BraceTurn::More(one_more(values, comma, next)?)),
        Err(error) => Err(values.refused(error)),
    }
}

/// `assignment (',' assignment)* ','?`, in braces, each of at most this height
fn braced_values(cursor: &mut Cursor<'_>, lower: Height) -> Result<Braced, ParseError>
    ensures { IsRead braced_of (read_values (readers lower.levels)) cursor.old.rest.now cursor.new.rest.now result }
{
    let first = tree_of(cursor, Rule::Assignment, lower)?;
    let mut values = one_value(cursor.alloc, first)?;
    'values: loop {
        match brace_value(cursor, values, lower)? {
            BraceTurn::More(more) => values = more,
            BraceTurn::Trailing(values, comma) => {
                return Ok(Braced {
                    values,
                    trailing: Some(comma),
                });
            }
            BraceTurn::Last(values) => {
                return Ok(Braced {
                    values,
                    trailing: None,
                });
            }
        }
    }
}

/// `initialiser : assignment | '{' assignment (',' assignment)* ','? '}'`, of expressions of at most this height
fn initialiser(cursor: &mut Cursor<'_>, lower: Height) -> Result<Initialiser, ParseError>
    ensures { IsRead initialiser_of (read_initialiser (readers lower.levels)) cursor.old.rest.now
        cursor.new.rest.now result }
{
    let Some(opening) = cursor.take_mark(Punct::LeftBrace) else {
        let found = tree_of(cursor, Rule::Assignment, lower)?;
        return Ok(Initialiser::Single(found.tree));
    };
    let Braced { values, trailing } = braced_values(cursor, lower)?;
    let Some(close) = cursor.take_mark(Punct::RightBrace) else {
        return Err(values.refused(cursor.fault()));
    };
    Ok(Initialiser::List {
        opening,
        values: values.values,
        commas: values.commas,
        trailing,
        close,
    })
}

/// `('=' initialiser)?`
pub(crate) fn maybe_value(
    cursor: &mut Cursor<'_>,
    height: Height,
) -> Result<Option<InitialiserPart>, ParseError>
    ensures { IsPartRead value_of (λ ts. value_from (below height.levels) (take_mark Punct.Equal ts) ts)
        cursor.old.rest.now cursor.new.rest.now result }
{
    let Some(equal) = cursor.take_mark(Punct::Equal) else {
        return Ok(None);
    };
    let lower = height.below(equal)?;
    let value = initialiser(cursor, lower)?;
    Ok(Some(InitialiserPart { equal, value }))
}
