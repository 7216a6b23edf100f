//! The labels of a switch.

ghost use Rattle.c_grammar.specs.Reading.{readers};
ghost use Rattle.c_grammar.specs.StatementReading.{read_labels};
ghost use Rattle.c_parse_expressions.specs.Readings.{IsPartRead};
ghost use Rattle.c_parse.specs.StatementParts.{IsLabelTurn, labels_of};

use crate::statement_parts::LabelList;
use c_lex::Punct;
use c_parse_expressions::{Cursor, Height, ParseError, Rule, push, tree_of};
use c_syntax::Label;
use pcc_base::Keyword;

/// `label?`, with `label : 'case' conditional ':' | 'default' ':'`, of at most this height
fn take_label(cursor: &mut Cursor<'_>, lower: Height) -> Result<Option<Label>, ParseError>
    ensures { IsLabelTurn (readers lower.levels).conditional cursor.old.rest.now cursor.new.rest.now result }
{
    if let Some(at) = cursor.take_word(Keyword::Case) {
        let value = tree_of(cursor, Rule::Conditional, lower)?;
        let Some(colon) = cursor.take_mark(Punct::Colon) else {
            return Err(cursor.fault());
        };
        return Ok(Some(Label::Case(at, value.tree, colon)));
    }
    let Some(at) = cursor.take_word(Keyword::Default) else {
        return Ok(None);
    };
    let Some(colon) = cursor.take_mark(Punct::Colon) else {
        return Err(cursor.fault());
    };
    Ok(Some(Label::Default(at, colon)))
}

/// `label*`, of at most this height
#[inline(never)]
pub(crate) fn take_labels(cursor: &mut Cursor<'_>, lower: Height) -> Result<LabelList, ParseError>
    ensures { IsPartRead labels_of (read_labels (readers lower.levels).conditional) cursor.old.rest.now
        cursor.new.rest.now result }
{
    let mut labels = Vec::new(cursor.alloc);
    'labels: while let Some(label) = take_label(cursor, lower)? {
        push(&mut labels, label)?;
    }
    Ok(LabelList { labels })
}
