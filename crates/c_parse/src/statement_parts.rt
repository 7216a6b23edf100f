//! Parts of the rules without a statement in them.
//!
//! Where a second part is refused, a first one that holds a declaration is dropped by a call of `drop`: a drop in
//! place is proved over again, through each of its parts, in each function that has one.

ghost use Rattle.std.specs.Prelude.{◌≡◌};
ghost use Rattle.c_grammar.specs.Heads.{begins_item, word_begins_item};
ghost use Rattle.c_syntax.specs.Declarations.{declaration_of};
ghost use Rattle.c_grammar.specs.StatementReading.{read_condition};
ghost use Rattle.c_parse_expressions.specs.Places.{front_place};
ghost use Rattle.c_parse_expressions.specs.Readings.{IsRead};
ghost use Rattle.c_parse_expressions.specs.declared.parse_error.ParseError.TheVariants.{Fault as Faulty};
ghost use Rattle.c_parse.specs.StatementParts.{below_node, clause_of, condition_of, fields_of, for_head_of};
ghost use Rattle.c_parse.specs.StatementParts.{front_begins_item};
ghost use Rattle.c_parse.specs.StatementParts.{read_clause, read_do_tail, read_for_head, read_for_start};
ghost use Rattle.c_parse.specs.StatementParts.{read_for_tests, read_switch_head, start_of, switch_head_of, tail_of};
ghost use Rattle.c_parse.specs.StatementParts.{tests_of};

use crate::declarations::declaration;
use crate::optional_parts::maybe;
use c_lex::{Punct, TokenKind};
use c_parse_expressions::{Cursor, Height, ParseError, Rule, begins_expression, tree_of};
use c_syntax::{Declaration, Expression, Label, Statement};
use pcc_base::{Keyword, Span};

/// `'(' expression ')'`
#[derive(Drop)]
pub(crate) struct Condition {
    pub opening: Span,
    pub value: Box<Expression>,
    pub close: Span,
}

/// `expression?` and the mark that ends it
#[derive(Drop)]
pub(crate) struct Clause {
    pub value: Option<Box<Expression>>,
    pub mark: Span,
}

/// `'while' '(' expression ')' ';'`: a `do` behind its body
#[derive(Drop)]
pub(crate) struct DoTail {
    pub until: Span,
    pub condition: Condition,
    pub semicolon: Span,
}

/// `expression? ';' | declaration`, in a `for`
#[derive(Drop)]
pub(crate) enum ForStart {
    Expressed(Clause),
    Declared(Declaration),
}

/// `expression? ';' expression? ')'`, in a `for`
#[derive(Drop)]
pub(crate) struct ForTests {
    pub condition: Clause,
    pub step: Clause,
}

/// `'(' (expression? ';' | declaration) expression? ';' expression? ')'`: a `for` before its body
#[derive(Drop)]
pub(crate) struct ForHead {
    pub opening: Span,
    pub start: ForStart,
    pub tests: ForTests,
}

/// `'(' expression ')' '{'`: a `switch` before its statements
#[derive(Drop)]
pub(crate) struct SwitchHead {
    pub value: Condition,
    pub begin: Span,
}

/// Labels, one behind the other.
#[derive(Drop)]
pub(crate) struct LabelList {
    pub labels: Vec<Label>,
}

/// Statements, one behind the other, and the `}` behind them.
#[derive(Drop)]
pub(crate) struct StatementList {
    pub statements: Vec<Statement>,
    pub close: Span,
}

/// `'(' expression ')'`, of an expression of at most this height
#[inline(never)]
pub(crate) fn parenthesised(cursor: &mut Cursor<'_>, lower: Height) -> Result<Condition, ParseError>
    ensures { IsRead condition_of (read_condition (fields_of lower.levels)) cursor.old.rest.now
        cursor.new.rest.now result }
{
    let Some(opening) = cursor.take_mark(Punct::LeftParen) else {
        return Err(cursor.fault());
    };
    let found = tree_of(cursor, Rule::Expression, lower)?;
    let Some(close) = cursor.take_mark(Punct::RightParen) else {
        return Err(cursor.fault());
    };
    Ok(Condition {
        opening,
        value: found.tree,
        close,
    })
}

/// `expression?` and this mark
#[inline(never)]
pub(crate) fn take_clause(
    cursor: &mut Cursor<'_>,
    mark: Punct,
    height: Height,
) -> Result<Clause, ParseError>
    ensures { IsRead clause_of (read_clause (below_node height.levels) mark) cursor.old.rest.now
        cursor.new.rest.now result }
{
    let value = maybe(cursor, Rule::Expression, mark, height)?;
    let Some(mark) = cursor.take_mark(mark) else {
        return Err(cursor.fault());
    };
    Ok(Clause { value, mark })
}

/// `'while' '(' expression ')' ';'`, behind the body of a `do`, of an expression of at most this height
#[inline(never)]
pub(crate) fn do_tail(cursor: &mut Cursor<'_>, lower: Height) -> Result<DoTail, ParseError>
    ensures { IsRead tail_of (read_do_tail (fields_of lower.levels)) cursor.old.rest.now
        cursor.new.rest.now result }
{
    let Some(until) = cursor.take_word(Keyword::While) else {
        return Err(cursor.fault());
    };
    let condition = parenthesised(cursor, lower)?;
    let Some(semicolon) = cursor.take_mark(Punct::Semicolon) else {
        return Err(cursor.fault());
    };
    Ok(DoTail {
        until,
        condition,
        semicolon,
    })
}

/// `expression? ';' | declaration`, in a `for`
#[inline(never)]
fn for_start(cursor: &mut Cursor<'_>, height: Height) -> Result<ForStart, ParseError>
    ensures { IsRead start_of (read_for_start (below_node height.levels)) cursor.old.rest.now
        cursor.new.rest.now result }
{
    if cursor.at_specifier() {
        let declaration = declaration_below(cursor, height)?;
        return Ok(ForStart::Declared(declaration));
    }
    let start = take_clause(cursor, Punct::Semicolon, height)?;
    Ok(ForStart::Expressed(start))
}

/// `expression? ';' expression? ')'`, in a `for`
#[inline(never)]
fn for_tests(cursor: &mut Cursor<'_>, height: Height) -> Result<ForTests, ParseError>
    ensures { IsRead tests_of (read_for_tests (below_node height.levels)) cursor.old.rest.now
        cursor.new.rest.now result }
{
    let condition = take_clause(cursor, Punct::Semicolon, height)?;
    let step = take_clause(cursor, Punct::RightParen, height)?;
    Ok(ForTests { condition, step })
}

/// `'(' (expression? ';' | declaration) expression? ';' expression? ')'`, in a `for`
#[inline(never)]
pub(crate) fn for_head(cursor: &mut Cursor<'_>, height: Height) -> Result<ForHead, ParseError>
    ensures { IsRead for_head_of (read_for_head (below_node height.levels)) cursor.old.rest.now
        cursor.new.rest.now result }
{
    let Some(opening) = cursor.take_mark(Punct::LeftParen) else {
        return Err(cursor.fault());
    };
    let start = for_start(cursor, height)?;
    match for_tests(cursor, height) {
        Ok(tests) => Ok(ForHead {
            opening,
            start,
            tests,
        }),
        Err(error) => {
            drop(start);
            Err(error)
        }
    }
}

/// `'(' expression ')' '{'`, in a `switch`, of an expression of at most this height
#[inline(never)]
pub(crate) fn switch_head(cursor: &mut Cursor<'_>, lower: Height) -> Result<SwitchHead, ParseError>
    ensures { IsRead switch_head_of (read_switch_head (fields_of lower.levels)) cursor.old.rest.now
        cursor.new.rest.now result }
{
    let value = parenthesised(cursor, lower)?;
    let Some(begin) = cursor.take_mark(Punct::LeftBrace) else {
        return Err(cursor.fault());
    };
    Ok(SwitchHead { value, begin })
}

/// A declaration below a node of this height; where there is none, the fault is that of a block's item.
fn declaration_below(cursor: &mut Cursor<'_>, height: Height) -> Result<Declaration, ParseError>
    ensures { IsRead declaration_of (below_node height.levels).declaration cursor.old.rest.now
        cursor.new.rest.now result }
{
    let Some(lower) = height.lower() else {
        return Err(no_item_height(cursor));
    };
    declaration(cursor, lower)
}

/// Whether a declaration or a statement begins with this word.
fn word_begins_item(word: Keyword) -> bool
    ensures { result ≡ word_begins_item word }
{
    matches!(
        word,
        Keyword::If
            | Keyword::While
            | Keyword::Do
            | Keyword::For
            | Keyword::Switch
            | Keyword::Break
            | Keyword::Continue
            | Keyword::Return
            | Keyword::Auto
            | Keyword::Register
            | Keyword::Static
            | Keyword::Extern
            | Keyword::Const
            | Keyword::Void
            | Keyword::Char
            | Keyword::Short
            | Keyword::Int
            | Keyword::Signed
    )
}

/// Whether a declaration or a statement may begin with this token.
fn begins_item(kind: &TokenKind) -> bool
    ensures { result ≡ begins_item kind.now }
{
    match kind {
        TokenKind::Word(word) => word_begins_item(*word),
        TokenKind::Mark(mark) => *mark == Punct::LeftBrace
            || *mark == Punct::Semicolon
            || begins_expression(kind),
        TokenKind::Ident(_) | TokenKind::Number { .. } | TokenKind::Text(_) => begins_expression(
            kind,
        ),
    }
}

/// The fault at the next token, where a declaration or a statement would be needed and no height is left for one: it is
/// deep where one may begin with the token.
pub(crate) fn no_item_height(cursor: &Cursor<'_>) -> ParseError
    ensures { result ≡ Faulty (front_begins_item cursor.now.rest.now) (front_place cursor.now.rest.now) }
{
    let deep = match cursor.rest.first() {
        Some(token) => begins_item(&token.kind),
        None => false,
    };
    ParseError::Fault {
        deep,
        at: cursor.place(),
    }
}
