//! Raw trees as texts, in which the tables of `trees` say what they expect.

use crate::sources::texts::Text;
use c_syntax::{
    Declaration, Expression, External, Initialiser, Item, Label, RawUnit, Statement, TextPiece,
};

fn push_texts(out: &mut Text, pieces: &[TextPiece]) {
    for piece in pieces {
        out.push("'");
        out.push_name(&piece.bytes);
        out.push("'");
    }
}

/// A text, and behind it the operator of an expression by name.
fn push_operator(out: &mut Text, before: &str, tree: &Expression) {
    out.push(before);
    match tree {
        Expression::Index(..) => out.push("at"),
        Expression::Cast(..) => out.push("Cast"),
        Expression::Postfix(_, op, _) | Expression::Prefix(op, _, _) => out.push_shown(op),
        Expression::Unary(op, _, _) => out.push_shown(op),
        Expression::Binary(op, _, _, _) => out.push_shown(op),
        Expression::Assignment(op, _, _, _) => out.push_shown(op),
        Expression::Identifier(_)
        | Expression::Number(..)
        | Expression::Text(_)
        | Expression::Parenthesised(..)
        | Expression::Call(..)
        | Expression::Conditional { .. } => {}
    }
}

/// An expression between two texts, with its operators by name, and a pair of brackets round each node of one.
fn push_expression(out: &mut Text, before: &str, tree: &Expression, behind: &str) {
    out.push(before);
    match tree {
        Expression::Identifier(name) => out.push_name(&name.name),
        Expression::Number(value, _) => out.push_shown(value),
        Expression::Text(pieces) => push_texts(out, pieces),
        Expression::Parenthesised(_, inner, _) => push_expression(out, "(", inner, ")"),
        Expression::Call(parts, arguments) => {
            out.push_name(&parts.function.name);
            out.push("(");
            for argument in arguments {
                push_expression(out, "", argument, ",");
            }
            out.push(")");
        }
        Expression::Postfix(base, _, _) => {
            push_expression(out, "[", base, "");
            push_operator(out, " ", tree);
            out.push("]");
        }
        Expression::Prefix(_, _, operand)
        | Expression::Unary(_, _, operand)
        | Expression::Cast(_, operand) => {
            push_operator(out, "[", tree);
            push_expression(out, " ", operand, "]");
        }
        Expression::Index(left, _, right, _)
        | Expression::Binary(_, left, _, right)
        | Expression::Assignment(_, left, _, right) => {
            push_expression(out, "[", left, "");
            push_operator(out, " ", tree);
            push_expression(out, " ", right, "]");
        }
        Expression::Conditional {
            condition,
            first,
            second,
            ..
        } => {
            push_expression(out, "[", condition, " ? ");
            push_expression(out, "", first, " : ");
            push_expression(out, "", second, "]");
        }
    }
    out.push(behind);
}

/// An expression, or none, between two texts.
fn push_maybe(out: &mut Text, before: &str, tree: &Option<Box<Expression>>, behind: &str) {
    out.push(before);
    if let Some(tree) = tree {
        push_expression(out, "", tree, "");
    }
    out.push(behind);
}

/// A name that is declared, with its initialiser if it has one.
fn push_item(out: &mut Text, item: &Item) {
    out.push(" ");
    out.push_name(&item.declarator.name.name);
    if let Some(initialiser) = &item.initialiser {
        match &initialiser.value {
            Initialiser::Single(value) => push_expression(out, "=", value, ""),
            Initialiser::List { values, .. } => {
                out.push("={");
                for value in values {
                    push_expression(out, "", value, ",");
                }
                out.push("}");
            }
        }
    }
}

fn push_declaration(out: &mut Text, declaration: &Declaration) {
    out.push("declare");
    for item in &declaration.items {
        push_item(out, item);
    }
    out.push(";");
}

fn push_labels(out: &mut Text, labels: &[Label]) {
    for label in labels {
        match label {
            Label::Case(_, value, _) => push_expression(out, "case ", value, ":"),
            Label::Default(_, _) => out.push("default:"),
        }
    }
}

/// What a statement begins with, before the statements inside it.
fn push_head(out: &mut Text, statement: &Statement) {
    match statement {
        Statement::Declaration(declaration) => push_declaration(out, declaration),
        Statement::Labelled(labels, _) => push_labels(out, labels),
        Statement::Block(..) => {}
        Statement::Simple(value, _) => push_maybe(out, "", value, ""),
        Statement::If { condition, .. } => push_expression(out, "if ", condition, ""),
        Statement::IfElse(parts, _, _) => push_expression(out, "if ", &parts.condition, ""),
        Statement::While { condition, .. } => push_expression(out, "while ", condition, ""),
        Statement::Do(_, _) => out.push("do"),
        Statement::For(parts, _) => {
            push_maybe(out, "for ", &parts.start, ";");
            push_maybe(out, "", &parts.condition, ";");
            push_maybe(out, "", &parts.step, "");
        }
        Statement::ForDeclaration(parts, _) => {
            out.push("for ");
            push_declaration(out, &parts.start);
            push_maybe(out, "", &parts.condition, ";");
            push_maybe(out, "", &parts.step, "");
        }
        Statement::Switch(parts, _) => push_expression(out, "switch ", &parts.value, ""),
        Statement::Break(_, _) => out.push("break"),
        Statement::Continue(_, _) => out.push("continue"),
        Statement::Return(_, value, _) => push_maybe(out, "return ", value, ""),
    }
}

/// A statement with braces round each one inside it.
fn push_statement(out: &mut Text, statement: &Statement) {
    out.push("{");
    push_head(out, statement);
    match statement {
        Statement::Labelled(_, inner)
        | Statement::If { then: inner, .. }
        | Statement::While { body: inner, .. }
        | Statement::For(_, inner)
        | Statement::ForDeclaration(_, inner) => push_statement(out, inner),
        Statement::Block(_, items, _) | Statement::Switch(_, items) => {
            for item in items {
                push_statement(out, item);
            }
        }
        Statement::IfElse(_, then, other) => {
            push_statement(out, then);
            out.push("else");
            push_statement(out, other);
        }
        Statement::Do(parts, body) => {
            push_statement(out, body);
            push_expression(out, "", &parts.condition, "");
        }
        Statement::Declaration(_)
        | Statement::Simple(_, _)
        | Statement::Break(_, _)
        | Statement::Continue(_, _)
        | Statement::Return(_, _, _) => {}
    }
    out.push("}");
}

/// A unit: each function as its name and body, and each declaration.
pub(crate) fn push_unit(out: &mut Text, unit: &RawUnit) {
    for external in &unit.externals {
        match external {
            External::Function {
                declarator,
                body,
                ..
            } => {
                out.push_name(&declarator.name.name);
                push_statement(out, body);
            }
            External::Declaration(declaration) => push_declaration(out, declaration),
        }
    }
}
