//! Tables of texts, their tokens and their faults. The expected values are those of C99 6.4, by hand.

use crate::expected::{expect, expect_refusal};
use crate::sources::texts::Text;
use crate::tables::{cells, rows_of, unfolded};
use c_lex::{Token, TokenKind, lex};
use pcc_base::Refusal;
use std::alloc::Global;
use std::process::Abort;

/// The most tokens of all files.
const MOST: usize = 65536;

/// A token as a word, with a space behind: a keyword's or mark's variant, a name, a number, or a text in quotes.
fn push_token(out: &mut Text, token: &Token) {
    match &token.kind {
        TokenKind::Word(word) => out.push_shown(word),
        TokenKind::Mark(mark) => out.push_shown(mark),
        TokenKind::Number { value, .. } => out.push_shown(value),
        TokenKind::Ident(name) => out.push_name(name),
        TokenKind::Text(text) => {
            out.push("\"");
            out.push_name(text);
            out.push("\"");
        }
    }
    out.push(" ");
}

/// The tokens of a short text of this file, if they are not more than `most`.
fn lexed(alloc: Global, file: u32, text: &str, most: usize) -> Result<Vec<Token>, Refusal> {
    if text.len() > 1000 {
        return Err(Refusal::NoMemory);
    }
    lex(alloc, file, text.as_bytes(), most)
}

/// Texts and their tokens, with a space between two.
const TOKENS: &str = "\
15 rows
 =>\x20
int main(void)<%return 7;%> => Int main LeftParen Void RightParen LeftBrace Return 7 Semicolon RightBrace
a+++b => a PlusPlus Plus b
a<::>b => a LeftBracket RightBracket b
x>>=y...z..w => x ShiftRightEqual y Ellipsis z Dot Dot w
->-- ->> => Arrow MinusMinus Arrow Greater
'\\377' 'a' '\\0' '\\x41' '\"' '\\'' => -1 97 0 65 34 39
\"a\\n\" \"b\\\"c\" => \"a$\" \"b\"c\"
0 017 0x1F 0Xff 2147483647 => 0 15 31 255 2147483647
# 1 \"a.c\"$int => Int
 \t# \tpragma once$x => x
/* a * / ' */x//y ' => x
/***/x/*/*/y => x y
_Bool auto_ L u'a' => Bool auto_ L u 97
a/b/=c => a Slash b SlashEqual c";

/// The tokens of a text, with a space behind each.
fn shown_tokens(rt: &impl Abort, alloc: Global, text: &str) -> String {
    let tokens = lexed(alloc, 0, text, MOST).expect(rt, text);
    let mut out = Text::new(alloc);
    for token in &tokens {
        push_token(&mut out, token);
    }
    out.whole(rt, text)
}

/// The text of each row has these tokens.
fn expect_tokens(rt: &impl Abort, alloc: Global, table: &str) {
    for folded in rows_of(rt, table) {
        let row = unfolded(alloc, folded).expect(rt, folded);
        let (text, shown) = cells(rt, row.as_str());
        let out = shown_tokens(rt, alloc, text);
        expect(rt, &out.as_str().trim_end(), &shown, folded);
    }
}

#[test]
fn tokens_of_texts(rt: HostRuntime) {
    expect_tokens(&rt, rt.alloc(), TOKENS);
}

/// Texts, and the file, the line, the column and the kind of their first fault.
const FAULTS: &str = "\
21 rows
int main(void){return 1;} /* x => 3:1:27 Unclosed
int main(void){return 08;} => 3:1:23 BadNumber
int main(void){return '\\q';} => 3:1:23 BadEscape
int main(void){return @;} => 3:1:23 BadByte
%: => 3:1:1 BadByte
L'x' => 3:1:1 BadByte
'ab' => 3:1:1 BadEscape
'' => 3:1:1 BadEscape
'\\400' => 3:1:1 BadEscape
\"\\x\" => 3:1:1 BadEscape
\"a$\" => 3:1:1 Unclosed
'\\q => 3:1:1 Unclosed
0x => 3:1:1 BadNumber
1e+5 => 3:1:1 BadNumber
x .5 => 3:1:3 BadNumber
3u => 3:1:1 BadNumber
2147483648 => 3:1:1 BadNumber
x /* => 3:1:3 Unclosed
int # 1 \"a.c\" => 3:1:5 BadByte
a$\t#define b => 3:2:2 BadByte
/*$*/ # 1 => 3:2:4 BadByte";

/// The text of each row, as this file, is refused so where this many tokens are allowed.
fn expect_refusals(rt: &impl Abort, alloc: Global, file: u32, most: usize, table: &str) {
    for folded in rows_of(rt, table) {
        let row = unfolded(alloc, folded).expect(rt, folded);
        let (text, shown) = cells(rt, row.as_str());
        let found = lexed(alloc, file, text, most).err();
        expect_refusal(rt, alloc, found, shown, folded);
    }
}

#[test]
fn faults_of_texts(rt: HostRuntime) {
    expect_refusals(&rt, rt.alloc(), 3, MOST, FAULTS);
}

/// Texts of which two tokens are allowed, and why they are refused.
const LIMITS: &str = "\
3 rows
; ; ; => Limit(Tokens(3))
; ; ; @ => Limit(Tokens(3))
; ; @ => 0:1:5 BadByte";

/// The limit on the tokens comes with the third one, and a fault only where there are no more before it.
#[test]
fn limits_of_texts(rt: HostRuntime) {
    expect_refusals(&rt, rt.alloc(), 0, 2, LIMITS);
}
