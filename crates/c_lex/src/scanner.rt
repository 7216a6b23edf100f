ghost use Rattle.std.specs.Prelude.{◌<◌, length};
ghost use Rattle.c_lex.specs.Scans.{IsScan};

use crate::classes::{is_letter, is_quote, is_space, starts_number};
use crate::comments::slash_at;
use crate::mark_tokens::mark_at;
use crate::number_tokens::number_at;
use crate::quotes::quote_at;
use crate::recent::Recent;
use crate::scanned::Scanned;
use crate::spaces_and_lines::{hash_at, space_at};
use crate::words::word_at;
use pcc_base::NoMemory;
use std::alloc::Global;

/// The length of the piece that begins the rest of a text, and the piece; None where none begins. The
/// only refusal is want of memory.
pub(crate) fn scan(
    alloc: Global,
    met: &mut Recent,
    fresh: bool,
    rest: &[u8],
) -> Result<Option<(usize, Scanned)>, NoMemory>
    requires { 0 < length rest.now }
    ensures { IsScan fresh rest.now result }
{
    let first = rest[0];
    if is_letter(first) {
        return word_at(alloc, met, rest);
    }
    if starts_number(rest) {
        return Ok(number_at(rest));
    }
    if is_quote(first) {
        return quote_at(alloc, rest);
    }
    if is_space(first) {
        return Ok(space_at(rest));
    }
    if first == b'/' {
        return Ok(slash_at(rest));
    }
    if first == b'#' {
        return Ok(hash_at(fresh, rest));
    }
    Ok(mark_at(rest))
}
