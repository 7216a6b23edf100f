//! The raw trees of files.

ghost use Rattle.std.specs.Prelude.{map, IfOk, IfErr};
ghost use Rattle.c_syntax.specs.Statements.{unit_of};
ghost use Rattle.c_front.specs.Accepted.{HaveTrees};
ghost use Rattle.c_front.specs.SoFar.{AreUnparsed};

use crate::lexed::Lexed;
use c_parse::parse;
use c_parse_expressions::push;
use c_syntax::RawUnit;
use pcc_base::Refusal;
use std::alloc::Global;

/// The raw tree of each file, or why the first file without one has none.
pub(crate) fn parse_files(alloc: Global, files: &[Lexed]) -> Result<Vec<RawUnit>, Refusal>
    ensures trees { IfOk result (λ units. HaveTrees (map (λ f. f.tokens.items) files.now) (map unit_of units.items)) }
    ensures refused { IfErr result (AreUnparsed (map (λ f. f.tokens.items) files.now) (map (λ f. f.end) files.now)) }
{
    let mut units = Vec::new(alloc);
    for file in files {
        let unit = parse(alloc, &file.tokens, file.end)?;
        push(&mut units, unit)?;
    }
    Ok(units)
}
