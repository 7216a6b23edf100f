//! Lists of fields, as far as each of some words is one.

ghost use Rattle.std.specs.Prelude.{◌≡◌, IfOk, option_map};
ghost use Rattle.map_text.specs.Entries.{standings_of};
ghost use Rattle.map_text.specs.Fields.{all_in, number_in, piece_in, standing_in};
ghost use Rattle.map_reader.specs.Views.{texts};

use crate::numbers::number;
use crate::places::{piece, standing};
use pcc_base::NoMemory;
use puzzle_board::{Piece, Place};
use std::alloc::Global;

/// The numbers that words write.
#[tactic(auto, using(crate::proofs::AllRead::none_so_far, crate::proofs::AllRead::one_more, crate::proofs::AllRead::no_more, crate::proofs::AllRead::all_read))]
pub(crate) fn numbers(alloc: Global, words: &[&[u8]]) -> Result<Option<Vec<u32>>, NoMemory>
    ensures { IfOk result (λ list. option_map (λ v. v.items) list ≡ all_in number_in (texts words.now)) }
{
    let mut list = Vec::new(alloc);
    for word in words {
        match number(word) {
            Some(number) => list.push(number)?,
            None => return Ok(None),
        }
    }
    Ok(Some(list))
}

/// The pieces that words write.
#[tactic(auto, using(crate::proofs::AllRead::none_so_far, crate::proofs::AllRead::one_more, crate::proofs::AllRead::no_more, crate::proofs::AllRead::all_read))]
pub(crate) fn pieces(alloc: Global, words: &[&[u8]]) -> Result<Option<Vec<Piece>>, NoMemory>
    ensures { IfOk result (λ list. option_map (λ v. v.items) list ≡ all_in piece_in (texts words.now)) }
{
    let mut list = Vec::new(alloc);
    for word in words {
        match piece(word) {
            Some(piece) => list.push(piece)?,
            None => return Ok(None),
        }
    }
    Ok(Some(list))
}

/// The variables and places that words write.
#[tactic(auto, using(crate::proofs::AllRead::none_so_far, crate::proofs::AllRead::one_more, crate::proofs::AllRead::no_more, crate::proofs::AllRead::all_read))]
pub(crate) fn standings(
    alloc: Global,
    words: &[&[u8]],
) -> Result<Option<Vec<(u32, Place)>>, NoMemory>
    ensures { IfOk result (λ list. option_map (λ v. standings_of v.items) list ≡ all_in standing_in (texts words.now)) }
{
    let mut list = Vec::new(alloc);
    for word in words {
        match standing(word) {
            Some(entry) => list.push(entry)?,
            None => return Ok(None),
        }
    }
    Ok(Some(list))
}
