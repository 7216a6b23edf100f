//! The law of what was linked, as the contract of a function that only cites those of the passes.

ghost use Rattle.pcc_program.specs.LinkedLaws.{LinkedCanPrint, LinkedDoesAs};

use crate::code::{graphs_have_frames, mapped_is_selected};
use crate::compiled_laws::compiled_does_as;
use ia32_laws::programs_are_right;
use lower_laws::visits_are_known;
use map_lines::{
    map_belongs, map_by_same_addresses, map_keeps_rules, map_lists_locals, map_shows_visits,
};

/// What was linked of a program has a map whose text can be made, and its image does what the program does, as this
/// map shows it.
pub(crate) fn linked_does_as()
    ensures prints { LinkedCanPrint }
    ensures does { LinkedDoesAs }
{
    graphs_have_frames();
    mapped_is_selected();
    programs_are_right();
    map_belongs();
    map_keeps_rules();
    map_lists_locals();
    map_by_same_addresses();
    map_shows_visits();
    visits_are_known();
    compiled_does_as();
}
