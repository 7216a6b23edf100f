//! What an op asks of its function: whether variables of a width, arrays and blocks are there.

ghost use Rattle.std.specs.Prelude.{◌≡◌, ◌∷◌, [], ◌++◌, map, slice_get};
ghost use Rattle.std.specs.Bool.{Decides};
ghost use Rattle.std.specs.List.{AllByRecursion};
ghost use Rattle.pcc_base.specs.declared.run.Width.TheVariants.{One};
ghost use Rattle.flow_graph.specs.Graphs.{IsMet};
ghost use Rattle.flow_graph.specs.Shapes.{AnyWidth, FrameArray, SameWidth, Target, Variable, two, two_if_any};
ghost use Rattle.map_text.specs.Maps.{flow_of};
ghost use Rattle.map_file.specs.Views.{function_of};

use crate::file::MapFunction;
use pcc_base::Width;

// ---- one need

/// The width of a variable, if it is there.
pub(crate) fn width(function: &MapFunction, variable: u32) -> Option<Width>
    ensures { result ≡ slice_get (flow_of (function_of function.now)).widths variable }
{
    let index = variable as usize;
    if index < function.vars.len() {
        Some(function.vars[index].width)
    } else {
        None
    }
}

/// Whether a variable is there, of this width.
pub(crate) fn has_width(function: &MapFunction, variable: u32, wanted: Width) -> bool
    ensures { Decides result (IsMet (flow_of (function_of function.now)) (Variable variable wanted)) }
{
    match (width(function, variable), wanted) {
        (Some(Width::One), Width::One) => true,
        (Some(Width::Two), Width::Two) => true,
        (Some(Width::One), Width::Two) => false,
        (Some(Width::Two), Width::One) => false,
        (None, _) => false,
    }
}

/// Whether a variable of width Two is there.
fn has_two(function: &MapFunction, variable: u32) -> bool
    ensures { Decides result (IsMet (flow_of (function_of function.now)) (two variable)) }
{
    has_width(function, variable, Width::Two)
}

/// Whether a frame array is there.
fn has_array(function: &MapFunction, array: u32) -> bool
    ensures { Decides result (IsMet (flow_of (function_of function.now)) (FrameArray array)) }
{
    (array as usize) < function.arrays.len()
}

/// Whether a block is there.
fn has_block(function: &MapFunction, block: u32) -> bool
    ensures { Decides result (IsMet (flow_of (function_of function.now)) (Target block)) }
{
    (block as usize) < function.blocks.len()
}

/// Whether two variables of one width are there.
fn has_same_width(function: &MapFunction, a: u32, b: u32) -> bool
    ensures { Decides result (IsMet (flow_of (function_of function.now)) (SameWidth a b)) }
{
    match width(function, a) {
        Some(width) => has_width(function, b, width),
        None => false,
    }
}

// ---- the needs of an op

/// Whether a variable of either width is there.
pub(crate) fn any_width(function: &MapFunction, a: u32) -> bool
    ensures { Decides result (AllByRecursion (IsMet (flow_of (function_of function.now))) (AnyWidth a ∷ [])) }
{
    width(function, a).is_some()
}

/// Whether two variables of one width are there.
pub(crate) fn same_width(function: &MapFunction, a: u32, b: u32) -> bool
    ensures { Decides result (AllByRecursion (IsMet (flow_of (function_of function.now))) (SameWidth a b ∷ [])) }
{
    has_same_width(function, a, b)
}

/// Whether a word and a byte are there.
pub(crate) fn word_and_byte(function: &MapFunction, a: u32, b: u32) -> bool
    ensures { Decides result (AllByRecursion (IsMet (flow_of (function_of function.now)))
        (two a ∷ Variable b One ∷ [])) }
{
    has_two(function, a) && has_width(function, b, Width::One)
}

/// Whether a byte and a word are there.
pub(crate) fn byte_and_word(function: &MapFunction, a: u32, b: u32) -> bool
    ensures { Decides result (AllByRecursion (IsMet (flow_of (function_of function.now)))
        (Variable a One ∷ two b ∷ [])) }
{
    has_width(function, a, Width::One) && has_two(function, b)
}

/// Whether two words and a byte are there.
pub(crate) fn two_words_and_byte(function: &MapFunction, a: u32, b: u32, c: u32) -> bool
    ensures { Decides result (AllByRecursion (IsMet (flow_of (function_of function.now)))
        (two a ∷ two b ∷ Variable c One ∷ [])) }
{
    has_two(function, a) && has_two(function, b) && has_width(function, c, Width::One)
}

/// Whether a word is there.
pub(crate) fn one_word(function: &MapFunction, a: u32) -> bool
    ensures { Decides result (AllByRecursion (IsMet (flow_of (function_of function.now))) (two a ∷ [])) }
{
    has_two(function, a)
}

/// Whether two words are there.
pub(crate) fn two_words(function: &MapFunction, a: u32, b: u32) -> bool
    ensures { Decides result (AllByRecursion (IsMet (flow_of (function_of function.now))) (two a ∷ two b ∷ [])) }
{
    has_two(function, a) && has_two(function, b)
}

/// Whether three words are there.
pub(crate) fn three_words(function: &MapFunction, a: u32, b: u32, c: u32) -> bool
    ensures { Decides result (AllByRecursion (IsMet (flow_of (function_of function.now)))
        (two a ∷ two b ∷ two c ∷ [])) }
{
    has_two(function, a) && has_two(function, b) && has_two(function, c)
}

/// Whether a word is there, where one is named.
pub(crate) fn word_if_any(function: &MapFunction, a: Option<u32>) -> bool
    ensures { Decides result (AllByRecursion (IsMet (flow_of (function_of function.now))) (two_if_any a)) }
{
    match a {
        Some(a) => has_two(function, a),
        None => true,
    }
}

/// Whether all of these words are there.
fn words(function: &MapFunction, list: &[u32]) -> bool
    ensures { Decides result (AllByRecursion (IsMet (flow_of (function_of function.now))) (map two list.now)) }
{
    list.iter().all(|word| has_two(function, *word))
}

/// Whether the result of a call and its argument words are there.
pub(crate) fn call_words(function: &MapFunction, to: Option<u32>, list: &[u32]) -> bool
    ensures { Decides result (AllByRecursion (IsMet (flow_of (function_of function.now)))
        (two_if_any to ++ map two list.now)) }
{
    word_if_any(function, to) && words(function, list)
}

/// Whether a frame array is there.
pub(crate) fn one_array(function: &MapFunction, k: u32) -> bool
    ensures { Decides result (AllByRecursion (IsMet (flow_of (function_of function.now))) (FrameArray k ∷ [])) }
{
    has_array(function, k)
}

/// Whether a word and a frame array are there.
pub(crate) fn word_and_array(function: &MapFunction, a: u32, k: u32) -> bool
    ensures { Decides result (AllByRecursion (IsMet (flow_of (function_of function.now)))
        (two a ∷ FrameArray k ∷ [])) }
{
    has_two(function, a) && has_array(function, k)
}

/// Whether a block is there.
pub(crate) fn one_block(function: &MapFunction, x: u32) -> bool
    ensures { Decides result (AllByRecursion (IsMet (flow_of (function_of function.now))) (Target x ∷ [])) }
{
    has_block(function, x)
}

/// Whether two words and two blocks are there.
pub(crate) fn two_words_and_blocks(function: &MapFunction, a: u32, b: u32, x: u32, y: u32) -> bool
    ensures { Decides result (AllByRecursion (IsMet (flow_of (function_of function.now)))
        (two a ∷ two b ∷ Target x ∷ Target y ∷ [])) }
{
    has_two(function, a) && has_two(function, b) && has_block(function, x) && has_block(function, y)
}
