ghost use Rattle.ia32_select.specs.Sizes.{BlocksAreFew, SelectedIsCode};

/// The items of a graph, over any placement that supports it, have few bytes, can be assembled, hold the graph's points
/// alone, and name functions and objects of its program alone.
pub fn selected_is_code()
    ensures { SelectedIsCode }
{}

/// A graph has no more blocks than points, so that few bytes of code are few labels, too.
pub fn blocks_are_few()
    ensures { BlocksAreFew }
{}
