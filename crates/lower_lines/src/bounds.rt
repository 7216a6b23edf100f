//! Laws of lines and of their graphs: each function's contract is one, and the function does nothing.

ghost use Rattle.lower_lines.specs.BoundsLaws.{GraphsAreLaidOut, NamesAreThere, PointsAreFew};
ghost use Rattle.lower_lines.specs.Laws.{AllLinesClose, GraphsAreSmall, MarksHold, ObjectsHold};
ghost use Rattle.lower_lines.specs.Laws.{ShapesHold};

/// The static objects of the graphs are the program's, with their first contents.
pub fn objects_hold()
    ensures { ObjectsHold }
{}

/// The lines of each function of a typed program start its blocks once each, and end each before the next; the levels
/// of temporaries that they use are there.
pub fn all_lines_close()
    ensures { AllLinesClose }
{}

/// The first variables of the graphs of a typed program are those of the locals, their frame arrays are the functions',
/// every block is ended, and the words of frames and of calls are within the frame bound.
pub fn shapes_hold()
    ensures { ShapesHold }
{}

/// The marks of the graphs of a typed program are its statements, once each.
pub fn marks_hold()
    ensures { MarksHold }
{}

/// The graphs of a program have at most 20 points, 2 argument words and one frame array for each token of it.
pub fn graphs_are_small()
    ensures { GraphsAreSmall }
{}

/// In the graphs of a typed program each point is in one block, each block has an end as its last op alone, there is a
/// first block, and each frame array has elements of 1, 2 or 4 bytes.
pub fn graphs_are_laid_out()
    ensures { GraphsAreLaidOut }
{}

/// The ops of a typed program's graphs name functions and static objects of the program alone.
pub fn names_are_there()
    ensures { NamesAreThere }
{}

/// The graph of a typed program's function has at most 20 points for each token of the function, and no more blocks
/// than points.
pub fn points_are_few()
    ensures { PointsAreFew }
{}
