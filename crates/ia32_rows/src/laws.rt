ghost use Rattle.ia32_rows.specs.Once.{LabelsStandOnce, PointsStandOnce, PointsArePlaced};
ghost use Rattle.ia32_rows.specs.Worked.{SumsAreRows, MovesAreRows, CallsAreRows, BranchesAreRows};
ghost use Rattle.ia32_rows.specs.Worked.{ObjectsAreRows, AccessesAreRows, ClearsAreRows, HeadersAreRows};
ghost use Rattle.ia32_rows.specs.Worked.{MovesAreBetween, FirstItemsAreRows};

/// A worked example of rows over slots and over registers, and of moves between points.
pub fn rows_are_short()
    ensures sums { SumsAreRows }
    ensures moves { MovesAreRows }
    ensures calls { CallsAreRows }
    ensures branches { BranchesAreRows }
    ensures objects { ObjectsAreRows }
    ensures accesses { AccessesAreRows }
    ensures clears { ClearsAreRows }
    ensures headers { HeadersAreRows }
    ensures between { MovesAreBetween }
    ensures first { FirstItemsAreRows }
{}

/// No label and no point stands twice among the items of a graph, over any placement, and the points are those of the
/// blocks.
pub fn labels_and_points_stand_once()
    ensures labels { LabelsStandOnce }
    ensures points { PointsStandOnce }
    ensures placed { PointsArePlaced }
{}
