ghost use Rattle.ia32_laws.specs.Laws.{AddressesTell};
ghost use Rattle.ia32_laws.specs.Ops.{BranchFollows, OrderBranchFollows, OrderSetFollows, SameFollows, SetFollows};

/// Two arrays that are there have one address exactly where they are the same array.
pub fn addresses_tell()
    ensures tell { AddressesTell }
{}

/// The machine follows comparisons of any two values, the check that they are the same, the order of numbers without sign, and branches
/// on them, through their rows.
pub fn comparisons_are_followed()
    ensures set { SetFollows }
    ensures same { SameFollows }
    ensures branch { BranchFollows }
    ensures order_set { OrderSetFollows }
    ensures order_branch { OrderBranchFollows }
{}
