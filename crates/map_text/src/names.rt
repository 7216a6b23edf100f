//! What the variables of a function are.

use pcc_base::Name;

/// What a variable of a function is: a scalar local, the array or the index of a pointer local, or a temporary.
#[derive(Drop)]
pub enum Named {
    Scalar(Name),
    Array(Name),
    Index(Name),
    Temporary,
}
