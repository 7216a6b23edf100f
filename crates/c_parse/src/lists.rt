use c_syntax::{Item, Parameter};
use pcc_base::Span;

/// Parameters, and the commas between them.
#[derive(Drop)]
pub(crate) struct ParameterList {
    pub parameters: Vec<Parameter>,
    pub commas: Vec<Span>,
}

/// Items, and the commas between them.
#[derive(Drop)]
pub(crate) struct ItemList {
    pub items: Vec<Item>,
    pub commas: Vec<Span>,
}
