//! What is around a statement.

ghost use Rattle.std.specs.Prelude.{◌≡◌};
ghost use Rattle.c_typing.specs.Files.{in_function};
ghost use Rattle.c_typing.specs.Statements.{in_loop, in_switch};
ghost use Rattle.c_check_statements.specs.Views.{around_of};

use c_tree::ValueType;

/// The result of the function, and whether `break` and `continue` may stand here.
#[derive(Clone, Copy)]
pub(crate) struct Around {
    pub(crate) result: ValueType,
    pub(crate) breaks: bool,
    pub(crate) continues: bool,
}

impl Around {
    /// In a function with this result, outside all loops and switches.
    pub(crate) fn function(of: ValueType) -> Around
        ensures { around_of result ≡ in_function of }
    {
        Around {
            result: of,
            breaks: false,
            continues: false,
        }
    }

    /// In a loop.
    pub(crate) fn in_loop(self) -> Around
        ensures { around_of result ≡ in_loop (around_of self) }
    {
        Around {
            result: self.result,
            breaks: true,
            continues: true,
        }
    }

    /// In a switch.
    pub(crate) fn in_switch(self) -> Around
        ensures { around_of result ≡ in_switch (around_of self) }
    {
        Around {
            result: self.result,
            breaks: true,
            continues: self.continues,
        }
    }
}
