//! Which of two faults comes first.

ghost use Rattle.std.specs.Prelude.{◌≡◌, Some};
ghost use Rattle.c_typing.specs.Faults.{earlier, precedes};

use pcc_base::Fault;

/// Whether a fault precedes another: by its place, and at one place by its number.
fn precedes(f: Fault, g: Fault) -> bool
    ensures { result ≡ precedes f g }
{
    if f.at.file != g.at.file {
        return f.at.file < g.at.file;
    }
    if f.at.line != g.at.line {
        return f.at.line < g.at.line;
    }
    if f.at.col != g.at.col {
        return f.at.col < g.at.col;
    }
    f.kind.number() < g.kind.number()
}

/// The earlier one of two faults.
pub fn earlier(f: Fault, g: Fault) -> Fault
    ensures { Some result ≡ earlier (Some f) (Some g) }
{
    if precedes(g, f) { g } else { f }
}
