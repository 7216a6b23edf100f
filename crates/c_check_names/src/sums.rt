//! What is known of all declarations of one thing.

ghost use Rattle.std.specs.Prelude.{◌≡◌, ◌||◌, ◌&&◌};

/// What is known of all declarations of one thing: the place of the first one, whether another one has another type,
/// and whether one of them is whole.
#[derive(Clone, Copy)]
pub struct Seen {
    pub first: usize,
    pub mixed: bool,
    pub whole: bool,
}

/// What is known with one more declaration, which differs in type from the first one or not, and is whole or not.
pub(crate) fn with_one_more(seen: Seen, apart: bool, whole: bool) -> Seen
    ensures { result ≡ record { first = seen.first; mixed = seen.mixed || apart; whole = seen.whole || whole } }
{
    Seen {
        first: seen.first,
        mixed: seen.mixed || apart,
        whole: seen.whole || whole,
    }
}

/// Whether a declaration clashes with what is known, where it differs in type from the first one or not, and is whole
/// or not.
pub(crate) fn is_against(seen: Seen, apart: bool, whole: bool) -> bool
    ensures { result ≡ ((seen.mixed || apart) || (whole && seen.whole)) }
{
    seen.mixed || apart || (whole && seen.whole)
}
