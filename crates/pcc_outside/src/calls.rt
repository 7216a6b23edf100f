ghost use Rattle.std.specs.Prelude.{◌≡◌, ◌↔◌, IsTrue};
ghost use Rattle.pcc_base.specs.Counts.{Rose};
ghost use Rattle.pcc_outside.specs.Calls.{FailsNext, no_calls, one_more, raised};

use std::marker::Model;

/// One more than the count, which stands still at its end.
pub(crate) fn raise(count: u64) -> u64
    ensures exact { result ≡ raised count }
    ensures rose { Rose count result }
{
    count.saturating_add(1)
}

/// How many calls an object in memory had, and which of its calls fail.
#[derive(Drop)]
pub(crate) struct CallLog {
    made: u64,
    failing: Vec<u64>,
}

impl Model for CallLog {
    ghost use Rattle.pcc_outside.specs.Calls.{Calls};

    ghost Value = { Calls };

    ghost view = { λ s. record { made = s.made; failing = s.failing.items } };
}

impl CallLog {
    /// No call yet, where these are the numbers of the calls that fail.
    pub(crate) fn new(failing: Vec<u64>) -> CallLog
        ensures { result ≡ no_calls failing.items }
    {
        CallLog { made: 0, failing }
    }

    /// Counts a call, and says whether it fails.
    pub(crate) fn next_fails(&mut self) -> bool
        ensures counted { self.new ≡ one_more self.old }
        ensures fails { IsTrue result ↔ FailsNext self.old }
    {
        self.made = raise(self.made);
        self.failing.contains(&self.made)
    }
}
