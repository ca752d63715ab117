//! Links that are followed.
ghost use Rattle.std.specs.Prelude.{◌≡◌, ◌+◌};

use ghost_traces::Count;
use std::marker::Model;

/// How many links were followed, a number that contracts alone see. Who goes from a node to the next or to the one
/// before hands one in, which that raises. Only the calls of `Ring` begin one, so nothing below them follows a link that
/// isn't counted.
#[derive(Drop)]
pub(crate) struct Followed {
    links: Count,
}

impl Model for Followed {
    ghost use Rattle.std.specs.Prelude.{ℕ};

    ghost Value = { ℕ };

    ghost view = { λ f. f.links };
}

impl Followed {
    /// None yet.
    pub(super) fn none() -> Followed
        ensures { result ≡ 0 }
    {
        Followed {
            links: Count::new(),
        }
    }

    /// One more.
    pub(crate) fn rise(&mut self)
        ensures { self.new ≡ self.old + 1 }
    {
        self.links.rise();
    }
}
