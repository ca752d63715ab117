//! How often something happened.
ghost use Rattle.std.specs.Prelude.{◌≡◌, ◌+◌};

use crate::trace::Trace;
use std::marker::Model;

/// A number that contracts alone see: how long a trace is. It has no bytes and stands in contracts alone, so no number
/// is too great for it.
#[derive(Drop)]
pub struct Count {
    trace: Trace<()>,
}

impl Model for Count {
    ghost use Rattle.std.specs.Prelude.{ℕ, length};

    ghost Value = { ℕ };

    ghost view = { λ c. length c.trace.items };
}

impl Count {
    /// None yet.
    pub fn new() -> Count
        ensures { result ≡ 0 }
    {
        Count {
            trace: Trace::new(),
        }
    }

    /// One more.
    pub fn rise(&mut self)
        ensures { self.new ≡ self.old + 1 }
    {
        self.trace.add(&[()]);
    }
}
