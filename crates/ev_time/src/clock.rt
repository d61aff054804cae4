//! Clocks.

ghost use Rattle.std.specs.Prelude.{◌≡◌, ◌<◌, ℕ, List, Option, Some, length};
ghost use Rattle.ev_time.specs.Coming.{Tells};

use crate::coming::Coming;
use std::marker::Model;

/// What tells the time, in whole seconds.
pub trait Clock {
    // The moments that it is going to tell, where they are known. No call changes whether they are.
    ghost coming: { Self → Option (List ℕ) };

    /// The moment now.
    fn now(&mut self) -> u64
        ensures { Tells result (coming self.old) (coming self.new) };
}

/// A clock that tells a list of moments, and the last of them again and again.
#[derive(Drop)]
pub struct FixedClock {
    moments: Coming,
}

impl Model for FixedClock {
    ghost use Rattle.std.specs.Prelude.{ℕ, List};

    ghost Value = { List ℕ };

    ghost view = { λ clock. clock.moments };
}

impl FixedClock {
    pub fn new(moments: Vec<u64>) -> Self
        requires { 0 < length moments.items }
        ensures { result ≡ moments.items }
    {
        FixedClock {
            moments: Coming::new(moments),
        }
    }
}

impl Clock for FixedClock {
    ghost coming = { λ clock. Some clock };

    fn now(&mut self) -> u64 {
        self.moments.next()
    }
}
