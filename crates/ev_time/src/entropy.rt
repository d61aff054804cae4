//! Sources of chance.

ghost use Rattle.std.specs.Prelude.{◌≡◌, ◌<◌, ℕ, List, Option, Some, length};
ghost use Rattle.ev_time.specs.Coming.{Tells};

use crate::coming::Coming;
use std::marker::Model;

/// What gives words that nobody is to guess.
pub trait Entropy {
    // The words that it is going to give, where they are known. No call changes whether they are.
    ghost coming: { Self → Option (List ℕ) };

    /// A word.
    fn word(&mut self) -> u64
        ensures { Tells result (coming self.old) (coming self.new) };
}

/// A list of words, of which the last is given again and again.
#[derive(Drop)]
pub struct ListEntropy {
    words: Coming,
}

impl Model for ListEntropy {
    ghost use Rattle.std.specs.Prelude.{ℕ, List};

    ghost Value = { List ℕ };

    ghost view = { λ entropy. entropy.words };
}

impl ListEntropy {
    pub fn new(words: Vec<u64>) -> Self
        requires { 0 < length words.items }
        ensures { result ≡ words.items }
    {
        ListEntropy {
            words: Coming::new(words),
        }
    }
}

impl Entropy for ListEntropy {
    ghost coming = { λ entropy. Some entropy };

    fn word(&mut self) -> u64 {
        self.words.next()
    }
}
