//! The texts that a change stores.

ghost use Rattle.std.specs.Prelude.{◌≡◌, ◌<◌, ◌∷◌, length};

use ev_base::{Listed, Text};
use std::collections::VecDeque;
use std::marker::Model;

/// Texts, each of which is taken in its turn.
#[derive(Drop)]
pub struct Texts {
    rest: VecDeque<Text>,
}

impl Model for Texts {
    ghost use Rattle.std.specs.Prelude.{List, ℕ};

    ghost Value = { List (List ℕ) };

    ghost view = { λ it. it.rest.items };
}

impl Texts {
    pub fn new(texts: Listed<Text>) -> Texts
        ensures { result ≡ texts }
    {
        Texts {
            rest: VecDeque::from_vec(texts.into_vec()),
        }
    }

    pub fn take(&mut self) -> Text
        requires { 0 < length self.old }
        ensures { self.old ≡ result ∷ self.new }
    {
        self.rest.pop_front().unwrap()
    }
}
