//! Numbers that are told one after another.

ghost use Rattle.std.specs.Prelude.{◌≡◌, ◌<◌, length};
ghost use Rattle.ev_time.specs.Coming.{TellsFirst};

use std::marker::Model;

/// Numbers to come, of which the last one stays.
#[derive(Drop)]
pub struct Coming {
    numbers: Vec<u64>,
    told: usize,
}

impl Model for Coming {
    ghost use Rattle.std.specs.Prelude.{ℕ, List, ◌<◌, drop, vec_len};

    ghost Value = { List ℕ };

    ghost view = { λ it. drop it.told it.numbers.items };

    ghost invariant = { λ it. it.told < vec_len it.numbers };
}

impl Coming {
    pub fn new(numbers: Vec<u64>) -> Self
        requires { 0 < length numbers.items }
        ensures { result ≡ numbers.items }
    {
        Coming { numbers, told: 0 }
    }

    pub fn next(&mut self) -> u64
        ensures { TellsFirst result self.old self.new }
    {
        let number = self.numbers[self.told];
        if self.told + 1 < self.numbers.len() {
            self.told += 1;
        }
        number
    }
}
