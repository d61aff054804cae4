//! A walk over rows from the greatest key down, with edits where it stands.

ghost use Rattle.std.specs.Prelude.{◌≡◌, ◌+◌, ◌-◌, ◌≤◌, ◌<◌, ◌∷◌, ◌++◌, [], false, length, IsNone, MatchOption, vec_len, vec_capacity};
ghost use Rattle.std.specs.Option.{option_to_list};
ghost use Rattle.std.specs.Ordering.{is_eq, is_lt};
ghost use Rattle.std.specs.declared.cmp.Ordering.TheVariants.{Equal};
ghost use Rattle.ev_rows.proofs.RiseLemmas.{IsBelow};
ghost use Rattle.ev_apply.specs.Walking.{IsPassed, order_to_last};

use std::cmp::Ordering;
use std::collections::VecDeque;
use std::marker::Model;

/// Rows, some of which are passed and the others not yet, with room for more between them.
///
/// The block of the rows is a ring. At its back are the rows that are left, and each row that is passed goes to
/// its front.
#[derive(Drop)]
pub struct Walk<K, V> {
    ring: VecDeque<(K, V)>,
    left: usize,
}

impl<K, V> Model for Walk<K, V> {
    ghost use Rattle.std.specs.Prelude.{◌-◌, ◌≤◌, take, drop};
    ghost use Rattle.std.specs.VecDeque.{deque_len, deque_capacity};
    ghost use Rattle.ev_apply.specs.Walking.{Walking};

    ghost Value = { Walking K V };

    ghost view = { λ it. record {
      passed = take (deque_len it.ring - it.left) it.ring.items;
      left = drop (deque_len it.ring - it.left) it.ring.items;
      room = deque_capacity it.ring - deque_len it.ring;
    } };

    ghost invariant = { λ it. it.left ≤ deque_len it.ring };
}

impl<K, V> Walk<K, V> {
    /// At the end of the rows.
    pub fn new(rows: Vec<(K, V)>) -> Self
        ensures left { result.left ≡ rows.items }
        ensures passed { result.passed ≡ [] }
        ensures room { result.room ≡ vec_capacity rows - vec_len rows }
    {
        let left = rows.len();
        Walk {
            ring: VecDeque::from_vec(rows),
            left,
        }
    }

    /// All rows.
    pub fn into_vec(self) -> Vec<(K, V)>
        ensures items { result.items ≡ self.left ++ self.passed }
        ensures room { vec_capacity result - vec_len result ≡ self.room }
    {
        let Walk { mut ring, left } = self;
        ring.rotate_right(left);
        ring.into_vec()
    }

    // Passes the last row that is left.
    fn pass(&mut self)
        requires { 0 < length self.old.left }
        ensures rows { IsPassed self.old.left self.old.passed self.new.left self.new.passed }
        ensures room { self.new.room ≡ self.old.room }
    {
        self.ring.rotate_right(1);
        self.left -= 1;
    }

    // Takes out the last row that is left.
    fn pop(&mut self) -> Option<(K, V)>
        ensures left { self.old.left ≡ self.new.left ++ option_to_list result }
        ensures end { IsNone result → self.old.left ≡ [] }
        ensures passed { self.new.passed ≡ self.old.passed }
        ensures room { self.new.room ≡ self.old.room + length (option_to_list result) }
    {
        if self.left == 0 {
            return None;
        }
        self.left -= 1;
        self.ring.pop_back()
    }

    /// Puts a row after those that are left.
    pub fn push(&mut self, key: K, value: V)
        requires { 1 ≤ self.old.room }
        ensures left { self.new.left ≡ self.old.left ++ (key, value) ∷ [] }
        ensures passed { self.new.passed ≡ self.old.passed }
        ensures room { self.new.room + 1 ≡ self.old.room }
    {
        self.ring.push_back_reserved((key, value));
        self.left += 1;
    }
}

impl<K: Ord, V> Walk<K, V> {
    // How the key compares to that of the last row that is left, if there is one.
    fn order_to_last(&self, key: &K) -> Ordering
        ensures { result ≡ order_to_last K.cmp key.now self.now.left }
    {
        match self.ring.back() {
            Some(row) if self.left > 0 => key.cmp(&row.0),
            _ => Ordering::Greater,
        }
    }

    /// Passes the rows above the key.
    pub fn pass_above(&mut self, key: &K)
        ensures rows { self.new.left ++ self.new.passed ≡ self.old.left ++ self.old.passed }
        ensures end { is_lt (order_to_last K.cmp key.now self.new.left) ≡ false }
        ensures below { (low : K) → is_lt (K.cmp key.now low) ≡ false
            → IsBelow K.cmp low self.old.passed → IsBelow K.cmp low self.new.passed }
        ensures room { self.new.room ≡ self.old.room }
    {
        while self.order_to_last(key).is_lt() {
            self.pass();
        }
    }

    /// Takes out the last row that is left, if it is that of the key.
    pub fn take(&mut self, key: &K) -> Option<(K, V)>
        ensures left { self.old.left ≡ self.new.left ++ option_to_list result }
        ensures passed { self.new.passed ≡ self.old.passed }
        ensures room { self.new.room ≡ self.old.room + length (option_to_list result) }
        ensures found { MatchOption result
            (is_eq (order_to_last K.cmp key.now self.old.left) ≡ false)
            (λ row. K.cmp key.now row.0 ≡ Equal) }
    {
        if self.order_to_last(key).is_eq() {
            self.pop()
        } else {
            None
        }
    }
}
