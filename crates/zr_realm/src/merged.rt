//! The buffer in which the receipts of a new message are made, to be merged at once.

ghost use Rattle.std.specs.Prelude.{◌≡◌, ◌≤◌, ◌-◌, [], OnOk, vec_len, vec_capacity};

use ev_base::{MessageId, NoMemory, UserId};
use std::alloc::Global;
use std::marker::Model;
use std::mem;
use zr_types::Receipt;

/// Receipts by user and message.
pub type ReceiptRow = ((MessageId, UserId), Receipt);

/// A buffer without rows. Contracts see how many it has room for.
#[derive(Debug, Drop)]
pub struct ReceiptBuffer {
    rows: Vec<ReceiptRow>,
}

impl Model for ReceiptBuffer {
    ghost use Rattle.std.specs.Prelude.{◌≡◌, ◌-◌, ℕ, vec_len, vec_capacity, []};

    ghost Value = { ℕ };

    ghost view = { λ it. vec_capacity it.rows - vec_len it.rows };

    ghost invariant = { λ it. it.rows.items ≡ [] };
}

impl ReceiptBuffer {
    /// A buffer without room.
    pub fn new(alloc: Global) -> ReceiptBuffer
        ensures room { result ≡ 0 }
    {
        ReceiptBuffer {
            rows: Vec::new(alloc),
        }
    }

    pub fn reserve(&mut self, more: usize) -> Result<(), NoMemory>
        ensures room { OnOk result (more ≤ self.new) }
    {
        Ok(self.rows.reserve(more)?)
    }

    /// The buffer itself, in whose place there is one without room afterwards.
    pub fn take(&mut self) -> Vec<ReceiptRow>
        ensures empty { result.items ≡ [] }
        ensures room { self.old ≤ vec_capacity result - vec_len result }
    {
        let alloc = *self.rows.allocator();
        mem::replace(&mut self.rows, Vec::new(alloc))
    }
}
