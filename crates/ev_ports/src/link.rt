//! The two directions of one connection: the trait `Link`.

ghost use Rattle.std.specs.Prelude.{◌≡◌, ◌<◌, ◌≤◌, ℕ, List, Option, length};
ghost use Rattle.ev_ports.specs.Ports.{Puts, Rose, Takes};

use crate::reading::Took;
use crate::writing::Put;

/// What bytes are read from and written to: a connection, or two lists in memory.
pub trait Link {
    // The bytes that are left, where they are known. No call changes whether they are.
    ghost left: { Self → Option (List ℕ) };

    // The bytes that were written, where they are known. No call changes whether they are.
    ghost held: { Self → Option (List ℕ) };

    // How many faults there were, of reads and writes together.
    ghost faults: { Self → ℕ };

    /// Reads into the front of `into`. What the slice holds behind the bytes taken, or after
    /// another answer, is left open. A fault may come at the end, too.
    fn read(&mut self, into: &mut [u8]) -> Took
        requires { 0 < length into.old }
        ensures taken { Takes result (left self.old) into.new (left self.new) }
        ensures held { held self.new ≡ held self.old }
        ensures count { faults self.old ≤ faults self.new }
        ensures cause { result ≡ Took.Failed → Rose (faults self.old) (faults self.new) };

    /// Writes the first of `bytes`, as many as it takes.
    fn write(&mut self, bytes: &[u8]) -> Put
        requires { 0 < length bytes.now }
        ensures put { Puts result (held self.old) bytes.now (held self.new) }
        ensures left { left self.new ≡ left self.old }
        ensures count { faults self.old ≤ faults self.new }
        ensures cause { result ≡ Put.Failed → Rose (faults self.old) (faults self.new) };

    /// How many faults there were. The count stands still at the end of its type.
    fn faults(&self) -> u64
        ensures { result ≡ faults self.now };
}
