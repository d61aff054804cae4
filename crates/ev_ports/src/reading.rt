//! Where input comes from: the trait `Source`, and what a read answers.

ghost use Rattle.std.specs.Prelude.{◌≡◌, ◌<◌, ◌≤◌, ℕ, List, Option, length};
ghost use Rattle.ev_ports.specs.Ports.{Rose, Takes};

/// What a read answers.
#[derive(Clone, Copy, Debug, PartialEq, Eq)]
pub enum Took {
    /// So many bytes stand at the front of the slice, at least one.
    Bytes(usize),

    /// Nothing is left.
    End,

    /// A fault: nothing was taken.
    Failed,
}

/// What bytes are read from: a file, a terminal, a list in memory.
pub trait Source {
    // The bytes that are left, where they are known. No call changes whether they are.
    ghost left: { Self → Option (List ℕ) };

    // How many faults there were.
    ghost faults: { Self → ℕ };

    /// Reads into the front of `into`. What the slice holds behind the bytes taken, or after
    /// another answer, is left open. A fault may come at the end, too.
    fn read(&mut self, into: &mut [u8]) -> Took
        requires { 0 < length into.old }
        ensures taken { Takes result (left self.old) into.new (left self.new) }
        ensures count { faults self.old ≤ faults self.new }
        ensures cause { result ≡ Took.Failed → Rose (faults self.old) (faults self.new) };

    /// How many faults there were. The count stands still at the end of its type.
    fn faults(&self) -> u64
        ensures { result ≡ faults self.now };
}
