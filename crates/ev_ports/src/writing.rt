//! Where output goes: the trait `Sink`, and what a write answers.

ghost use Rattle.std.specs.Prelude.{◌≡◌, ◌<◌, ◌≤◌, ℕ, List, Option, length};
ghost use Rattle.ev_ports.specs.Ports.{Rose, Puts, PutsAll};

/// What a write answers.
#[derive(Clone, Copy, Debug, PartialEq, Eq)]
pub enum Put {
    /// So many bytes were written, the first ones, at least one.
    Wrote(usize),

    /// A fault: nothing was written.
    Failed,
}

/// What bytes are written to: a file, a terminal, a list in memory.
pub trait Sink {
    // The bytes that were written, where they are known. No call changes whether they are.
    ghost held: { Self → Option (List ℕ) };

    // How many faults there were.
    ghost faults: { Self → ℕ };

    /// Writes the first of `bytes`, as many as it takes.
    fn write(&mut self, bytes: &[u8]) -> Put
        requires { 0 < length bytes.now }
        ensures put { Puts result (held self.old) bytes.now (held self.new) }
        ensures count { faults self.old ≤ faults self.new }
        ensures cause { result ≡ Put.Failed → Rose (faults self.old) (faults self.new) };

    /// How many faults there were. The count stands still at the end of its type.
    fn faults(&self) -> u64
        ensures { result ≡ faults self.now };
}

/// What `write_all` answers.
#[derive(Clone, Copy, Debug, PartialEq, Eq)]
pub enum Written {
    /// All bytes were written.
    All,

    /// A fault: only some of the first bytes were written, or none.
    Failed,
}

/// Writes all of `bytes`, in as many writes as the sink needs, and stops at the first fault.
pub fn write_all<K: Sink>(sink: &mut K, bytes: &[u8]) -> Written
    ensures put { PutsAll result (K.held sink.old) bytes.now (K.held sink.new) }
    ensures count { K.faults sink.old ≤ K.faults sink.new }
    ensures cause { result ≡ Written.Failed → Rose (K.faults sink.old) (K.faults sink.new) }
{
    let mut done = 0;
    while done < bytes.len() {
        match sink.write(&bytes[done..]) {
            Put::Wrote(count) => done += count,
            Put::Failed => return Written::Failed,
        }
    }
    Written::All
}
