//! The bytes of an input, read piece by piece.

ghost use Rattle.std.specs.Prelude.{◌≡◌, ◌≤◌, length};

use ev_base::NoMemory;
use ev_ports::{Source, Took};
use std::alloc::Global;

/// No line has more bytes than these, its line feed not counted.
pub const MAX_LINE_BYTES: usize = 65_536;

/// No more bytes are read than these.
pub const MAX_INPUT_BYTES: u64 = 1_073_741_824;

/// Room for the beginning of a line, and a piece behind it.
const ROOM: usize = 131_072;

/// The bytes of an input that were read and are yet to be played.
#[derive(Drop)]
pub struct Input {
    pub buffer: Vec<u8>,
    pub held: usize,
    pub read: u64,
    ghost sized: { length buffer.items ≡ 131072 },
    ghost within: { held ≤ 131072 },
    ghost bounded: { read ≤ 1073741824 },
}

impl Input {
    ghost use Rattle.std.specs.Prelude.{◌<◌, [], IfOk, drop};
    ghost use Rattle.ev_ports.specs.Ports.{Rose};
    ghost use Rattle.zm_run.specs.Running.{Fills, pending_of};

    /// Nothing was read. The memory is taken here, once.
    pub fn new(alloc: Global) -> Result<Input, NoMemory>
        ensures { IfOk result (λ input. (pending_of input ≡ []) × (input.read ≡ 0)) }
    {
        Ok(Input {
            buffer: vec![in alloc; 0; ROOM]?,
            held: 0,
            read: 0,
        })
    }

    /// Reads a piece behind what is pending.
    pub fn fill<S: Source>(&mut self, source: &mut S) -> Took
        requires room { length (pending_of self.old) ≤ MAX_LINE_BYTES }
        requires more { self.old.read < MAX_INPUT_BYTES }
        ensures filled { Fills result (S.left source.old) (S.left source.new) self.old self.new }
        ensures count { S.faults source.old ≤ S.faults source.new }
        ensures cause { result ≡ Took.Failed → Rose (S.faults source.old) (S.faults source.new) }
    {
        let most = (MAX_INPUT_BYTES - self.read).min((ROOM - self.held) as u64) as usize;
        let took = source.read(&mut self.buffer[self.held..self.held + most]);
        if let Took::Bytes(count) = took {
            self.held += count;
            self.read += count as u64;
        }
        took
    }

    /// The bytes that are pending.
    pub fn pending(&self) -> &[u8]
        ensures { result.now ≡ pending_of self.now }
    {
        &self.buffer[..self.held]
    }

    /// Leaves out the first of the pending bytes.
    pub fn consume(&mut self, used: usize)
        requires { used ≤ length (pending_of self.old) }
        ensures pending { pending_of self.new ≡ drop used (pending_of self.old) }
        ensures read { self.new.read ≡ self.old.read }
    {
        self.buffer.copy_within(used..self.held, 0);
        self.held -= used;
    }
}
