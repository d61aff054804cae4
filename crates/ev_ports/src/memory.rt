//! Sources and sinks in memory, whose calls fail where they were asked to.
ghost use Rattle.std.specs.Prelude.{◌≡◌, ◌<◌, ◌≤◌, ◌+◌, ◌↔◌, ◌⊎◌, ◌++◌, min, [], Contains, length, take, drop, IsTrue, IfOk, Some};
ghost use Rattle.ev_ports.specs.Ports.{Takes, Puts, Rose, one_more, faults_after_read, faults_after_write};
ghost use Rattle.ev_ports.specs.Memory.{TakesMost};

use crate::counts::raise;
use crate::reading::{Source, Took};
use crate::writing::{Put, Sink};
use std::alloc::{AllocError, Global};
use std::marker::Model;

/// Which calls fail, by their numbers from 1, and how many were made.
#[derive(Drop)]
struct Schedule {
    fails: Vec<u64>,
    calls: u64,
}

impl Schedule {
    fn new(fails: Vec<u64>) -> Self
        ensures fails { result.fails.items ≡ fails.items }
        ensures calls { result.calls ≡ 0 }
    {
        Schedule { fails, calls: 0 }
    }

    /// Counts one more call, and says whether it is one of those that fail.
    fn next_fails(&mut self) -> bool
        ensures fails { self.new.fails.items ≡ self.old.fails.items }
        ensures calls { self.new.calls ≡ one_more self.old.calls }
        ensures listed { IsTrue result ↔ Contains self.old.fails.items self.new.calls }
    {
        raise(&mut self.calls);
        self.fails.contains(&self.calls)
    }
}

/// Copies as many of the bytes as fit, and answers how many.
fn copy_front(bytes: &[u8], into: &mut [u8]) -> usize
    ensures count { result ≡ min (length into.old) (length bytes.now) }
    ensures copied { into.new ≡ take result bytes.now ++ drop result into.old }
{
    let count = into.len().min(bytes.len());
    into[..count].copy_from_slice(&bytes[..count]);
    count
}

/// A list of bytes to be read.
#[derive(Drop)]
pub struct MemSource {
    bytes: Vec<u8>,
    taken: usize,
    schedule: Schedule,
    faults: u64,
}

impl Model for MemSource {
    ghost use Rattle.std.specs.Prelude.{◌≤◌, drop, vec_len};
    ghost use Rattle.ev_ports.specs.Memory.{SourceState};

    ghost Value = { SourceState };

    ghost view = { λ s. record {
      left = drop s.taken s.bytes.items;
      fails = s.schedule.fails.items;
      calls = s.schedule.calls;
      faults = s.faults;
    } };

    ghost invariant = { λ s. s.taken ≤ vec_len s.bytes };
}

impl MemSource {
    /// A source of these bytes. `fails` has the numbers, from 1, of the reads that fail.
    pub fn new(bytes: Vec<u8>, fails: Vec<u64>) -> Self
        ensures { result ≡ record {
          left = bytes.items;
          fails = fails.items;
          calls = 0;
          faults = 0;
        } }
    {
        MemSource {
            bytes,
            taken: 0,
            schedule: Schedule::new(fails),
            faults: 0,
        }
    }

    /// The bytes left.
    pub fn left(&self) -> &[u8]
        ensures { result.now ≡ self.now.left }
    {
        &self.bytes[self.taken..]
    }
}

impl Source for MemSource {
    ghost left = { λ s. Some s.left };

    ghost faults = { λ s. s.faults };

    fn read(&mut self, into: &mut [u8]) -> Took
        requires { 0 < length into.old }

        // The calls and their faults.
        ensures fails { self.new.fails ≡ self.old.fails }
        ensures calls { self.new.calls ≡ one_more self.old.calls }
        ensures failed { (result ≡ Took.Failed) ↔ Contains self.old.fails self.new.calls }
        ensures faults { self.new.faults ≡ faults_after_read self.old.faults result }
        ensures count { self.old.faults ≤ self.new.faults }
        ensures cause { result ≡ Took.Failed → Rose self.old.faults self.new.faults }

        // The bytes.
        ensures taken { Takes result (Some self.old.left) into.new (Some self.new.left) }
        ensures most { TakesMost result self.old.left into.old into.new }
    {
        if self.schedule.next_fails() {
            raise(&mut self.faults);
            return Took::Failed;
        }
        let count = copy_front(self.left(), into);
        if count == 0 {
            return Took::End;
        }
        self.taken += count;
        Took::Bytes(count)
    }

    fn faults(&self) -> u64 {
        self.faults
    }
}

/// A list that grows by the bytes written.
#[derive(Drop)]
pub struct MemSink {
    held: Vec<u8>,
    schedule: Schedule,
    faults: u64,
}

impl Model for MemSink {
    ghost use Rattle.std.specs.Prelude.{vec_capacity};
    ghost use Rattle.ev_ports.specs.Memory.{SinkState};

    ghost Value = { SinkState };

    ghost view = { λ s. record {
      held = s.held.items;
      room = vec_capacity s.held;
      fails = s.schedule.fails.items;
      calls = s.schedule.calls;
      faults = s.faults;
    } };
}

impl MemSink {
    /// An empty sink with room for so many bytes. `fails` has the numbers, from 1, of the writes
    /// that fail.
    pub fn new(alloc: Global, room: usize, fails: Vec<u64>) -> Result<Self, AllocError>
        ensures { IfOk result (λ sink. sink ≡ record {
          held = [];
          room = room;
          fails = fails.items;
          calls = 0;
          faults = 0;
        }) }
    {
        let held = Vec::with_capacity(alloc, room)?;
        Ok(MemSink {
            held,
            schedule: Schedule::new(fails),
            faults: 0,
        })
    }

    /// The bytes written.
    pub fn bytes(&self) -> &[u8]
        ensures { result.now ≡ self.now.held }
    {
        &self.held
    }
}

impl Sink for MemSink {
    ghost held = { λ s. Some s.held };

    ghost faults = { λ s. s.faults };

    /// A write past the room fails where no memory is found for it.
    fn write(&mut self, bytes: &[u8]) -> Put
        requires { 0 < length bytes.now }

        // The calls and their faults.
        ensures fails { self.new.fails ≡ self.old.fails }
        ensures calls { self.new.calls ≡ one_more self.old.calls }
        ensures room { self.old.room ≤ self.new.room }
        ensures listed { Contains self.old.fails self.new.calls → result ≡ Put.Failed }
        ensures within_room { length self.old.held + length bytes.now ≤ self.old.room
            → result ≡ Put.Failed → Contains self.old.fails self.new.calls }
        ensures faults { self.new.faults ≡ faults_after_write self.old.faults result }
        ensures count { self.old.faults ≤ self.new.faults }
        ensures cause { result ≡ Put.Failed → Rose self.old.faults self.new.faults }

        // The bytes.
        ensures put { Puts result (Some self.old.held) bytes.now (Some self.new.held) }
        ensures whole { (result ≡ Put.Failed) ⊎ (result ≡ Put.Wrote (length bytes.now)) }
    {
        if self.schedule.next_fails() {
            raise(&mut self.faults);
            return Put::Failed;
        }
        if self.held.extend_from_slice(bytes).is_err() {
            raise(&mut self.faults);
            return Put::Failed;
        }
        Put::Wrote(bytes.len())
    }

    fn faults(&self) -> u64 {
        self.faults
    }
}
