//! A link in memory, whose calls move pieces of a chosen size and fail where they were asked to.

ghost use Rattle.std.specs.Prelude.{◌≡◌, ◌<◌, ◌≤◌, ◌+◌, ◌↔◌, ◌⊎◌, [], Contains, IfOk, Some, length, min};
ghost use Rattle.ev_ports.specs.Ports.{Puts, Rose, Takes};
ghost use Rattle.ev_ports.specs.Links.{TakesPiece, after_read, after_write};

use crate::counts::raise;
use crate::link::Link;
use crate::memory::{MemSink, MemSource};
use crate::reading::{Source, Took};
use crate::writing::{Put, Sink};
use std::alloc::{AllocError, Global};
use std::marker::Model;

/// A list of bytes to be read, and one that grows by the bytes written.
#[derive(Drop)]
pub struct MemLink {
    source: MemSource,
    sink: MemSink,
    piece: usize,
    faults: u64,
}

impl Model for MemLink {
    ghost use Rattle.std.specs.Prelude.{◌<◌};
    ghost use Rattle.ev_ports.specs.Links.{LinkState};

    ghost Value = { LinkState };

    ghost view = { λ s. record {
      left = s.source.left;
      held = s.sink.held;
      room = s.sink.room;
      piece = s.piece;
      read_fails = s.source.fails;
      reads = s.source.calls;
      write_fails = s.sink.fails;
      writes = s.sink.calls;
      faults = s.faults;
    } };

    ghost invariant = { λ s. 0 < s.piece };
}

impl MemLink {
    /// A link that has these bytes left and room for so many, and moves at most a piece in one
    /// call. The lists of fails have the numbers, from 1, of the reads and the writes that fail.
    pub fn new(
        alloc: Global,
        bytes: Vec<u8>,
        room: usize,
        piece: usize,
        read_fails: Vec<u64>,
        write_fails: Vec<u64>,
    ) -> Result<Self, AllocError>
        requires { 0 < piece }
        ensures { IfOk result (λ link. link ≡ record {
          left = bytes.items;
          held = [];
          room = room;
          piece = piece;
          read_fails = read_fails.items;
          reads = 0;
          write_fails = write_fails.items;
          writes = 0;
          faults = 0;
        }) }
    {
        Ok(MemLink {
            source: MemSource::new(bytes, read_fails),
            sink: MemSink::new(alloc, room, write_fails)?,
            piece,
            faults: 0,
        })
    }

    /// The bytes written.
    pub fn written(&self) -> &[u8]
        ensures { result.now ≡ self.now.held }
    {
        self.sink.bytes()
    }
}

impl Link for MemLink {
    ghost left = { λ s. Some s.left };

    ghost held = { λ s. Some s.held };

    ghost faults = { λ s. s.faults };

    fn read(&mut self, into: &mut [u8]) -> Took
        requires { 0 < length into.old }
        ensures state { self.new ≡ after_read self.old result self.new.left }
        ensures failed { (result ≡ Took.Failed) ↔ Contains self.old.read_fails self.new.reads }
        ensures piece { TakesPiece result (min (length into.old) self.old.piece) self.old.left }
        ensures taken { Takes result (Some self.old.left) into.new (Some self.new.left) }
        ensures held { Some self.new.held ≡ Some self.old.held }
        ensures count { self.old.faults ≤ self.new.faults }
        ensures cause { result ≡ Took.Failed → Rose self.old.faults self.new.faults }
    {
        let count = into.len().min(self.piece);
        let took = self.source.read(&mut into[..count]);
        if took == Took::Failed {
            raise(&mut self.faults);
        }
        took
    }

    /// A write past the room fails where no memory is found for it.
    fn write(&mut self, bytes: &[u8]) -> Put
        requires { 0 < length bytes.now }
        ensures state { self.new ≡ after_write self.old result self.new.held self.new.room }
        ensures room { self.old.room ≤ self.new.room }
        ensures listed { Contains self.old.write_fails self.new.writes → result ≡ Put.Failed }
        ensures within_room { length self.old.held + min (length bytes.now) self.old.piece ≤ self.old.room
            → result ≡ Put.Failed → Contains self.old.write_fails self.new.writes }
        ensures piece { (result ≡ Put.Failed)
            ⊎ (result ≡ Put.Wrote (min (length bytes.now) self.old.piece)) }
        ensures put { Puts result (Some self.old.held) bytes.now (Some self.new.held) }
        ensures left { Some self.new.left ≡ Some self.old.left }
        ensures count { self.old.faults ≤ self.new.faults }
        ensures cause { result ≡ Put.Failed → Rose self.old.faults self.new.faults }
    {
        let count = bytes.len().min(self.piece);
        let put = self.sink.write(&bytes[..count]);
        if put == Put::Failed {
            raise(&mut self.faults);
        }
        put
    }

    fn faults(&self) -> u64 {
        self.faults
    }
}
