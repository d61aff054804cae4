//! Sources and sinks over std's readers and writers.
ghost use Rattle.std.specs.Prelude.{◌≡◌, ◌<◌, ◌≤◌, length, None};
ghost use Rattle.ev_ports.specs.Ports.{Takes, Puts, Rose, faults_after_read, faults_after_write};
ghost use Rattle.ev_ports.specs.Standard.{PassesRead, PassesWrite};

use crate::counts::raise;
use crate::reading::{Source, Took};
use crate::writing::{Put, Sink};
use std::io::{ErrorKind, Read, Write};
use std::marker::Model;

/// A call tries once, and again where it was interrupted, at most a thousand times.
const MAX_TRIES: u32 = 1 + 1_000;

/// A source over a reader of std. Each error is a fault, but for an interruption: the read is tried
/// again, at most a thousand times, and one more interruption is a fault.
#[derive(Drop)]
pub struct StdSource<R> {
    reader: R,
    faults: u64,
}

impl<R> Model for StdSource<R> {
    ghost use Rattle.ev_ports.specs.Standard.{Counted, counted_code};

    ghost Value = { Counted R };

    ghost coded = { counted_code R.code };

    ghost view = { λ s. record { inner = s.reader; faults = s.faults } };
}

impl<R> StdSource<R> {
    pub fn new(reader: R) -> Self
        ensures { result ≡ record { inner = reader; faults = 0 } }
    {
        StdSource { reader, faults: 0 }
    }

    pub fn into_inner(self) -> R
        ensures { result ≡ self.inner }
    {
        let StdSource { reader, faults: _ } = self;
        reader
    }
}

impl<R: Read> Source for StdSource<R> {
    ghost left = { λ _. None };

    ghost faults = { λ s. s.faults };

    fn read(&mut self, into: &mut [u8]) -> Took
        requires { 0 < length into.old }
        ensures taken { Takes result None into.new None }
        ensures passed { PassesRead result (R.remaining self.old.inner) into.new
            (R.remaining self.new.inner) }
        ensures faults { self.new.faults ≡ faults_after_read self.old.faults result }
        ensures count { self.old.faults ≤ self.new.faults }
        ensures cause { result ≡ Took.Failed → Rose self.old.faults self.new.faults }
    {
        for _ in 0..MAX_TRIES {
            match self.reader.read(into) {
                Ok(0) => return Took::End,
                Ok(count) => return Took::Bytes(count),
                Err(error) => {
                    if error.kind() != ErrorKind::Interrupted {
                        break;
                    }
                }
            }
        }
        raise(&mut self.faults);
        Took::Failed
    }

    fn faults(&self) -> u64 {
        self.faults
    }
}

/// A sink over a writer of std. The bytes go to the writer at once, and the sink never flushes it:
/// standard output has no buffer, and whoever wraps a writer that has one flushes it in the end.
/// Each error is a fault, and so is a write of no bytes; of interruptions the same holds as for
/// `StdSource`.
#[derive(Drop)]
pub struct StdSink<W> {
    writer: W,
    faults: u64,
}

impl<W> Model for StdSink<W> {
    ghost use Rattle.ev_ports.specs.Standard.{Counted, counted_code};

    ghost Value = { Counted W };

    ghost coded = { counted_code W.code };

    ghost view = { λ s. record { inner = s.writer; faults = s.faults } };
}

impl<W> StdSink<W> {
    pub fn new(writer: W) -> Self
        ensures { result ≡ record { inner = writer; faults = 0 } }
    {
        StdSink { writer, faults: 0 }
    }

    pub fn into_inner(self) -> W
        ensures { result ≡ self.inner }
    {
        let StdSink { writer, faults: _ } = self;
        writer
    }
}

impl<W: Write> Sink for StdSink<W> {
    ghost held = { λ _. None };

    ghost faults = { λ s. s.faults };

    fn write(&mut self, bytes: &[u8]) -> Put
        requires { 0 < length bytes.now }
        ensures put { Puts result None bytes.now None }
        ensures passed { PassesWrite result (W.contents self.old.inner) bytes.now
            (W.contents self.new.inner) }
        ensures faults { self.new.faults ≡ faults_after_write self.old.faults result }
        ensures count { self.old.faults ≤ self.new.faults }
        ensures cause { result ≡ Put.Failed → Rose self.old.faults self.new.faults }
    {
        for _ in 0..MAX_TRIES {
            match self.writer.write(bytes) {
                Ok(0) => break,
                Ok(count) => return Put::Wrote(count),
                Err(error) => {
                    if error.kind() != ErrorKind::Interrupted {
                        break;
                    }
                }
            }
        }
        raise(&mut self.faults);
        Put::Failed
    }

    fn faults(&self) -> u64 {
        self.faults
    }
}
