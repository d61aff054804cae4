//! Sources and sinks, in memory and over std, and a write of all bytes.

use crate::checks::check_text;
use ev_ports::{
    MemSink, MemSource, Put, Sink, Source, StdSink, StdSource, Took, Written, write_all,
};
use std::alloc::{AllocError, Global};
use std::io::{Error, ErrorKind, Read, Write};
use std::process::Abort;
use std::test::Fail;

/// A reader and writer that is interrupted so often, passes on so many bytes one by one, and then
/// fails.
#[derive(Drop)]
struct Flaky {
    interruptions: u32,
    bytes: usize,
    written: Vec<u8>,
}

impl Flaky {
    fn new(alloc: Global, interruptions: u32, bytes: usize) -> Flaky {
        Flaky {
            interruptions,
            bytes,
            written: Vec::new(alloc),
        }
    }

    /// Whether a byte may be passed on now.
    fn pass(&mut self) -> Result<(), Error> {
        if self.interruptions > 0 {
            self.interruptions -= 1;
            return Err(Error::from(ErrorKind::Interrupted));
        }
        if self.bytes == 0 {
            return Err(Error::from(ErrorKind::BrokenPipe));
        }
        self.bytes -= 1;
        Ok(())
    }
}

impl Read for Flaky {
    fn read(&mut self, buf: &mut [u8]) -> Result<usize, Error> {
        self.pass()?;
        if buf.is_empty() {
            return Ok(0);
        }
        buf[0] = b'x';
        Ok(1)
    }
}

impl Write for Flaky {
    fn write(&mut self, buf: &[u8]) -> Result<usize, Error> {
        self.pass()?;
        if buf.is_empty() {
            return Ok(0);
        }
        self.written.push(buf[0])?;
        Ok(1)
    }

    fn flush(&mut self) -> Result<(), Error> {
        Ok(())
    }
}

/// What so many reads into two bytes give, a word for each: the bytes taken, or what else was
/// answered.
fn read_words<S: Source>(alloc: Global, source: &mut S, reads: u32) -> Result<Vec<u8>, AllocError> {
    let mut words = Vec::new(alloc);
    for _ in 0..reads {
        let mut into = [0; 2];
        match source.read(&mut into) {
            Took::Bytes(1) => words.extend_from_slice(&into[..1])?,
            Took::Bytes(_) => words.extend_from_slice(&into)?,
            Took::End => words.extend_from_slice(b"END")?,
            Took::Failed => words.extend_from_slice(b"FAILED")?,
        }
        words.push(b' ')?;
    }
    Ok(words)
}

/// Checks what so many reads give, and how many faults there were by then.
fn check_reads<S: Source>(
    rt: &impl Abort,
    alloc: Global,
    source: &mut S,
    reads: u32,
    expected: (&str, u64),
) -> Result<(), Fail> {
    let words = read_words(alloc, source, reads)?;
    check_text(rt, &words, expected.0);
    assert_eq!(rt; source.faults(), expected.1);
    Ok(())
}

/// Checks what a write of two bytes answers, and how many faults there were by then.
fn check_write<K: Sink>(rt: &impl Abort, sink: &mut K, pair: &[u8; 2], expected: (Put, u64)) {
    let put = sink.write(pair);
    assert_eq!(rt; (put, sink.faults()), expected);
}

#[test]
fn a_source_in_memory_fails_where_it_is_asked_to(rt: HostRuntime) -> Result<(), Fail> {
    let alloc = rt.alloc();
    let mut source = MemSource::new(b"abc".to_vec(alloc)?, vec![in alloc; 2]?);
    check_reads(&rt, alloc, &mut source, 2, ("ab FAILED ", 1))?;
    check_text(&rt, source.left(), "c");
    check_reads(&rt, alloc, &mut source, 2, ("c END ", 1))?;
    Ok(())
}

#[test]
fn a_sink_in_memory_fails_where_it_is_asked_to(rt: HostRuntime) -> Result<(), Fail> {
    let alloc = rt.alloc();
    let mut sink = MemSink::new(alloc, 2, vec![in alloc; 3]?)?;
    check_write(&rt, &mut sink, b"ab", (Put::Wrote(2), 0));
    check_write(&rt, &mut sink, b"cd", (Put::Wrote(2), 0));
    check_write(&rt, &mut sink, b"ef", (Put::Failed, 1));
    check_text(&rt, sink.bytes(), "abcd");
    check_write(&rt, &mut sink, b"ef", (Put::Wrote(2), 1));
    check_text(&rt, sink.bytes(), "abcdef");
    Ok(())
}

#[test]
fn a_source_over_a_slice_reads_it_to_its_end(rt: HostRuntime) -> Result<(), Fail> {
    let mut source = StdSource::new(b"abc".as_slice());
    check_reads(&rt, rt.alloc(), &mut source, 3, ("ab c END ", 0))?;
    check_text(&rt, source.into_inner(), "");
    Ok(())
}

#[test]
fn a_sink_over_a_vec_appends_to_it(rt: HostRuntime) {
    let mut sink = StdSink::new(Vec::new(rt.alloc()));
    check_write(&rt, &mut sink, b"ab", (Put::Wrote(2), 0));
    check_write(&rt, &mut sink, b"cd", (Put::Wrote(2), 0));
    check_text(&rt, &sink.into_inner(), "abcd");
}

#[test]
fn a_write_of_no_bytes_is_a_fault(rt: HostRuntime) {
    let mut full = [0; 0];
    let mut sink = StdSink::new(full.as_mut_slice());
    check_write(&rt, &mut sink, b"ab", (Put::Failed, 1));
}

/// Checks what one read of a flaky reader answers, and how many faults there were.
fn check_flaky_read(rt: &impl Abort, flaky: Flaky, expected: (Took, u64)) {
    let mut source = StdSource::new(flaky);
    let took = source.read(&mut [0; 2]);
    assert_eq!(rt; (took, source.faults()), expected);
}

#[test]
fn an_interrupted_read_is_tried_again_a_thousand_times(rt: HostRuntime) {
    let alloc = rt.alloc();
    check_flaky_read(&rt, Flaky::new(alloc, 0, 1), (Took::Bytes(1), 0));
    check_flaky_read(&rt, Flaky::new(alloc, 1_000, 1), (Took::Bytes(1), 0));
    check_flaky_read(&rt, Flaky::new(alloc, 1_001, 1), (Took::Failed, 1));
    check_flaky_read(&rt, Flaky::new(alloc, 0, 0), (Took::Failed, 1));
}

/// Checks what one write to a flaky writer answers, and how many faults there were.
fn check_flaky_write(rt: &impl Abort, flaky: Flaky, expected: (Put, u64)) {
    let mut sink = StdSink::new(flaky);
    check_write(rt, &mut sink, b"ab", expected);
}

#[test]
fn an_interrupted_write_is_tried_again_a_thousand_times(rt: HostRuntime) {
    let alloc = rt.alloc();
    check_flaky_write(&rt, Flaky::new(alloc, 0, 1), (Put::Wrote(1), 0));
    check_flaky_write(&rt, Flaky::new(alloc, 1_000, 1), (Put::Wrote(1), 0));
    check_flaky_write(&rt, Flaky::new(alloc, 1_001, 1), (Put::Failed, 1));
    check_flaky_write(&rt, Flaky::new(alloc, 0, 0), (Put::Failed, 1));
}

/// Checks a write of all of `abc` to a flaky writer: what it answers, and what was written.
fn check_write_all(rt: &impl Abort, flaky: Flaky, answer: Written, text: &str) {
    let mut sink = StdSink::new(flaky);
    assert_eq!(rt; write_all(&mut sink, b"abc"), answer);
    check_text(rt, &sink.into_inner().written, text);
}

#[test]
fn all_bytes_are_written_piece_by_piece_up_to_a_fault(rt: HostRuntime) {
    let alloc = rt.alloc();
    check_write_all(&rt, Flaky::new(alloc, 0, 3), Written::All, "abc");
    check_write_all(&rt, Flaky::new(alloc, 0, 2), Written::Failed, "ab");
}
