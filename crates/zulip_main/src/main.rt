//! Replays the script on standard input.
#![tactic(auto)]

mod message;

use ev_ports::{StdSink, StdSource};
use message::{USAGE, message};
use std::env;
use std::io::{self, ErrorKind};
use std::process::ExitCode;
use zm_run::{Status, are_the_word, run};

/// Ends with the number of how the run ended, which one line on standard error tells where it isn't 0.
fn main(rt: HostRuntime) -> ExitCode {
    let status = match words(&rt) {
        Ok(words) => obey(&rt, &words),
        Err(error) if error.kind() == ErrorKind::InvalidData => Status::Usage,
        Err(_) => Status::NoMemory,
    };
    tell(&rt, status);
    ExitCode::from(status.number())
}

/// The words behind the program's name.
fn words(rt: &HostRuntime) -> io::Result<Vec<String>> {
    Ok(env::args(rt)?.skip(1).collect(rt.alloc())?)
}

/// Tells of the program, or runs what the words name over standard input and output.
fn obey(rt: &HostRuntime, words: &[String]) -> Status {
    if are_the_word(words, "--help") {
        return print(rt, USAGE);
    }
    if are_the_word(words, "--version") {
        return print(rt, "zulip_main 1");
    }
    let mut source = StdSource::new(rt.reader());
    let mut sink = StdSink::new(io::writer(rt));
    run(rt.alloc(), words, &mut source, &mut sink)
}

/// Prints a line to standard output.
fn print(rt: &HostRuntime, line: &str) -> Status {
    match rt.println(line) {
        Ok(()) => Status::Done,
        Err(_) => Status::WriteFault,
    }
}

/// Tells on standard error how a run ended that didn't end well.
fn tell(rt: &HostRuntime, status: Status) {
    if status == Status::Done {
        return;
    }
    let _ = match message(rt.alloc(), status) {
        Ok(line) => rt.eprintln(line.as_str()),
        Err(_) => rt.eprintln("out of memory"),
    };
}
