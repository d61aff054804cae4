//! The run of a script.

ghost use Rattle.std.specs.Prelude.{◌≡◌, ◌≢◌, ◌↔◌, [], ◌∷◌, IsTrue, codes, map, string_bytes};
ghost use Rattle.ev_ports.specs.Ports.{Rose};
ghost use Rattle.zm_run.specs.GoodScripts.{IsComplete};
ghost use Rattle.zm_run.specs.RunEnds.{Replays};
ghost use Rattle.zm_run.specs.Running.{IsCaused};

use crate::input::{Input, MAX_INPUT_BYTES};
use crate::runner::Runner;
use crate::status::Status;
use ev_ports::{Sink, Source, Took};
use std::alloc::Global;

/// Runs what the words name over a source and a sink: `replay` reads a script and writes its output,
/// piece by piece, so that the output before a fault stands. It always returns.
///
/// `replays` says of every run what was read and what was written, also where it ends early: the
/// lines that were played have one text, their histories are `legal`, and of what was printed the
/// promises hold. A register reply isn't before the commits at its line's start (`recent`), and each
/// section that was asked for and that the types cover is that of its user's view at the commit that
/// it reached (`fresh`). So is such a section of a client that takes or loses each answer, at each
/// that it takes (`followed`). The user is active then (`active`). A view is the view (`viewed`), and
/// an id that was answered shows the same event each time (`steady`). `complete` says that a good
/// script is run to its end where no read and no write fails and memory is enough.
pub fn run<S: Source, K: Sink>(
    alloc: Global,
    words: &[String],
    source: &mut S,
    sink: &mut K,
) -> Status
    // What was read and what was written belong together.
    ensures replays { Replays result
        (S.left source.old) (S.left source.new) (K.held sink.old) (K.held sink.new) }
    ensures usage { (result ≡ Status.Usage) ↔ (map string_bytes words.now ≢ codes "replay" ∷ []) }
    ensures read_fault { result ≡ Status.ReadFault → Rose (S.faults source.old) (S.faults source.new) }
    ensures write_fault { result ≡ Status.WriteFault → Rose (K.faults sink.old) (K.faults sink.new) }
    ensures complete { map string_bytes words.now ≡ codes "replay" ∷ []
        → IsComplete result (S.left source.old) (Rose (S.faults source.old) (S.faults source.new))
        (Rose (K.faults sink.old) (K.faults sink.new)) }
{
    if !are_the_word(words, "replay") {
        return Status::Usage;
    }
    replay(alloc, source, sink)
}

/// Whether the words are this one word.
pub fn are_the_word(words: &[String], expected: &str) -> bool
    ensures { IsTrue result ↔ (map string_bytes words.now ≡ expected.now ∷ []) }
{
    match words {
        [word] => word.as_str() == expected,
        _ => false,
    }
}

/// Reads a script piece by piece and writes its output.
fn replay<S: Source, K: Sink>(alloc: Global, source: &mut S, sink: &mut K) -> Status
    ensures replays { Replays result
        (S.left source.old) (S.left source.new) (K.held sink.old) (K.held sink.new) }
    ensures caused { IsCaused result (Rose (S.faults source.old) (S.faults source.new))
        (Rose (K.faults sink.old) (K.faults sink.new)) }
{
    let Ok(mut runner) = Runner::new(alloc) else {
        return Status::NoMemory;
    };
    let Ok(mut input) = Input::new(alloc) else {
        return Status::NoMemory;
    };
    while input.read < MAX_INPUT_BYTES {
        match input.fill(source) {
            Took::Bytes(_) => {
                if let Err(status) = runner.play_piece(alloc, &mut input, sink) {
                    return status;
                }
            }
            Took::End => return runner.finish(alloc, &input, sink),
            Took::Failed => return Status::ReadFault,
        }
    }
    Status::InputTooLong
}
