//! The texts of a command.

ghost use Rattle.std.specs.Prelude.{◌≡◌, ◌+◌, IfOk, nat_lt, map};
ghost use Rattle.std.specs.List.{list_any};
ghost use Rattle.zr_types.specs.Refusals.{max_text_bytes};
ghost use Rattle.cmd_rules.specs.Given.{bytes_in, has_fault, text_of};

use ev_base::{Listed, NoMemory, PlainText, Text, TextKind};
use std::alloc::Global;

// How many bytes the texts of all accepted commands may have together.
const MAX_TEXT_BYTES: u64 = 268_435_456;

/// A text as a command gives it, with what it is for.
#[derive(Clone, Copy)]
pub struct GivenText<'a> {
    pub kind: TextKind,
    pub text: &'a str,
}

impl<'a> GivenText<'a> {
    pub fn new(kind: TextKind, text: &'a PlainText) -> GivenText<'a>
        ensures kind { result.kind ≡ kind }
        ensures text { result.text.now ≡ text.now }
    {
        GivenText {
            kind,
            text: text.as_str(),
        }
    }
}

/// Whether one of them is not of its kind.
pub fn have_fault(texts: &[GivenText<'_>]) -> bool
    ensures { result ≡ list_any has_fault texts.now }
{
    texts
        .iter()
        .any(|given| given.kind.fault(given.text).is_some())
}

/// Whether they do not fit into a realm that took so many bytes before.
pub fn pass_limit(present: u64, texts: &[GivenText<'_>]) -> bool
    ensures { result ≡ nat_lt max_text_bytes (present + bytes_in texts.now) }
{
    if MAX_TEXT_BYTES < present {
        return true;
    }
    let mut room = MAX_TEXT_BYTES - present;
    for given in texts {
        let more = given.text.len() as u64;
        if room < more {
            return true;
        }
        room -= more;
    }
    false
}

/// Reads those of a command that nothing refuses.
pub fn read_texts(alloc: Global, texts: &[GivenText<'_>]) -> Result<Listed<Text>, NoMemory>
    ensures { IfOk result (λ read. read ≡ map text_of texts.now) }
{
    let mut read = Vec::new(alloc);
    for given in texts {
        match Text::read(alloc, given.kind, given.text) {
            Ok(text) => read.push(text)?,
            Err(_) => return Err(NoMemory),
        }
    }
    Ok(Listed::from_vec(read))
}
