//! What is told of a run that doesn't end well.

ghost use Rattle.std.specs.Prelude.{◌≡◌, IfOk, string_bytes};
ghost use Rattle.zulip_main.specs.Messages.{message_of};

use std::alloc::{AllocError, Global};
use zm_run::Status;

/// How the program is called.
pub const USAGE: &str = "usage: zulip_main replay";

/// The line, without its line feed, that tells how a run ended, and nothing where all went well.
pub fn message(alloc: Global, status: Status) -> Result<String, AllocError>
    ensures { IfOk result (λ line. string_bytes line ≡ message_of status) }
{
    let text = match status {
        Status::BadLine { line } => return format!(in alloc; "line {line}: not understood"),
        Status::Done => "",
        Status::Usage => USAGE,
        Status::ReadFault => "read fault",
        Status::WriteFault => "write fault",
        Status::NoMemory => "out of memory",
        Status::InputTooLong => "input too long",
    };
    String::from_str(alloc, text)
}
