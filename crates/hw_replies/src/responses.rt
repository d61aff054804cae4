//! Whole responses.

ghost use Rattle.std.specs.Prelude.{◌≡◌, ◌++◌, IfOk, codes, string_bytes};
ghost use Rattle.hw_replies.specs.Answers.{close_line, first_lines, head_of, length_line, own_line, response_text};

use crate::answer::Answer;
use crate::bodies::body_of;
use crate::problem::Problem;
use ev_base::NoMemory;
use http::StatusCode;
use hw_wire::Response;
use std::alloc::{AllocError, Global};

/// The response to a request. With `close` it says that the connection ends behind it.
pub fn respond(alloc: Global, answer: &Answer, close: bool) -> Result<Response, NoMemory>
    ensures { IfOk result (λ response. response.bytes.items ≡ response_text answer.now close) }
{
    let body = body_of(alloc, answer)?;
    let mut bytes = head_of(alloc, answer, close, body.len())?.into_bytes();
    bytes.extend_from_slice(&body)?;
    Ok(Response { bytes })
}

// The lines of a response with a body of so many bytes, and an empty one.
#[tactic(auto, unfolding(crate::specs::Answers::head_of))]
fn head_of(alloc: Global, answer: &Answer, close: bool, size: usize) -> Result<String, AllocError>
    ensures { IfOk result (λ head. string_bytes head ≡ head_of answer.now close size) }
{
    let first = first_lines(alloc, answer.status())?;
    let length = length_line(alloc, size)?;
    let own = own_line(alloc, answer)?;
    let close = close_line(close);
    ended(alloc, &first, &length, &own, close)
}

// Some lines, and an empty one.
fn ended(
    alloc: Global,
    first: &str,
    second: &str,
    third: &str,
    fourth: &str,
) -> Result<String, AllocError>
    ensures { IfOk result (λ lines. string_bytes lines
        ≡ first.now ++ (second.now ++ (third.now ++ (fourth.now ++ codes "\r\n")))) }
{
    format!(in alloc; "{first}{second}{third}{fourth}\r\n")
}

// The status, and what the body is.
#[tactic(auto, unfolding(crate::specs::Answers::first_lines))]
fn first_lines(alloc: Global, status: StatusCode) -> Result<String, AllocError>
    ensures { IfOk result (λ lines. string_bytes lines ≡ first_lines status) }
{
    format!(in alloc; "HTTP/1.1 {status}\r\nContent-Type: application/json\r\n")
}

#[tactic(auto, unfolding(crate::specs::Answers::length_line))]
fn length_line(alloc: Global, size: usize) -> Result<String, AllocError>
    ensures { IfOk result (λ line. string_bytes line ≡ length_line size) }
{
    format!(in alloc; "Content-Length: {size}\r\n")
}

// The line that tells how to log in, or which methods there are.
#[tactic(auto, unfolding(crate::specs::Answers::own_line))]
fn own_line(alloc: Global, answer: &Answer) -> Result<String, AllocError>
    ensures { IfOk result (λ line. string_bytes line ≡ own_line answer.now) }
{
    if let Answer::Refused(Problem::BadMethod(path)) = answer {
        return format!(in alloc; "Allow: {}\r\n", path.allowed());
    }
    if answer.status() == StatusCode::UNAUTHORIZED {
        return String::from_str(alloc, "WWW-Authenticate: Basic realm=\"zulip\"\r\n");
    }
    Ok(String::new(alloc))
}

#[tactic(auto, unfolding(crate::specs::Answers::close_line))]
fn close_line(close: bool) -> &'static str
    ensures { result.now ≡ close_line close }
{
    if close { "Connection: close\r\n" } else { "" }
}
