//! Problems.

ghost use Rattle.std.specs.Prelude.{◌≡◌, IfOk, string_bytes};
ghost use Rattle.hw_replies.specs.Problems.{code_of, message_of, refusal_code, refusal_message, status_of};

use ev_base::PlainText;
use http::StatusCode;
use hw_routes::Path;
use hw_values::Param;
use std::alloc::{AllocError, Global};
use zr_types::Refusal;

/// Why a request isn't answered what it asks.
#[derive(Debug, Drop)]
pub enum Problem {
    NoRoute,
    /// The path has no route for the method.
    BadMethod(Path),
    Missing(Param),
    BadValue(Param),
    NotLoggedIn,
    /// No active user has the email and the key.
    InvalidKey,
    /// The queue of this text isn't there, or isn't the user's.
    BadQueue(PlainText),
    Pruned { newest: i64 },
    NotSent { greatest: i64 },
    TooManyQueues,
    OpensSpent,
    Refused(Refusal),
    /// The bytes spell no request.
    BadRequest,
    NoMemory,
}

impl Problem {
    pub fn status(&self) -> StatusCode
        ensures { result ≡ status_of self.now }
    {
        match self {
            Problem::NoRoute => StatusCode::NOT_FOUND,
            Problem::BadMethod(_) => StatusCode::METHOD_NOT_ALLOWED,
            Problem::NotLoggedIn | Problem::InvalidKey | Problem::Refused(Refusal::ActorUnknown) =>
                StatusCode::UNAUTHORIZED,
            Problem::NoMemory => StatusCode::INTERNAL_SERVER_ERROR,
            Problem::Missing(_)
            | Problem::BadValue(_)
            | Problem::BadQueue(_)
            | Problem::Pruned { .. }
            | Problem::NotSent { .. }
            | Problem::TooManyQueues
            | Problem::OpensSpent
            | Problem::Refused(_)
            | Problem::BadRequest => StatusCode::BAD_REQUEST,
        }
    }

    /// The name of the problem's kind, for programs.
    pub fn code(&self) -> &'static str
        ensures { result.now ≡ code_of self.now }
    {
        match self {
            Problem::NoRoute => "NOT_FOUND",
            Problem::BadMethod(_) => "METHOD_NOT_ALLOWED",
            Problem::Missing(_) => "REQUEST_VARIABLE_MISSING",
            Problem::BadValue(_)
            | Problem::Pruned { .. }
            | Problem::NotSent { .. }
            | Problem::BadRequest => "BAD_REQUEST",
            Problem::NotLoggedIn => "UNAUTHORIZED",
            Problem::InvalidKey => "INVALID_API_KEY",
            Problem::BadQueue(_) => "BAD_EVENT_QUEUE_ID",
            Problem::TooManyQueues => "TOO_MANY_QUEUES",
            Problem::OpensSpent => "OPENS_SPENT",
            Problem::Refused(why) => refusal_code(*why),
            Problem::NoMemory => "NO_MEMORY",
        }
    }

    /// What is wrong, for people.
    pub fn message(&self, alloc: Global) -> Result<String, AllocError>
        ensures { IfOk result (λ text. string_bytes text ≡ message_of self.now) }
    {
        match self {
            Problem::NoRoute => String::from_str(alloc, "No such route"),
            Problem::BadMethod(_) => String::from_str(alloc, "Method not allowed"),
            Problem::Missing(param) => format!(in alloc; "Missing '{}' argument", param.name()),
            Problem::BadValue(param) => format!(in alloc; "Bad value for '{}'", param.name()),
            Problem::NotLoggedIn => String::from_str(alloc, "Not logged in"),
            Problem::InvalidKey => String::from_str(alloc, "Invalid API key"),
            Problem::BadQueue(text) => format!(in alloc; "Bad event queue id: {}", text.as_str()),
            Problem::Pruned { newest } => format!(in alloc; "Events up to {newest} are pruned"),
            Problem::NotSent { greatest } => format!(in alloc;
                "No event above {greatest} was sent"
            ),
            Problem::TooManyQueues => String::from_str(alloc, "Too many queues"),
            Problem::OpensSpent => String::from_str(alloc, "No queue number is left"),
            Problem::Refused(why) => String::from_str(alloc, refusal_message(*why)),
            Problem::BadRequest => String::from_str(alloc, "Bad request"),
            Problem::NoMemory => String::from_str(alloc, "Out of memory"),
        }
    }
}

fn refusal_code(why: Refusal) -> &'static str
    ensures { result.now ≡ refusal_code why }
{
    match why {
        Refusal::ActorUnknown => "UNAUTHORIZED",
        Refusal::NotPermitted => "NOT_PERMITTED",
        Refusal::NoSuchUser => "NO_SUCH_USER",
        Refusal::NoSuchStream => "NO_SUCH_STREAM",
        Refusal::NoSuchMessage => "NO_SUCH_MESSAGE",
        Refusal::NameTaken => "NAME_TAKEN",
        Refusal::AlreadySo => "ALREADY_SO",
        Refusal::NotSo => "NOT_SO",
        Refusal::BadText => "BAD_TEXT",
        Refusal::LimitReached => "LIMIT_REACHED",
        Refusal::LogFull => "LOG_FULL",
    }
}

fn refusal_message(why: Refusal) -> &'static str
    ensures { result.now ≡ refusal_message why }
{
    match why {
        Refusal::ActorUnknown => "Not logged in",
        Refusal::NotPermitted => "Not permitted",
        Refusal::NoSuchUser => "No such user",
        Refusal::NoSuchStream => "No such stream",
        Refusal::NoSuchMessage => "No such message",
        Refusal::NameTaken => "Name taken",
        Refusal::AlreadySo => "Already so",
        Refusal::NotSo => "Not so",
        Refusal::BadText => "Bad text",
        Refusal::LimitReached => "Limit reached",
        Refusal::LogFull => "Log full",
    }
}
