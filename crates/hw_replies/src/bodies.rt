//! The bodies of responses.

ghost use Rattle.std.specs.Prelude.{◌≡◌, IfOk};
ghost use Rattle.serde_json.specs.View.{view};
ghost use Rattle.serde_json.specs.Written.{compact_text};
ghost use Rattle.hw_replies.specs.Answers.{body_of, success_data};
ghost use Rattle.hw_replies.specs.Problems.{problem_data, problem_text};
ghost use Rattle.ev_wire.specs.Values.{list_data, number_data};

use crate::answer::Answer;
use crate::problem::Problem;
use ev_base::NoMemory;
use ev_wire::{write_events, write_register};
use serde_json::{Value, json};
use std::alloc::{AllocError, Global};

/// The body of an answer.
pub fn body_of(alloc: Global, answer: &Answer) -> Result<Vec<u8>, NoMemory>
    ensures { IfOk result (λ body. body.items ≡ body_of answer.now) }
{
    match answer {
        Answer::Registered {
            queue,
            last_event_id,
            state,
        } => write_register(alloc, queue, *last_event_id, state),
        Answer::Events { queue, items } => write_events(alloc, queue, items.as_slice()),
        Answer::Refused(problem) => problem_body(alloc, problem),
        _ => success_body(alloc, answer),
    }
}

fn problem_body(alloc: Global, problem: &Problem) -> Result<Vec<u8>, NoMemory>
    ensures { IfOk result (λ body. body.items ≡ problem_text problem.now) }
{
    let value = problem_value(alloc, problem)?;
    Ok(value.to_vec(alloc)?)
}

fn problem_value(alloc: Global, problem: &Problem) -> Result<Value, AllocError>
    ensures { IfOk result (λ value. view value ≡ problem_data problem.now) }
{
    let code = problem.code();
    let message = problem.message(alloc)?;
    match problem {
        Problem::BadQueue(text) => {
            json!(in alloc; {"code": code, "msg": message, "queue_id": text.as_str(), "result": "error"})
        }
        Problem::Missing(param) => {
            json!(in alloc; {"code": code, "msg": message, "result": "error", "var_name": param.name()})
        }
        _ => json!(in alloc; {"code": code, "msg": message, "result": "error"}),
    }
}

fn success_body(alloc: Global, answer: &Answer) -> Result<Vec<u8>, NoMemory>
    ensures { IfOk result (λ body. body.items ≡ compact_text (success_data answer.now)) }
{
    let value = success_value(alloc, answer)?;
    Ok(value.to_vec(alloc)?)
}

// The body of a success that isn't one of a queue.
fn success_value(alloc: Global, answer: &Answer) -> Result<Value, AllocError>
    ensures { IfOk result (λ value. view value ≡ success_data answer.now) }
{
    match answer {
        Answer::MessageSent { message } => {
            json!(in alloc; {"id": *message, "msg": "", "result": "success"})
        }
        Answer::UserAdded { user } => {
            json!(in alloc; {"msg": "", "result": "success", "user_id": *user})
        }
        Answer::StreamCreated { stream } => {
            json!(in alloc; {"msg": "", "result": "success", "stream_id": *stream})
        }
        Answer::FlagsChanged { messages } => {
            let messages = numbers_value(alloc, messages.as_slice())?;
            json!(in alloc; {"messages": messages, "msg": "", "result": "success"})
        }
        _ => json!(in alloc; {"msg": "", "result": "success"}),
    }
}

fn numbers_value(alloc: Global, numbers: &[u32]) -> Result<Value, AllocError>
    ensures { IfOk result (λ value. view value ≡ list_data number_data numbers.now) }
{
    let mut values = Vec::with_capacity(alloc, numbers.len())?;
    for number in numbers {
        values.push(Value::from(*number))?;
    }
    Ok(Value::Array(values))
}
