//! The writers of bodies.

ghost use Rattle.std.specs.Prelude.{◌≡◌, IfOk};
ghost use Rattle.serde_json.specs.View.{view};
ghost use Rattle.ev_types.specs.Sections.{sections_of};
ghost use Rattle.ev_wire.specs.Bodies.{events_data, events_text, of_queue, register_data, register_text, state_data, state_text, success};
ghost use Rattle.ev_wire.specs.Values.{put_in};

use crate::members::Members;
use crate::sections::section_members;
use crate::values::{list_value, number_value};
use ev_base::{NoMemory, QueueId};
use ev_types::{Item, State};
use serde_json::Value;
use std::alloc::{AllocError, Global};

/// The level that a register body tells of its protocol.
const FEATURE_LEVEL: u64 = 1;

/// The text of a state: the sections that are present.
pub fn write_state(alloc: Global, state: &State) -> Result<Vec<u8>, NoMemory>
    ensures { IfOk result (λ text. text.items ≡ state_text (sections_of state.now)) }
{
    let body = state_value(alloc, state)?;
    Ok(body.to_vec(alloc)?)
}

/// The text of a register body: the sections, the queue, and the last id that was applied, -1 where
/// none was.
pub fn write_register(
    alloc: Global,
    queue: &QueueId,
    last_event_id: i64,
    state: &State,
) -> Result<Vec<u8>, NoMemory>
    ensures { IfOk result
        (λ text. text.items ≡ register_text queue.now last_event_id (sections_of state.now)) }
{
    let body = register_value(alloc, queue, last_event_id, state)?;
    Ok(body.to_vec(alloc)?)
}

/// The text of an events body: the queue and its items in order.
pub fn write_events(alloc: Global, queue: &QueueId, items: &[Item]) -> Result<Vec<u8>, NoMemory>
    ensures { IfOk result (λ text. text.items ≡ events_text queue.now items.now) }
{
    let body = events_value(alloc, queue, items)?;
    Ok(body.to_vec(alloc)?)
}

fn state_value(alloc: Global, state: &State) -> Result<Value, AllocError>
    ensures { IfOk result (λ value. view value ≡ state_data (sections_of state.now)) }
{
    Ok(section_members(alloc, state)?.into_value())
}

fn register_value(
    alloc: Global,
    queue: &QueueId,
    last_event_id: i64,
    state: &State,
) -> Result<Value, AllocError>
    ensures { IfOk result
        (λ value. view value ≡ register_data queue.now last_event_id (sections_of state.now)) }
{
    let sections = section_members(alloc, state)?;
    Ok(
        of_queue(alloc, success(alloc, sections)?, queue)?
            .with(alloc, "last_event_id", Value::from(last_event_id))?
            .with(alloc, "zulip_feature_level", number_value(FEATURE_LEVEL))?
            .into_value(),
    )
}

fn events_value(alloc: Global, queue: &QueueId, items: &[Item]) -> Result<Value, AllocError>
    ensures { IfOk result (λ value. view value ≡ events_data queue.now items.now) }
{
    let members = success(alloc, Members::new(alloc))?;
    Ok(
        of_queue(alloc, members, queue)?
            .with(alloc, "events", list_value(alloc, items)?)?
            .into_value(),
    )
}

// A success, beside what it tells.
fn success(alloc: Global, members: Members) -> Result<Members, AllocError>
    ensures { IfOk result (λ all. put_in all ≡ success (put_in members)) }
{
    members
        .with_text(alloc, "msg", "")?
        .with_text(alloc, "result", "success")
}

fn of_queue(alloc: Global, members: Members, queue: &QueueId) -> Result<Members, AllocError>
    ensures { IfOk result (λ all. put_in all ≡ of_queue queue.now (put_in members)) }
{
    let text = queue.to_string(alloc)?;
    members.with_text(alloc, "queue_id", text.as_str())
}
