//! What the body of an answer to a poll brings.

ghost use Rattle.std.specs.Prelude.{◌≡◌, IfOk};
ghost use Rattle.rp_replica.specs.News as spec;
ghost use Rattle.rp_replica.specs.News.{known, news_seen, rising};
ghost use Rattle.rp_replica.specs.Refusing.{Gives};

use crate::fault::ReplicaFault;
use ev_base::NoMemory;
use ev_bodies::{EventsBody, WireItem, read_events};
use ev_types::Event;
use std::alloc::Global;

/// The events whose types are known, and the last id of all.
#[derive(Drop)]
pub struct News {
    pub events: Vec<Event>,
    pub last: i64,
}

// The last id where all rise above the one before, beginning above `last`; else the first that doesn't.
fn rising(last: i64, items: &[WireItem]) -> Result<i64, i64>
    ensures { result ≡ rising last items.now }
{
    let mut latest = last;
    for item in items {
        if item.id <= latest {
            return Err(item.id);
        }
        latest = item.id;
    }
    Ok(latest)
}

fn known(alloc: Global, items: Vec<WireItem>) -> Result<Vec<Event>, NoMemory>
    ensures { IfOk result (λ events. events.items ≡ known items.items) }
{
    Ok(
        items
            .into_iter()
            .filter_map(|item| item.event)
            .collect(alloc)?,
    )
}

// The items of a body, with any ids.
#[tactic(auto, unfolding(crate::specs::News::items_in))]
fn items_in(alloc: Global, body: &[u8]) -> Result<Vec<WireItem>, ReplicaFault>
    ensures { Gives (λ items. items.items) result (spec.items_in body.now) }
{
    match read_events(alloc, body)? {
        EventsBody::Items(items) => Ok(items),
        EventsBody::QueueGone => Err(ReplicaFault::QueueGone),
    }
}

/// What a body brings whose ids are above `last`.
#[tactic(auto, unfolding(crate::specs::News::news_in))]
pub fn news_in(alloc: Global, last: i64, body: &[u8]) -> Result<News, ReplicaFault>
    ensures { Gives news_seen result (spec.news_in last body.now) }
{
    let items = items_in(alloc, body)?;
    let last = match rising(last, &items) {
        Ok(last) => last,
        Err(id) => return Err(ReplicaFault::NotRising { id }),
    };
    let events = known(alloc, items)?;
    Ok(News { events, last })
}
