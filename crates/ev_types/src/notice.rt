//! Notices: what one commit tells clients.

ghost use Rattle.std.specs.Prelude.{◌≡◌, IfOk, IsTrue, ◌↔◌};
ghost use Rattle.std.proofs.Common.{rules};
ghost use Rattle.ev_types.specs.Audiences.{events_for, has_user};

use crate::event::Event;
use ev_base::{ExactClone, Listed, NoMemory, UserId};
use std::alloc::Global;

/// Who hears an event. The users rise.
#[derive(Clone, Debug, Drop, PartialEq, Eq)]
pub enum Audience {
    /// Every user number, also one that no user has.
    Everyone,
    Only(Listed<UserId>),
}

/// An event with those who hear it.
#[derive(Clone, Debug, Drop, PartialEq, Eq)]
pub struct Part {
    pub audience: Audience,
    pub event: Event,
}

/// What one commit tells clients: its number, the user whom it deactivated, and the events.
#[derive(Clone, Debug, Drop)]
pub struct Notice {
    pub number: u64,
    pub ends: Option<UserId>,
    pub parts: Listed<Part>,
}

impl ExactClone for Audience {
    ghost exact = { Prim.search rules };
}

impl ExactClone for Part {
    ghost exact = { Prim.search rules };
}

impl ExactClone for Notice {
    ghost exact = { Prim.search rules };
}

impl Audience {
    /// Whether the user hears an event with this audience.
    pub fn has(&self, user: UserId) -> bool
        ensures { result ≡ has_user user self.now }
    {
        match self {
            Audience::Everyone => true,
            Audience::Only(users) => users.as_slice().contains(&user),
        }
    }
}

impl Notice {
    /// The events of the parts whose audience has the user, in their order.
    pub fn events_for(&self, alloc: Global, user: UserId) -> Result<Vec<Event>, NoMemory>
        ensures { IfOk result (λ events. events.items ≡ events_for user self.now) }
    {
        let mut events = Vec::new(alloc);
        for part in self.parts.as_slice() {
            if part.audience.has(user) {
                events.push(copied(&part.event)?)?;
            }
        }
        Ok(events)
    }
}

fn copied<T: ExactClone>(value: &T) -> Result<T, NoMemory>
    ensures { IfOk result (λ copy. copy ≡ value.now) }
{
    Ok(value.clone()?)
}
