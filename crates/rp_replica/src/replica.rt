//! A client's copy of what it asked for.

ghost use Rattle.std.specs.Prelude.{◌≡◌, OnErr, OnOk};
ghost use Rattle.ev_types.specs.Applying.{applied_where_present};
ghost use Rattle.ev_types.specs.Sections.{sections_of};
ghost use Rattle.rp_replica.specs.Refusing.{Gives};
ghost use Rattle.rp_replica.specs.Replicas as spec;
ghost use Rattle.rp_replica.specs.Replicas.{Takes};

use crate::fault::ReplicaFault;
use crate::news::news_in;
use ev_apply::{apply_events, prepare};
use ev_base::NoMemory;
use ev_bodies::read_register;
use ev_types::{Event, State};
use std::alloc::Global;
use std::marker::Model;

/// A client's copy of the sections that it asked for, as far as it was told.
#[derive(Debug, Drop)]
pub struct Replica {
    state: State,
    last: i64,
}

impl Model for Replica {
    ghost use Rattle.ev_types.specs.Sections.{sections_of};
    ghost use Rattle.rp_replica.specs.Held.{Held};

    ghost Value = { Held };

    ghost view = { λ it. record { sections = sections_of it.state; last = it.last } };
}

impl Replica {
    /// Starts with a register body.
    #[tactic(auto, unfolding(crate::specs::Replicas::started))]
    pub fn start(alloc: Global, body: &[u8]) -> Result<Replica, ReplicaFault>
        ensures { Gives (λ replica. replica) result (spec.started body.now) }
    {
        let body = read_register(alloc, body)?;
        Ok(Replica {
            state: body.state,
            last: body.last_event_id,
        })
    }

    /// Takes the body of an answer to a poll, and answers how many events it applied. An event of a type
    /// that isn't known isn't applied; its id counts. After a refusal the replica is as before.
    #[tactic(auto, unfolding(crate::specs::Replicas::taken))]
    pub fn take(&mut self, alloc: Global, body: &[u8]) -> Result<u64, ReplicaFault>
        ensures { Takes result self.old self.new body.now }
    {
        let news = news_in(alloc, self.last, body)?;
        let count = news.events.len() as u64;
        apply_all(&mut self.state, news.events)?;
        self.last = news.last;
        Ok(count)
    }

    pub fn state(&self) -> &State
        ensures { sections_of result.now ≡ self.now.sections }
    {
        &self.state
    }
}

fn apply_all(state: &mut State, events: Vec<Event>) -> Result<(), NoMemory>
    ensures applied { OnOk result
        (sections_of state.new ≡ applied_where_present events.items (sections_of state.old)) }
    ensures refused { OnErr result (sections_of state.new ≡ sections_of state.old) }
{
    let ready = prepare(state, events)?;
    apply_events(state, ready);
    Ok(())
}
