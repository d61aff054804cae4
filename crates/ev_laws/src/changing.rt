//! The comparison of two views.

ghost use Rattle.std.specs.Prelude.{◌≡◌, ◌++◌, IfOk};
ghost use Rattle.ev_types.specs.Sections.{IsWhole, Sections};
ghost use Rattle.ev_types.specs.Changes.{changes_between, message_events, peer_events, realm_changes, stream_events, subscription_events, user_events};
ghost use Rattle.ev_laws.specs.Compared.{sections_in};

mod compared;
mod differences;
mod flags;
mod kept;
mod messages;
mod moves;
mod peers;
mod people;
mod ranges;
mod reactions;
mod streams;

use compared::ComparedView;
pub use differences::push_one_of;
use differences::{gained_keys, push_kept};
use ev_base::NoMemory;
use ev_types::{Event, State};
use flags::push_flags;
use kept::kept_messages;
use messages::push_arrivals;
pub use messages::{push_all_new, with_reactions};
use moves::push_moves;
use peers::push_peers;
use people::{push_realm, push_users};
use reactions::push_reactions;
use std::alloc::Global;
use streams::{push_streams, push_subscriptions};

/// The events that tell what differs between two views, in the order in which a commit's events are
/// told.
pub fn changes(alloc: Global, before: &State, after: &State) -> Result<Vec<Event>, NoMemory>
    requires whole { (old : Sections) × IsWhole before.now old }
    requires whole_after { (new : Sections) × IsWhole after.now new }
    ensures { (old new : Sections) → IsWhole before.now old → IsWhole after.now new
        → IfOk result (λ events. events.items ≡ changes_between old new) }
{
    let before = ComparedView::new(before);
    let after = ComparedView::new(after);
    let mut events = Vec::new(alloc);
    push_people_and_streams(&before, &after, &mut events)?;
    push_messages(&before, &after, &mut events)?;
    Ok(events)
}

// Adds what changed in the realm, the users, the streams, the subscriptions and the subscribers.
fn push_people_and_streams(
    before: &ComparedView,
    after: &ComparedView,
    events: &mut Vec<Event>,
) -> Result<(), NoMemory>
    ensures { IfOk result (λ _. events.new.items ≡ events.old.items
        ++ (realm_changes before.now.realm.now after.now.realm.now
        ++ user_events before.now.realm_users.now.rows after.now.realm_users.now.rows
        ++ stream_events before.now.streams.now.rows after.now.streams.now.rows
        ++ subscription_events before.now.subscriptions.now.rows after.now.subscriptions.now.rows
        ++ peer_events (sections_in before.now) (sections_in after.now))) }
{
    push_realm(before.realm, after.realm, events)?;
    push_users(before.realm_users, after.realm_users, events)?;
    push_streams(before.streams, after.streams, events)?;
    push_subscriptions(before.subscriptions, after.subscriptions, events)?;
    push_peers(after.streams, before.subscribers, after.subscribers, events)
}

// Adds what changed in the messages and their reactions.
fn push_messages(
    before: &ComparedView,
    after: &ComparedView,
    events: &mut Vec<Event>,
) -> Result<(), NoMemory>
    ensures { IfOk result (λ _. events.new.items
        ≡ events.old.items ++ message_events (sections_in before.now) (sections_in after.now)) }
{
    let alloc = *events.allocator();
    push_arrivals(before.messages, after.messages, after.reactions, events)?;
    let kept = kept_messages(alloc, before.messages, after.messages)?;
    push_moves(&kept, events)?;
    push_kept(before.messages, after.messages, events)?;
    push_flags(&kept, events)?;
    push_reactions(
        before.messages,
        after.messages,
        before.reactions,
        after.reactions,
        events,
    )?;
    let gone = gained_keys(alloc, after.messages, before.messages)?;
    push_one_of(events, gone, |messages| Event::MessageGone(messages))
}
