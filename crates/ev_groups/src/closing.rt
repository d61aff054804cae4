//! Which item takes a change of flags in, and what closes groups.

ghost use Rattle.std.specs.Prelude.{◌≡◌, ℕ, not};
ghost use Rattle.std.specs.List.{list_any};
ghost use Rattle.ev_groups.specs.Items.{Numbered};
ghost use Rattle.ev_groups.specs.Groups as of_group;
ghost use Rattle.ev_groups.specs.Places as of_place;

use ev_base::{Flag, MessageId};
use ev_types::{Event, FlagChange};

/// The place of the item that takes the change in. It is sought from the back, no further than the
/// latest item that closes every group of the flag.
pub fn taking_place(items: &[(u64, Event)], change: &FlagChange) -> Option<usize>
    ensures { result ≡ of_place.taking_place change.now items.now }
{
    let mut later = items.len();
    while later > 0 {
        let at = later - 1;
        let event = &items[at].1;
        if closes_flag(change.flag, event) {
            return if takes_in(event, &items[later..], change) {
                Some(at)
            } else {
                None
            };
        }
        later = at;
    }
    None
}

/// Whether one of the items closes every group that is alike to the change.
pub fn closes_all(items: &[(u64, Event)], change: &FlagChange) -> bool
    ensures { result ≡ of_place.closes_all items.now change.now }
{
    items.iter().any(|item| closes_flag(change.flag, &item.1))
}

// Whether an item takes the change in, with these later items.
fn takes_in(event: &Event, later: &[(u64, Event)], change: &FlagChange) -> bool
    ensures { (id : ℕ) → result ≡ of_group.takes_in (id, event.now) later.now change.now }
{
    match event {
        Event::Flags(group) => are_alike(group, change) && stays_open(group, later),
        _ => false,
    }
}

// Whether none of the later items closes the group.
fn stays_open(group: &FlagChange, later: &[(u64, Event)]) -> bool
    ensures { result ≡ not (list_any (λ (other : Numbered). of_group.closes group.now other.1) later.now) }
{
    let end = end_of(group.messages.as_slice());
    !one_closes_below(group.flag, end, later)
}

fn one_closes_below(flag: Flag, end: u64, items: &[(u64, Event)]) -> bool
    ensures { result ≡ list_any (λ (item : Numbered). of_place.closes_below flag end item.1) items.now }
{
    items.iter().any(|item| closes_below(flag, end, &item.1))
}

fn are_alike(group: &FlagChange, change: &FlagChange) -> bool
    ensures { result ≡ of_group.are_alike group.now change.now }
{
    is_grouped(group.flag, group.add) && group.flag == change.flag && group.add == change.add
}

fn is_grouped(flag: Flag, add: bool) -> bool
    ensures { result ≡ of_group.is_grouped flag add }
{
    match flag {
        Flag::Read => add,
        Flag::Starred | Flag::Collapsed => true,
    }
}

fn closes_flag(flag: Flag, event: &Event) -> bool
    ensures { result ≡ of_place.closes_flag flag event.now }
{
    match event {
        Event::Flags(change) => flag == change.flag,
        Event::MessageGone(_) | Event::MessagesRestored(_) => true,
        _ => false,
    }
}

fn closes_below(flag: Flag, end: u64, event: &Event) -> bool
    ensures { result ≡ of_place.closes_below flag end event.now }
{
    match event {
        Event::MessageNew(full) => u64::from(full.message.0) < end,
        _ => closes_flag(flag, event),
    }
}

// The number above all of these messages, or 0 for none.
fn end_of(ids: &[MessageId]) -> u64
    ensures { result ≡ of_place.end_of ids.now }
{
    let mut end = 0;
    for id in ids {
        if u64::from(id.0) >= end {
            end = u64::from(id.0) + 1;
        }
    }
    end
}
