//! What users fetch of the sample realm.

use crate::sample_realm::{ANN, of_sample};
use ev_base::UserId;
use ev_types::State;
use std::alloc::Global;
use std::test::Fail;
use zr_realm::Realm;
use zr_view::{FetchFault, fetch_all};

// `fetch_all`, and nothing is claimed of what it answers. Nothing is to be proved here, and a tactic
// takes long to see it.
#[tactic(none)]
fn fetched_all(alloc: Global, realm: &Realm, user: UserId) -> Result<State, FetchFault> {
    fetch_all(alloc, realm, user)
}

// How many sections a user fetches, or why none.
fn count_fetched(alloc: Global, realm: &Realm, user: UserId) -> Result<usize, FetchFault> {
    let state = fetched_all(alloc, realm, user)?;
    let present = [
        state.realm.is_some(),
        state.realm_users.is_some(),
        state.streams.is_some(),
        state.subscriptions.is_some(),
        state.subscribers.is_some(),
        state.messages.is_some(),
        state.reactions.is_some(),
        state.starred_messages.is_some(),
        state.unread_messages.is_some(),
    ];
    Ok(present.iter().filter(|&is_there| *is_there).count())
}

fn count_for(alloc: Global, user: UserId) -> Result<Result<usize, FetchFault>, Fail> {
    of_sample(alloc, 0, |realm| Ok(count_fetched(alloc, realm, user)))
}

#[test]
fn all_sections_are_fetched_at_once(rt: HostRuntime) -> Result<(), Fail> {
    assert_eq!(rt; count_for(rt.alloc(), ANN)?, Ok(9));
    assert_eq!(rt; count_for(rt.alloc(), UserId(2))?, Err(FetchFault::Unknown));
    Ok(())
}
