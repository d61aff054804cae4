//! The subscribers of the streams that a user sees.

ghost use Rattle.std.specs.Prelude.{◌≡◌, IfOk};
ghost use Rattle.std.specs.List.{filter_map};
ghost use Rattle.zw_views.specs.RowViews.{subscriber_in};
ghost use Rattle.zw_views.specs.Views as view;

use ev_base::{Keyed, NoMemory, StreamId, UserId};
use std::alloc::Global;
use zr_realm::Realm;
use zr_types::Subscription;

/// One pass over the subscriptions, which rise by user and then by stream, and a sort.
pub fn subscribers(
    alloc: Global,
    realm: &Realm,
    user: UserId,
) -> Result<Keyed<(StreamId, UserId), ()>, NoMemory>
    ensures { IfOk result (λ shown. shown.rows ≡ view.subscribers realm.now.state.tables user) }
{
    let rows = realm.streams().subscriptions_rows();
    let mut found = subscribers_by_user(alloc, realm, user, rows)?;
    found.sort_unstable();
    Ok(Keyed::from_vec(found))
}

fn subscribers_by_user(
    alloc: Global,
    realm: &Realm,
    user: UserId,
    rows: &[((UserId, StreamId), Subscription)],
) -> Result<Vec<((StreamId, UserId), ())>, NoMemory>
    ensures { IfOk result (λ found. found.items
        ≡ filter_map (subscriber_in realm.now.state.tables user) rows.now) }
{
    let mut found = Vec::new(alloc);
    for row in rows {
        if let Some(subscriber) = subscriber_in(realm, user, row) {
            found.push(subscriber)?;
        }
    }
    Ok(found)
}

fn subscriber_in(
    realm: &Realm,
    user: UserId,
    row: &((UserId, StreamId), Subscription),
) -> Option<((StreamId, UserId), ())>
    ensures { result ≡ subscriber_in realm.now.state.tables user row.now }
{
    let (peer, stream) = row.0;
    if realm.sees_stream(user, stream) && realm.is_active_user(peer) {
        Some(((stream, peer), ()))
    } else {
        None
    }
}
