//! Small lists, places, and copies.

use crate::same::same;
use ev_base::{
    ExactClone, Expired, Flag, Listed, MessageId, Place, Privacy, QueueId, Role, StreamId, Text,
    TextFault, TextKind, UserId,
};
use std::alloc::{AllocError, Global};
use std::cmp::Ordering;
use std::hash::{DefaultHasher, Hash, Hasher};
use std::test::Fail;

// A copy, by the bound alone.
fn copied<T: ExactClone>(value: &T) -> Result<T, AllocError> {
    value.clone()
}

#[test]
fn copies_of_numbers_are_equal(rt: HostRuntime) -> Result<(), Fail> {
    same(&rt, copied(&(true, 7u32, 8u64))?, (true, 7, 8));
    same(&rt, copied(&(Some(-9i64), ()))?, (Some(-9), ()));
    Ok(())
}

#[test]
fn copies_of_ids_are_equal(rt: HostRuntime) -> Result<(), Fail> {
    let ids = (StreamId(1), MessageId(2));
    same(&rt, copied(&ids)?, ids);
    let kinds = (Role::Guest, Privacy::Shared, Flag::Read);
    same(&rt, copied(&kinds)?, kinds);
    let queue = QueueId {
        user: UserId(1),
        number: 2,
        salt: 3,
    };
    let expired = Expired {
        queue,
        moment: 4,
        last_of_user: true,
    };
    same(&rt, copied(&(queue, expired))?, (queue, expired));
    Ok(())
}

fn listed(alloc: Global, numbers: &[u32]) -> Result<Listed<u32>, Fail> {
    Ok(Listed::from_vec(numbers.to_vec(alloc)?))
}

#[test]
fn a_list_gives_its_vec_back(rt: HostRuntime) -> Result<(), Fail> {
    let list = listed(rt.alloc(), &[3, 1])?;
    same(&rt, list.len(), 2);
    same(&rt, list.is_empty(), false);
    same(&rt, list.as_slice(), [3, 1].as_slice());
    same(&rt, list.into_vec().as_slice(), [3, 1].as_slice());
    Ok(())
}

#[test]
fn a_list_is_printed_as_its_elements(rt: HostRuntime) -> Result<(), Fail> {
    let list = listed(rt.alloc(), &[3, 1])?;
    same(&rt, format!(in rt.alloc(); "{list:?}")?.as_str(), "[3, 1]");
    Ok(())
}

#[test]
fn lists_are_compared_by_their_elements(rt: HostRuntime) -> Result<(), Fail> {
    let short = listed(rt.alloc(), &[1, 2])?;
    let long = listed(rt.alloc(), &[1, 2, 0])?;
    let compared = (short == long, short < long, short.cmp(&long));
    same(&rt, compared, (false, true, Ordering::Less));
    Ok(())
}

fn hash_of<T: Hash>(value: &T) -> u64 {
    let mut state = DefaultHasher::new();
    value.hash(&mut state);
    state.finish()
}

#[test]
fn equal_lists_have_one_hash(rt: HostRuntime) -> Result<(), Fail> {
    let list = listed(rt.alloc(), &[1, 2])?;
    let copy = copied(&list)?;
    same(&rt, list == copy, true);
    same(&rt, hash_of(&list), hash_of(&copy));
    Ok(())
}

fn lunch(alloc: Global) -> Result<Place, TextFault> {
    Ok(Place::Stream {
        stream: StreamId(2),
        topic: Text::read(alloc, TextKind::Topic, "lunch")?,
    })
}

fn direct(alloc: Global) -> Result<Place, AllocError> {
    Ok(Place::Direct {
        recipients: Listed::from_vec([UserId(1), UserId(2)].to_vec(alloc)?),
    })
}

fn equals_its_copy(place: &Place) -> Result<bool, AllocError> {
    Ok(*place == copied(place)?)
}

#[test]
fn places_are_copied(rt: HostRuntime) -> Result<(), Fail> {
    same(&rt, equals_its_copy(&lunch(rt.alloc())?)?, true);
    same(&rt, equals_its_copy(&direct(rt.alloc())?)?, true);
    Ok(())
}

// Whether a stream's place and recipients are equal, and whether the stream's is the lesser.
fn compared(alloc: Global) -> Result<(bool, bool), Fail> {
    let stream = lunch(alloc)?;
    let direct = direct(alloc)?;
    Ok((stream == direct, stream < direct))
}

#[test]
fn streams_come_before_recipients(rt: HostRuntime) -> Result<(), Fail> {
    same(&rt, compared(rt.alloc())?, (false, true));
    Ok(())
}
