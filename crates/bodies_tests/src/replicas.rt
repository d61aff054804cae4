//! What a client makes of the bodies that it is answered.

use ev_bodies::{BodyFault, BodyKey};
use ev_wire::write_state;
use rp_replica::{Replica, ReplicaFault};
use std::alloc::Global;
use std::process::Abort;
use std::str;

const REGISTERED: &str =
    r#"{"last_event_id":-1,"msg":"","queue_id":"00000001-0000-0000-0000-000000000000","realm_users":[{"email":"ann@x.org","full_name":"Ann","is_active":true,"role":100,"user_id":1}],"result":"success","zulip_feature_level":1}"#;

const RENAMED: &str =
    r#"{"events":[{"id":0,"op":"update","person":{"full_name":"Anna","user_id":1},"type":"realm_user"}],"msg":"","queue_id":"00000001-0000-0000-0000-000000000000","result":"success"}"#;

const GONE: &str =
    r#"{"code":"BAD_EVENT_QUEUE_ID","msg":"Bad event queue id: 1","queue_id":"1","result":"error"}"#;

const ANN: &str =
    r#"{"realm_users":[{"email":"ann@x.org","full_name":"Ann","is_active":true,"role":100,"user_id":1}]}"#;

const ANNA: &str =
    r#"{"realm_users":[{"email":"ann@x.org","full_name":"Anna","is_active":true,"role":100,"user_id":1}]}"#;

// The replica after these bodies, or the place of the body that is refused, with its fault.
fn replica_of(alloc: Global, first: &str, later: &[&str]) -> Result<Replica, (u64, ReplicaFault)> {
    let mut replica = match Replica::start(alloc, first.as_bytes()) {
        Ok(replica) => replica,
        Err(fault) => return Err((0, fault)),
    };
    let mut place = 0u64;
    for body in later {
        place = place.saturating_add(1);
        if let Err(fault) = replica.take(alloc, body.as_bytes()) {
            return Err((place, fault));
        }
    }
    Ok(replica)
}

fn check_state(rt: &impl Abort, alloc: Global, first: &str, later: &[&str], wanted: &str) {
    match replica_of(alloc, first, later) {
        Ok(replica) => {
            let text = write_state(alloc, replica.state()).expect(rt, "memory");
            assert_eq!(rt; str::from_utf8(&text).unwrap_or("no text"), wanted);
        }
        Err(refused) => assert_eq!(rt; Some(refused), None),
    }
}

fn check_refusal(
    rt: &impl Abort,
    alloc: Global,
    first: &str,
    later: &[&str],
    wanted: (u64, ReplicaFault),
) {
    let found = replica_of(alloc, first, later).err();
    assert_eq!(rt; found, Some(wanted));
}

#[test]
fn events_are_applied_once_each(rt: HostRuntime) {
    let alloc = rt.alloc();
    check_state(&rt, alloc, REGISTERED, &[], ANN);
    check_state(&rt, alloc, REGISTERED, &[RENAMED], ANNA);
    let again = (2, ReplicaFault::NotRising { id: 0 });
    check_refusal(&rt, alloc, REGISTERED, &[RENAMED, RENAMED], again);
    check_refusal(
        &rt,
        alloc,
        REGISTERED,
        &[RENAMED, GONE],
        (2, ReplicaFault::QueueGone),
    );
    let no_register = ReplicaFault::BadBody(BodyFault::Key(BodyKey("last_event_id")));
    check_refusal(&rt, alloc, RENAMED, &[], (0, no_register));
}

#[test]
fn keys_may_stand_in_any_order(rt: HostRuntime) {
    let register = r#" {"zulip_feature_level": 1, "colour": null, "result": "success",
        "realm_users": [{"user_id": 1, "role": 100, "is_active": true, "full_name": "Ann", "email": "ann@x.org", "bot": false}],
        "queue_id": "00000001000000000000000000000000", "msg": "", "last_event_id": -1} "#;
    check_state(&rt, rt.alloc(), register, &[], ANN);
}

#[test]
fn an_event_of_an_unknown_type_changes_only_the_last_id(rt: HostRuntime) {
    let alloc = rt.alloc();
    let typing =
        r#"{"events":[{"id":0,"op":"start","sender":1,"type":"typing"}],"msg":"","queue_id":"00000001-0000-0000-0000-000000000000","result":"success"}"#;
    check_state(&rt, alloc, REGISTERED, &[typing], ANN);
    let again = (2, ReplicaFault::NotRising { id: 0 });
    check_refusal(&rt, alloc, REGISTERED, &[typing, RENAMED], again);
}

#[test]
fn messages_are_read_with_their_places_and_flags(rt: HostRuntime) {
    let register =
        r#"{"last_event_id":3,"messages":[],"msg":"","queue_id":"00000002-0000-0000-0000-000000000000","reactions":[],"result":"success","starred_messages":[],"unread_msgs":[],"zulip_feature_level":1}"#;
    let answer =
        r#"{"events":[{"id":4,"messages":[{"content":"one","flags":["starred"],"id":1,"reactions":[{"emoji_name":"tada","user_id":2}],"sender_id":1,"stream_id":2,"timestamp":5,"topic":"t","type":"stream"},{"content":"two","flags":["collapsed","read"],"id":2,"reactions":[],"recipients":[1,2],"sender_id":1,"timestamp":6,"type":"private"}],"type":"messages_restored"},{"content":"One","id":5,"message_ids":[1],"type":"update_message"},{"flag":"read","id":7,"message_details":[{"id":2,"recipients":[1,2],"type":"private"}],"messages":[2],"op":"remove","type":"update_message_flags"}],"msg":"","queue_id":"00000002-0000-0000-0000-000000000000","result":"success"}"#;
    let state =
        r#"{"messages":[{"content":"One","flags":["starred"],"id":1,"sender_id":1,"stream_id":2,"timestamp":5,"topic":"t","type":"stream"},{"content":"two","flags":["collapsed"],"id":2,"recipients":[1,2],"sender_id":1,"timestamp":6,"type":"private"}],"reactions":[{"emoji_name":"tada","message_id":1,"user_id":2}],"starred_messages":[1],"unread_msgs":[{"id":1,"stream_id":2,"topic":"t","type":"stream"},{"id":2,"recipients":[1,2],"type":"private"}]}"#;
    check_state(&rt, rt.alloc(), register, &[answer], state);
}
