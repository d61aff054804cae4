//! Why texts are no bodies: the first reason counts.

use ev_bodies::{BodyFault, BodyKey, read_events, read_register};
use ev_types::Section;
use std::process::Abort;

// In one place, so that each test is proved quickly.
fn same(rt: &impl Abort, text: &str, found: Option<BodyFault>, wanted: BodyFault) {
    assert_eq!(rt; (text, found), (text, Some(wanted)));
}

#[test]
fn a_text_that_is_no_register_body_is_refused(rt: HostRuntime) {
    let queue = BodyFault::Key(BodyKey("queue_id"));
    for (text, wanted) in [
        ("", BodyFault::Json),
        ("[]", BodyFault::Json),
        ("{} {}", BodyFault::Json),
        ("{}", BodyFault::Key(BodyKey("last_event_id"))),
        (
            r#"{"last_event_id":-1,"messages":3}"#,
            BodyFault::Key(BodyKey("messages")),
        ),
        (r#"{"last_event_id":-1}"#, BodyFault::Key(BodyKey("msg"))),
        (r#"{"last_event_id":-1,"msg":"","queue_id":"1.0"}"#, queue),
        (
            r#"{"last_event_id":-1,"msg":"","queue_id":"00000001-0000-0000-0000-000000000000","realm":[],"result":"success"}"#,
            BodyFault::Key(BodyKey("realm")),
        ),
        (
            r#"{"last_event_id":-1,"msg":"","queue_id":"00000001-0000-0000-0000-000000000000","realm":{},"result":"success"}"#,
            BodyFault::Key(BodyKey("zulip_feature_level")),
        ),
        (
            r#"{"last_event_id":-1,"msg":"","queue_id":"00000001-0000-0000-0000-000000000000","realm":{},"result":"success","streams":[1],"zulip_feature_level":1}"#,
            BodyFault::Row {
                section: Section::Realm,
                index: 0,
            },
        ),
        (
            r#"{"last_event_id":-1,"msg":"","queue_id":"00000001-0000-0000-0000-000000000000","result":"success","starred_messages":[4,7,7],"zulip_feature_level":1}"#,
            BodyFault::Row {
                section: Section::StarredMessages,
                index: 2,
            },
        ),
        (
            r#"{"last_event_id":-1,"msg":"","queue_id":"00000001-0000-0000-0000-000000000000","result":"success","subscribers":[{"stream_id":1,"user_id":2},{"stream_id":1,"user_id":4294967296}],"zulip_feature_level":1}"#,
            BodyFault::Row {
                section: Section::Subscribers,
                index: 1,
            },
        ),
    ] {
        let found = read_register(rt.alloc(), text.as_bytes()).err();
        same(&rt, text, found, wanted);
    }
}

#[test]
fn a_text_that_is_no_events_body_is_refused(rt: HostRuntime) {
    for (text, wanted) in [
        ("nothing", BodyFault::Json),
        (
            r#"{"code":"BAD_REQUEST","msg":"Bad request","result":"error"}"#,
            BodyFault::Key(BodyKey("events")),
        ),
        (
            r#"{"events":[],"result":"success"}"#,
            BodyFault::Key(BodyKey("msg")),
        ),
        (
            r#"{"events":[{"id":0,"type":"heartbeat"},{"id":1}],"msg":"","queue_id":"00000001-0000-0000-0000-000000000000","result":"success"}"#,
            BodyFault::Entry { index: 1 },
        ),
        (
            r#"{"events":[{"id":0,"message_ids":[2,1],"type":"delete_message"}],"msg":"","queue_id":"00000001-0000-0000-0000-000000000000","result":"success"}"#,
            BodyFault::Entry { index: 0 },
        ),
        (
            r#"{"events":[{"id":0,"op":"sell","type":"stream"}],"msg":"","queue_id":"00000001-0000-0000-0000-000000000000","result":"success"}"#,
            BodyFault::Entry { index: 0 },
        ),
    ] {
        let found = read_events(rt.alloc(), text.as_bytes()).err();
        same(&rt, text, found, wanted);
    }
}
