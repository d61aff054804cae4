//! Scripts of registrations by sections, and what must be printed for them.

/// Each from its first line on, with what is printed for it.
pub const STORIES: [(&str, &str); 3] = [
    (SECTIONS_AT_TWO_COMMITS, SECTIONS_AT_TWO_COMMITS_TOLD),
    (COMMITS_BETWEEN_SECTIONS, COMMITS_BETWEEN_SECTIONS_TOLD),
    (A_SECTION_FETCHED_TWICE, A_SECTION_FETCHED_TWICE_TOLD),
];

/// Each where two messages stand, with what is printed for it.
pub const LATER_STORIES: [(&str, &str); 2] = [
    (A_REGAINED_STREAM, A_REGAINED_STREAM_TOLD),
    (AN_INACTIVE_USER, AN_INACTIVE_USER_TOLD),
];

/// Sections are fetched at different commits, and each reason why a finish is refused comes once.
const SECTIONS_AT_TWO_COMMITS: &str = "user_add 0 ann@x.org Ann 100 k1
notice
push 0
open 1 * realm_user,stream
user_add 1 bob@x.org Bob 400 k2
fetch 1.0 realm_users
finish 1.0
stream_create 1 lab % public
fetch 1.0 streams
finish 1.0
notice
push 0
finish 1.0
finish 1.0
fetch 1.0 streams
";

const SECTIONS_AT_TWO_COMMITS_TOLD: &str = r##"committed 1 1
noticed 1
pushed 1
opened 1.0 1
committed 2 2
fetched realm_users 2
missing_section streams
committed 3 1
fetched streams 3
not_pushed 1 3
noticed 3
pushed 3
finished 3 {"last_event_id":3,"msg":"","queue_id":"00000001-0000-0000-0000-000000000000","realm_users":[{"email":"ann@x.org","full_name":"Ann","is_active":true,"role":100,"user_id":1},{"email":"bob@x.org","full_name":"Bob","is_active":true,"role":400,"user_id":2}],"result":"success","streams":[{"description":"","history_public_to_subscribers":true,"invite_only":false,"name":"lab","stream_id":1}],"zulip_feature_level":1}
bad_queue
bad_queue
"##;

/// What a line that registers does, step by step, while others commit between its fetches: what was
/// committed since the opening is replayed over each section.
const COMMITS_BETWEEN_SECTIONS: &str = "user_add 0 ann@x.org Ann 100 k1
notice
push 0
open 1 realm,realm_user =
fetch 1.0 realm
realm_update 1 name Beta
fetch 1.0 realm_users
user_update 1 1 Anna
notice
push 0
finish 1.0
register 1 realm,realm_user =
";

const COMMITS_BETWEEN_SECTIONS_TOLD: &str = r##"committed 1 1
noticed 1
pushed 1
opened 1.0 1
fetched realm 1
committed 2
fetched realm_users 2
committed 3
noticed 3
pushed 3
finished 3 {"last_event_id":1,"msg":"","queue_id":"00000001-0000-0000-0000-000000000000","realm":{"description":"","name":"Beta"},"realm_users":[{"email":"ann@x.org","full_name":"Anna","is_active":true,"role":100,"user_id":1}],"result":"success","zulip_feature_level":1}
finished 3 {"last_event_id":-1,"msg":"","queue_id":"00000001-0000-0001-0000-000000000000","realm":{"description":"","name":"Beta"},"realm_users":[{"email":"ann@x.org","full_name":"Anna","is_active":true,"role":100,"user_id":1}],"result":"success","zulip_feature_level":1}
"##;

/// Of a section that is fetched twice the second counts, in its rows and in its commit. The queue
/// receives no event, so no change is replayed.
const A_SECTION_FETCHED_TWICE: &str = "user_add 0 ann@x.org Ann 100 k1
notice
push 0
open 1 - realm
fetch 1.0 realm
realm_update 1 name Beta
fetch 1.0 realm
realm_update 1 name Gamma
finish 1.0
notice
push 0
finish 1.0
";

const A_SECTION_FETCHED_TWICE_TOLD: &str = r##"committed 1 1
noticed 1
pushed 1
opened 1.0 1
fetched realm 1
committed 2
fetched realm 2
committed 3
not_pushed 1 2
noticed 3
pushed 3
finished 3 {"last_event_id":-1,"msg":"","queue_id":"00000001-0000-0000-0000-000000000000","realm":{"description":"","name":"Beta"},"result":"success","zulip_feature_level":1}
"##;

/// A message moves into a stream that its reader lost and regained.
const A_REGAINED_STREAM: &str = "open 2 * message
unsubscribe 2 2 2
subscribe 1 2 2
move 1 1 2 t one
fetch 2.0 messages
fetch 2.0 unread_msgs
notice
push 0
finish 2.0
";

const A_REGAINED_STREAM_TOLD: &str = r##"opened 2.0 8
committed 9
committed 10
committed 11
fetched messages 11
fetched unread_msgs 11
noticed 11
pushed 11
finished 11 {"last_event_id":5,"messages":[{"content":"one","flags":[],"id":1,"sender_id":1,"stream_id":2,"timestamp":0,"topic":"t","type":"stream"},{"content":"two","flags":[],"id":2,"sender_id":1,"stream_id":1,"timestamp":0,"topic":"t","type":"stream"}],"msg":"","queue_id":"00000002-0000-0000-0000-000000000000","result":"success","unread_msgs":[{"id":1,"stream_id":2,"topic":"t","type":"stream"},{"id":2,"stream_id":1,"topic":"t","type":"stream"}],"zulip_feature_level":1}
"##;

/// A user who was deactivated fetches nothing more, and loses the queue with the push that tells it.
const AN_INACTIVE_USER: &str = "open 2 * realm
fetch 2.0 realm
user_deactivate 1 2
fetch 2.0 realm
notice
push 0
fetch 2.0 realm
finish 2.0
fetch 2.9 realm
finish 3.0
";

const AN_INACTIVE_USER_TOLD: &str = "opened 2.0 8
fetched realm 8
committed 9
fetch_refused
noticed 9
pushed 9
bad_queue
bad_queue
bad_queue
bad_queue
";
