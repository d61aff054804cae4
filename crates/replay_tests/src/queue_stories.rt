//! Scripts of queues, which go on where two messages stand, and what must be printed for them.

/// Each with what is printed for it.
pub const STORIES: [(&str, &str); 7] = [
    (AN_OPPOSITE_CHANGE, AN_OPPOSITE_CHANGE_TOLD),
    (A_REACTION_BETWEEN, A_REACTION_BETWEEN_TOLD),
    (A_CUT_BY_AN_ANSWER, A_CUT_BY_AN_ANSWER_TOLD),
    (AN_EXPIRY, AN_EXPIRY_TOLD),
    (A_DELETION, A_DELETION_TOLD),
    (A_PUSH_FROM_A_NOTICE, A_PUSH_FROM_A_NOTICE_TOLD),
    (TIME_OF_MESSAGES, TIME_OF_MESSAGES_TOLD),
];

/// A change of a flag isn't grouped past the opposite change.
const AN_OPPOSITE_CHANGE: &str = "register 2 * -
flags 2 add starred 1
flags 2 remove starred 1
flags 2 add starred 2
notice
push 0
poll 2 2.0 -1
";

const AN_OPPOSITE_CHANGE_TOLD: &str =
    r##"finished 8 {"last_event_id":-1,"msg":"","queue_id":"00000002-0000-0000-0000-000000000000","result":"success","zulip_feature_level":1}
committed 9
committed 10
committed 11
noticed 11
pushed 11
answer 11 {"events":[{"flag":"starred","id":0,"messages":[1],"op":"add","type":"update_message_flags"},{"flag":"starred","id":1,"messages":[1],"op":"remove","type":"update_message_flags"},{"flag":"starred","id":2,"messages":[2],"op":"add","type":"update_message_flags"}],"msg":"","queue_id":"00000002-0000-0000-0000-000000000000","result":"success"}
"##;

/// It is grouped past a reaction, and stands where the latest of the group stands.
const A_REACTION_BETWEEN: &str = "register 2 * -
flags 2 add starred 1
reaction_add 2 1 tada
flags 2 add starred 2
notice
push 0
poll 2 2.0 -1
";

const A_REACTION_BETWEEN_TOLD: &str =
    r##"finished 8 {"last_event_id":-1,"msg":"","queue_id":"00000002-0000-0000-0000-000000000000","result":"success","zulip_feature_level":1}
committed 9
committed 10
committed 11
noticed 11
pushed 11
answer 11 {"events":[{"emoji_name":"tada","id":1,"message_id":1,"op":"add","type":"reaction","user_id":2},{"flag":"starred","id":2,"messages":[1,2],"op":"add","type":"update_message_flags"}],"msg":"","queue_id":"00000002-0000-0000-0000-000000000000","result":"success"}
"##;

/// A group that was answered takes no more in. Then each reason why a poll is refused, an empty one,
/// and a heartbeat in its place.
const A_CUT_BY_AN_ANSWER: &str = "register 2 * -
flags 2 add starred 1
notice
push 0
poll 2 2.0 -1
flags 2 add starred 2
notice
push 0
poll 2 2.0 -1
poll 1 2.0 2
poll 2 2.1 2
poll 2 2.0 2
poll 2 2.0 1
poll 2 2.0 0
beat 2 2.0 1
poll 2 2.0 2
";

const A_CUT_BY_AN_ANSWER_TOLD: &str =
    r##"finished 8 {"last_event_id":-1,"msg":"","queue_id":"00000002-0000-0000-0000-000000000000","result":"success","zulip_feature_level":1}
committed 9
noticed 9
pushed 9
answer 9 {"events":[{"flag":"starred","id":0,"messages":[1],"op":"add","type":"update_message_flags"}],"msg":"","queue_id":"00000002-0000-0000-0000-000000000000","result":"success"}
committed 10
noticed 10
pushed 10
answer 10 {"events":[{"flag":"starred","id":0,"messages":[1],"op":"add","type":"update_message_flags"},{"flag":"starred","id":1,"messages":[2],"op":"add","type":"update_message_flags"}],"msg":"","queue_id":"00000002-0000-0000-0000-000000000000","result":"success"}
bad_queue
bad_queue
not_sent 1
empty 10
pruned 1
answer 10 {"events":[{"id":2,"type":"heartbeat"}],"msg":"","queue_id":"00000002-0000-0000-0000-000000000000","result":"success"}
empty 10
"##;

/// A queue that nobody polls for 600 seconds is collected, and not a second earlier.
const AN_EXPIRY: &str = "register 2 * -
tick 599
poll 2 2.0 -1
tick 1198
tick 1199
poll 2 2.0 -1
";

const AN_EXPIRY_TOLD: &str =
    r##"finished 8 {"last_event_id":-1,"msg":"","queue_id":"00000002-0000-0000-0000-000000000000","result":"success","zulip_feature_level":1}
ticked 0
empty 8
ticked 0
ticked 1 2.0
bad_queue
"##;

/// A queue is deleted once, and by its user alone.
const A_DELETION: &str = "register 2 * -
delete_queue 1 2.0
delete_queue 2 2.0
delete_queue 2 2.0
poll 2 2.0 -1
";

const A_DELETION_TOLD: &str =
    r##"finished 8 {"last_event_id":-1,"msg":"","queue_id":"00000002-0000-0000-0000-000000000000","result":"success","zulip_feature_level":1}
bad_queue
deleted
bad_queue
bad_queue
"##;

/// A push from a notice on passes over those that were pushed, and none that wasn't.
const A_PUSH_FROM_A_NOTICE: &str = "push 0 10
user_update 1 1 Anna
notice
push 0 1
where 0
push 0 9
push 0 11
where 0
";

const A_PUSH_FROM_A_NOTICE_TOLD: &str = r##"gap 8 10
committed 9
noticed 9
pushed 9
at 9
pushed 9
gap 9 11
at 9
"##;

/// A message has the moment at which it was sent. Time doesn't go back.
const TIME_OF_MESSAGES: &str = "register 1 message -
tick 70
tick 60
send_stream 1 1 t three
notice
push 0
poll 1 1.0 -1
";

const TIME_OF_MESSAGES_TOLD: &str =
    r##"finished 8 {"last_event_id":-1,"msg":"","queue_id":"00000001-0000-0000-0000-000000000000","result":"success","zulip_feature_level":1}
ticked 0
ticked 0
committed 9 3
noticed 9
pushed 9
answer 9 {"events":[{"id":0,"message":{"content":"three","flags":["read"],"id":3,"reactions":[],"sender_id":1,"stream_id":1,"timestamp":70,"topic":"t","type":"stream"},"type":"message"}],"msg":"","queue_id":"00000001-0000-0000-0000-000000000000","result":"success"}
"##;

/// Two users who are served by two of three shards: each has the position of its own.
pub const THREE_SHARDS: &str = "shards 3
user_add 0 ann@x.org Ann 100 k1
user_add 1 bob@x.org Bob 400 k2
notice
push 1
push 2
register 1 realm_user -
register 2 realm_user -
user_update 1 1 Anna
notice
push 1
poll 1 1.0 -1
poll 2 2.0 -1
where 0
where 1
where 2
tick 600
";

pub const THREE_SHARDS_TOLD: &str = r##"shards 3
committed 1 1
committed 2 2
noticed 2
pushed 2
pushed 2
finished 2 {"last_event_id":-1,"msg":"","queue_id":"00000001-0000-0000-0000-000000000000","result":"success","zulip_feature_level":1}
finished 2 {"last_event_id":-1,"msg":"","queue_id":"00000002-0000-0000-0000-000000000000","result":"success","zulip_feature_level":1}
committed 3
noticed 3
pushed 3
answer 3 {"events":[{"id":0,"op":"update","person":{"full_name":"Anna","user_id":1},"type":"realm_user"}],"msg":"","queue_id":"00000001-0000-0000-0000-000000000000","result":"success"}
empty 2
at 0
at 3
at 2
ticked 2 1.0 2.0
"##;
