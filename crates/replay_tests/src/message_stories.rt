//! Scripts of messages, flags and reactions, and what must be printed for them.

/// Two users, two streams and two messages.
pub const TWO_MESSAGES: &str = "user_add 0 ann@x.org Ann 100 k1
user_add 1 bob@x.org Bob 400 k2
stream_create 1 lab % public
stream_create 1 den % shared
subscribe 1 1 2
subscribe 1 2 2
send_stream 1 1 t one
send_stream 1 1 t two
notice
push 0
";

pub const TWO_MESSAGES_TOLD: &str = "committed 1 1
committed 2 2
committed 3 1
committed 4 2
committed 5
committed 6
committed 7 1
committed 8 2
noticed 8
pushed 8
";

/// The rename of a private stream is told to its subscribers alone, and takes no id in
/// another's queue.
pub const A_RENAME_OF_A_PRIVATE_STREAM: &str = "unsubscribe 2 2 2
notice
push 0
register 1 * -
register 2 * -
stream_update 1 2 name cave
notice
push 0
poll 1 1.0 -1
poll 2 2.0 -1
user_update 1 1 Anna
notice
push 0
poll 2 2.0 -1
";

pub const A_RENAME_OF_A_PRIVATE_STREAM_TOLD: &str = r##"committed 9
noticed 9
pushed 9
finished 9 {"last_event_id":-1,"msg":"","queue_id":"00000001-0000-0000-0000-000000000000","result":"success","zulip_feature_level":1}
finished 9 {"last_event_id":-1,"msg":"","queue_id":"00000002-0000-0000-0000-000000000000","result":"success","zulip_feature_level":1}
committed 10
noticed 10
pushed 10
answer 10 {"events":[{"id":0,"op":"update","property":"name","stream_id":2,"type":"stream","value":"cave"}],"msg":"","queue_id":"00000001-0000-0000-0000-000000000000","result":"success"}
empty 10
committed 11
noticed 11
pushed 11
answer 11 {"events":[{"id":0,"op":"update","person":{"full_name":"Anna","user_id":1},"type":"realm_user"}],"msg":"","queue_id":"00000002-0000-0000-0000-000000000000","result":"success"}
"##;

/// Each refusal but those of full tables, where messages stand.
pub const REFUSALS_AFTER_MESSAGES: &str = "user_add 9 a b 400 k
edit_content 2 1 x
subscribe 1 1 9
send_stream 2 =nope t x
delete 2 9
stream_create 2 lab % public
user_update 1 1 Ann
reaction_remove 2 1 tada
sub_property 2 1 color red
flags 2 add read 1,2
flags 2 add read 1,2
view 9
";

pub const REFUSALS_AFTER_MESSAGES_TOLD: &str = r##"refused 1 ActorUnknown
refused 2 NotPermitted
refused 3 NoSuchUser
refused 4 NoSuchStream
refused 5 NoSuchMessage
refused 6 NameTaken
refused 7 AlreadySo
refused 8 NotSo
refused 9 BadText
committed 9
refused 7 AlreadySo
fetch_refused
"##;

/// Flags are told once each, around the deletion of a message.
pub const FLAGS_AROUND_A_DELETION: &str = "register 2 * -
flags 2 add read 1
delete 1 1
flags 2 add read 2
notice
push 0
poll 2 2.0 -1
view 2
";

pub const FLAGS_AROUND_A_DELETION_TOLD: &str =
    r##"finished 8 {"last_event_id":-1,"msg":"","queue_id":"00000002-0000-0000-0000-000000000000","result":"success","zulip_feature_level":1}
committed 9
committed 10
committed 11
noticed 11
pushed 11
answer 11 {"events":[{"flag":"read","id":0,"messages":[1],"op":"add","type":"update_message_flags"},{"id":1,"message_ids":[1],"type":"delete_message"},{"flag":"read","id":2,"messages":[2],"op":"add","type":"update_message_flags"}],"msg":"","queue_id":"00000002-0000-0000-0000-000000000000","result":"success"}
view 11 {"messages":[{"content":"two","flags":["read"],"id":2,"sender_id":1,"stream_id":1,"timestamp":0,"topic":"t","type":"stream"}],"reactions":[],"realm":{"description":"","name":"Realm"},"realm_users":[{"email":"ann@x.org","full_name":"Ann","is_active":true,"role":100,"user_id":1},{"email":"bob@x.org","full_name":"Bob","is_active":true,"role":400,"user_id":2}],"starred_messages":[],"streams":[{"description":"","history_public_to_subscribers":true,"invite_only":false,"name":"lab","stream_id":1},{"description":"","history_public_to_subscribers":true,"invite_only":true,"name":"den","stream_id":2}],"subscribers":[{"stream_id":1,"user_id":1},{"stream_id":1,"user_id":2},{"stream_id":2,"user_id":1},{"stream_id":2,"user_id":2}],"subscriptions":[{"color":"#c2c2c2","is_muted":false,"pin_to_top":false,"stream_id":1},{"color":"#c2c2c2","is_muted":false,"pin_to_top":false,"stream_id":2}],"unread_msgs":[]}
"##;

/// A guest who becomes a member regains the messages of a public stream, and loses them again.
pub const MESSAGES_REGAINED: &str = "user_add 1 carl@x.org Carl 600 k3
subscribe 1 1 3
send_stream 1 1 t three
send_stream 1 1 t four
unsubscribe 1 1 3
notice
push 0
register 3 * -
user_role 1 3 400
notice
push 0
poll 3 3.0 -1
user_role 1 3 600
notice
push 0
poll 3 3.0 3
user_deactivate 1 2
notice
push 0
";

pub const MESSAGES_REGAINED_TOLD: &str = r##"committed 9 3
committed 10
committed 11 3
committed 12 4
committed 13
noticed 13
pushed 13
finished 13 {"last_event_id":-1,"msg":"","queue_id":"00000003-0000-0000-0000-000000000000","result":"success","zulip_feature_level":1}
committed 14
noticed 14
pushed 14
answer 14 {"events":[{"id":0,"op":"update","person":{"role":400,"user_id":3},"type":"realm_user"},{"id":1,"op":"create","streams":[{"description":"","history_public_to_subscribers":true,"invite_only":false,"name":"lab","stream_id":1}],"type":"stream"},{"id":2,"op":"peer_add","stream_id":1,"type":"subscription","user_ids":[1,2]},{"id":3,"messages":[{"content":"three","flags":[],"id":3,"reactions":[],"sender_id":1,"stream_id":1,"timestamp":0,"topic":"t","type":"stream"},{"content":"four","flags":[],"id":4,"reactions":[],"sender_id":1,"stream_id":1,"timestamp":0,"topic":"t","type":"stream"}],"type":"messages_restored"}],"msg":"","queue_id":"00000003-0000-0000-0000-000000000000","result":"success"}
committed 15
noticed 15
pushed 15
answer 15 {"events":[{"id":4,"op":"update","person":{"role":600,"user_id":3},"type":"realm_user"},{"id":5,"op":"delete","stream_ids":[1],"type":"stream"},{"id":6,"message_ids":[3,4],"type":"delete_message"}],"msg":"","queue_id":"00000003-0000-0000-0000-000000000000","result":"success"}
committed 16
noticed 16
pushed 16
"##;
