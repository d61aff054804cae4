//! Scripts, and what must be printed for them.

/// A client registers, and polls once the rename was pushed.
pub const A_RENAME: &str = "user_add 0 ann@x.org Ann 100 k1
notice
push 0
register 1 * realm_user
user_update 1 1 Anna
notice
push 0
poll 1 1.0 -1
poll 1 1.0 0
poll 1 1.0 -1
poll 1 1.0 1
poll 1 1.1 -1
";

pub const A_RENAME_TOLD: &str = r##"committed 1 1
noticed 1
pushed 1
finished 1 {"last_event_id":-1,"msg":"","queue_id":"00000001-0000-0000-0000-000000000000","realm_users":[{"email":"ann@x.org","full_name":"Ann","is_active":true,"role":100,"user_id":1}],"result":"success","zulip_feature_level":1}
committed 2
noticed 2
pushed 2
answer 2 {"events":[{"id":0,"op":"update","person":{"full_name":"Anna","user_id":1},"type":"realm_user"}],"msg":"","queue_id":"00000001-0000-0000-0000-000000000000","result":"success"}
empty 2
pruned 0
not_sent 0
bad_queue
"##;

/// A client polls before the rename was pushed.
pub const A_POLL_BEFORE_THE_PUSH: &str = "user_add 0 ann@x.org Ann 100 k1
notice
push 0
register 1 * realm_user
user_update 1 1 Anna
poll 1 1.0 -1
push 0 5
";

pub const A_POLL_BEFORE_THE_PUSH_TOLD: &str = r##"committed 1 1
noticed 1
pushed 1
finished 1 {"last_event_id":-1,"msg":"","queue_id":"00000001-0000-0000-0000-000000000000","realm_users":[{"email":"ann@x.org","full_name":"Ann","is_active":true,"role":100,"user_id":1}],"result":"success","zulip_feature_level":1}
committed 2
empty 1
gap 1 5
"##;

/// A stream that a user left becomes public: the user is told of it and of its subscriber.
pub const A_STREAM_THAT_BECOMES_PUBLIC: &str = "user_add 0 ann@x.org Ann 100 k1
user_add 1 bob@x.org Bob 400 k2
stream_create 1 lab % public
stream_create 1 den % shared
subscribe 1 1 2
subscribe 1 2 2
notice
push 0
unsubscribe 2 2 2
notice
push 0
register 2 * stream
stream_privacy 1 2 public
notice
push 0
poll 2 2.0 -1
";

pub const A_STREAM_THAT_BECOMES_PUBLIC_TOLD: &str = r##"committed 1 1
committed 2 2
committed 3 1
committed 4 2
committed 5
committed 6
noticed 6
pushed 6
committed 7
noticed 7
pushed 7
finished 7 {"last_event_id":-1,"msg":"","queue_id":"00000002-0000-0000-0000-000000000000","result":"success","streams":[{"description":"","history_public_to_subscribers":true,"invite_only":false,"name":"lab","stream_id":1}],"zulip_feature_level":1}
committed 8
noticed 8
pushed 8
answer 8 {"events":[{"id":0,"op":"create","streams":[{"description":"","history_public_to_subscribers":true,"invite_only":false,"name":"den","stream_id":2}],"type":"stream"},{"id":1,"op":"peer_add","stream_id":2,"type":"subscription","user_ids":[1]}],"msg":"","queue_id":"00000002-0000-0000-0000-000000000000","result":"success"}
"##;

/// A user who is deactivated stays among the users, leaves the subscribers, and loses its queues.
pub const A_DEACTIVATION: &str = "user_add 0 ann@x.org Ann 100 k1
user_add 1 bob@x.org Bob 400 k2
stream_create 1 lab % public
stream_create 1 den % shared
subscribe 1 1 2
subscribe 1 2 2
register 2 * -
user_deactivate 1 2
notice
push 0
poll 2 2.0 -1
register 2 * realm_user
view 2
view 1
user_reactivate 1 2
notice
push 0
poll 2 2.0 -1
";

pub const A_DEACTIVATION_TOLD: &str = r##"committed 1 1
committed 2 2
committed 3 1
committed 4 2
committed 5
committed 6
finished 6 {"last_event_id":8,"msg":"","queue_id":"00000002-0000-0000-0000-000000000000","result":"success","zulip_feature_level":1}
committed 7
noticed 7
pushed 7
bad_queue
fetch_refused
fetch_refused
view 7 {"messages":[],"reactions":[],"realm":{"description":"","name":"Realm"},"realm_users":[{"email":"ann@x.org","full_name":"Ann","is_active":true,"role":100,"user_id":1},{"email":"bob@x.org","full_name":"Bob","is_active":false,"role":400,"user_id":2}],"starred_messages":[],"streams":[{"description":"","history_public_to_subscribers":true,"invite_only":false,"name":"lab","stream_id":1},{"description":"","history_public_to_subscribers":true,"invite_only":true,"name":"den","stream_id":2}],"subscribers":[{"stream_id":1,"user_id":1},{"stream_id":2,"user_id":1}],"subscriptions":[{"color":"#c2c2c2","is_muted":false,"pin_to_top":false,"stream_id":1},{"color":"#c2c2c2","is_muted":false,"pin_to_top":false,"stream_id":2}],"unread_msgs":[]}
committed 8
noticed 8
pushed 8
bad_queue
"##;

/// Three users, of whom one is a guest, and two streams.
pub const THREE_USERS: &str = "user_add 0 ann@x.org Ann 100 k1
user_add 1 bob@x.org Bob 400 k2
stream_create 1 lab % public
stream_create 1 den % shared
subscribe 1 1 2
subscribe 1 2 2
user_add 1 gus@x.org Gus 600 k3
";

pub const THREE_USERS_TOLD: &str = "committed 1 1
committed 2 2
committed 3 1
committed 4 2
committed 5
committed 6
committed 7 3
";

/// Each refusal that a command of people or streams has.
pub const REFUSALS: &str = "stream_create 1 hall % public
user_add 9 a b 400 k
realm_update 9 name Home
stream_create 9 yard % public
realm_update 2 name Home
realm_update 1 name Realm
realm_update 1 name %
user_add 2 carl@x.org Carl 400 k4
user_add 1 bob@x.org Carl 400 k4
user_add 1 carl@x.org Carl 400 k-4
user_update 2 1 Anna
user_update 1 9 Anna
user_update 1 1 Ann
user_update 1 1 %
user_role 2 1 400
user_role 1 1 400
user_role 1 9 400
user_role 1 2 400
user_deactivate 2 1
user_deactivate 1 1
user_deactivate 1 9
user_reactivate 2 1
user_reactivate 1 9
user_reactivate 1 2
stream_create 3 yard % public
stream_create 2 lab % public
stream_create 2 % % public
stream_update 2 1 name yard
stream_update 1 9 name yard
stream_update 1 1 name den
stream_update 1 1 name lab
stream_update 1 1 name %
stream_privacy 2 1 shared
stream_privacy 1 9 shared
stream_privacy 1 1 public
stream_archive 2 1
stream_archive 1 9
subscribe 3 1 2
subscribe 1 1 9
subscribe 3 2 3
subscribe 1 1 2
unsubscribe 2 1 1
unsubscribe 1 1 9
unsubscribe 3 1 3
unsubscribe 1 1 3
sub_property 3 1 is_muted true
sub_property 2 1 color #c2c2c2
sub_property 2 3 is_muted true
sub_property 2 1 color red
user_deactivate 1 3
user_deactivate 1 3
view 9
";

pub const REFUSALS_TOLD: &str = r##"committed 8 3
refused 1 ActorUnknown
refused 1 ActorUnknown
refused 1 ActorUnknown
refused 2 NotPermitted
refused 7 AlreadySo
refused 9 BadText
refused 2 NotPermitted
refused 6 NameTaken
refused 9 BadText
refused 2 NotPermitted
refused 3 NoSuchUser
refused 7 AlreadySo
refused 9 BadText
refused 2 NotPermitted
refused 2 NotPermitted
refused 3 NoSuchUser
refused 7 AlreadySo
refused 2 NotPermitted
refused 2 NotPermitted
refused 3 NoSuchUser
refused 2 NotPermitted
refused 3 NoSuchUser
refused 7 AlreadySo
refused 2 NotPermitted
refused 6 NameTaken
refused 9 BadText
refused 2 NotPermitted
refused 4 NoSuchStream
refused 6 NameTaken
refused 7 AlreadySo
refused 9 BadText
refused 2 NotPermitted
refused 4 NoSuchStream
refused 7 AlreadySo
refused 2 NotPermitted
refused 4 NoSuchStream
refused 2 NotPermitted
refused 3 NoSuchUser
refused 4 NoSuchStream
refused 7 AlreadySo
refused 2 NotPermitted
refused 3 NoSuchUser
refused 4 NoSuchStream
refused 8 NotSo
refused 4 NoSuchStream
refused 7 AlreadySo
refused 8 NotSo
refused 9 BadText
committed 9
refused 7 AlreadySo
fetch_refused
"##;

/// Of two refusals that hold at once the first in their order is told.
pub const REFUSALS_AT_ONCE: &str = "user_update 9 9 %
user_update 2 9 %
user_update 1 9 %
user_add 2 bob@x.org % 400 k-4
user_add 1 bob@x.org % 400 k-4
user_role 2 9 400
user_deactivate 2 9
stream_create 3 lab % public
stream_update 2 9 name lab
stream_update 1 9 name den
stream_privacy 2 9 public
subscribe 3 9 2
subscribe 1 9 9
unsubscribe 2 9 9
unsubscribe 1 9 9
sub_property 3 1 color red
";

pub const REFUSALS_AT_ONCE_TOLD: &str = r##"refused 1 ActorUnknown
refused 2 NotPermitted
refused 3 NoSuchUser
refused 2 NotPermitted
refused 6 NameTaken
refused 2 NotPermitted
refused 2 NotPermitted
refused 2 NotPermitted
refused 2 NotPermitted
refused 4 NoSuchStream
refused 2 NotPermitted
refused 2 NotPermitted
refused 3 NoSuchUser
refused 2 NotPermitted
refused 3 NoSuchUser
refused 4 NoSuchStream
"##;

/// A section that was asked for is answered though the queue receives none of its events.
pub const AN_UNCOVERED_SECTION: &str = "user_add 0 ann@x.org Ann 100 k1
user_add 1 bob@x.org Bob 400 k2
stream_create 1 lab % public
stream_create 1 den % shared
subscribe 1 1 2
subscribe 1 2 2
register 2 realm_user stream
register 1 - realm
register 1 realm_user =
";

pub const AN_UNCOVERED_SECTION_TOLD: &str = r##"committed 1 1
committed 2 2
committed 3 1
committed 4 2
committed 5
committed 6
finished 6 {"last_event_id":1,"msg":"","queue_id":"00000002-0000-0000-0000-000000000000","result":"success","streams":[{"description":"","history_public_to_subscribers":true,"invite_only":false,"name":"lab","stream_id":1},{"description":"","history_public_to_subscribers":true,"invite_only":true,"name":"den","stream_id":2}],"zulip_feature_level":1}
finished 6 {"last_event_id":-1,"msg":"","queue_id":"00000001-0000-0000-0000-000000000000","realm":{"description":"","name":"Realm"},"result":"success","zulip_feature_level":1}
finished 6 {"last_event_id":-1,"msg":"","queue_id":"00000001-0000-0001-0000-000000000000","realm_users":[{"email":"ann@x.org","full_name":"Ann","is_active":true,"role":100,"user_id":1},{"email":"bob@x.org","full_name":"Bob","is_active":true,"role":400,"user_id":2}],"result":"success","zulip_feature_level":1}
"##;
