//! Ids, roles, and the orders of keys.

use crate::same::same;
use ev_base::{
    MessageId, QueueId, Role, StreamId, UserId, code_compares_keys_in_their_order,
    keys_are_in_order, queue_texts_have_36_bytes, queue_texts_read_back, role_numbers_read_back,
    texts_are_descriptions_or_contents,
};
use std::mem::size_of;
use std::test::Fail;

const _: () = prove!(size_of::<UserId>() == 4);

const _: () = prove!(size_of::<QueueId>() == 16);

const QUEUES: [(u32, u32, u64, &str); 4] = [
    (1, 0, 0, "00000001-0000-0000-0000-000000000000"),
    (1, 9, 0, "00000001-0000-0009-0000-000000000000"),
    (1, 0, 42, "00000001-0000-0000-0000-00000000002a"),
    (
        0x89ab_cdef,
        0x0123_4567,
        0x89ab_cdef_0123_4567,
        "89abcdef-0123-4567-89ab-cdef01234567",
    ),
];

fn queue(user: u32, number: u32, salt: u64) -> QueueId {
    QueueId {
        user: UserId(user),
        number,
        salt,
    }
}

#[test]
fn a_queue_text_has_the_user_the_number_and_the_salt(rt: HostRuntime) -> Result<(), Fail> {
    for (user, number, salt, text) in QUEUES {
        let queue = queue(user, number, salt);
        same(&rt, format!(in rt.alloc(); "{queue}")?.as_str(), text);
    }
    Ok(())
}

#[test]
fn a_queue_text_is_read(rt: HostRuntime) {
    for (user, number, salt, text) in QUEUES {
        same(&rt, QueueId::from_text(text), queue(user, number, salt));
    }
}

#[test]
fn other_forms_of_a_queue_text_are_read(rt: HostRuntime) {
    for text in [
        "00000002000000000000000000000000",
        "{00000002-0000-0000-0000-000000000000}",
        "urn:uuid:00000002-0000-0000-0000-000000000000",
    ] {
        same(
            &rt,
            (text, QueueId::from_text(text)),
            (text, queue(2, 0, 0)),
        );
    }
}

#[test]
fn other_texts_name_no_queue(rt: HostRuntime) {
    for text in ["", "a", "2.0", "00000002-0000-0000-0000-00000000000g"] {
        same(
            &rt,
            (text, QueueId::from_text(text)),
            (text, queue(0, 0, 0)),
        );
    }
}

#[test]
fn ids_are_printed_as_their_numbers(rt: HostRuntime) -> Result<(), Fail> {
    let ids = format!(in rt.alloc(); "{} {} {}", UserId(7), StreamId(0), MessageId(u32::MAX))?;
    same(&rt, ids.as_str(), "7 0 4294967295");
    Ok(())
}

#[test]
fn a_role_has_its_number(rt: HostRuntime) {
    for (role, number) in [
        (Role::Owner, 100),
        (Role::Administrator, 200),
        (Role::Moderator, 300),
        (Role::Member, 400),
        (Role::Guest, 600),
    ] {
        same(&rt, role.number(), number);
        same(&rt, Role::from_number(number), Some(role));
    }
    same(&rt, Role::from_number(500), None);
}

#[test]
fn the_laws_are_called() {
    queue_texts_read_back();
    queue_texts_have_36_bytes();
    role_numbers_read_back();
    texts_are_descriptions_or_contents();
    keys_are_in_order();
    code_compares_keys_in_their_order();
}
