//! Texts by their kind.

use crate::same::same;
use ev_base::{Text, TextFault, TextKind};
use std::alloc::Global;
use std::iter;
use std::mem::size_of;
use std::test::Fail;

const _: () = prove!(size_of::<Text>() == 24);

#[test]
fn each_kind_takes_its_texts(rt: HostRuntime) {
    for (kind, text) in [
        (TextKind::RealmName, "Zulip é"),
        (TextKind::RealmDescription, ""),
        (TextKind::StreamName, "lab"),
        (TextKind::StreamDescription, ""),
        (TextKind::Topic, "t"),
        (TextKind::FullName, "Ann Å"),
        (TextKind::Email, "ann@x.org"),
        (TextKind::ApiKey, "k1Z"),
        (TextKind::Content, "two\nlines\t"),
        (TextKind::Emoji, "+1_thumbs-up"),
        (TextKind::Color, "#c2c2c2"),
    ] {
        same(&rt, (text, kind.fault(text)), (text, None));
    }
}

#[test]
fn each_kind_refuses_other_characters(rt: HostRuntime) {
    for (kind, text, place) in [
        (TextKind::RealmName, "a\u{7f}", 1),
        (TextKind::RealmDescription, "é\n", 1),
        (TextKind::StreamDescription, "\u{1f}", 0),
        (TextKind::Topic, "a\t", 1),
        (TextKind::FullName, "A\u{0}", 1),
        (TextKind::Email, "é:x", 1),
        (TextKind::Email, "a b", 1),
        (TextKind::ApiKey, "k1é", 2),
        (TextKind::Content, "ab\u{0}", 2),
        (TextKind::Emoji, "Tada", 0),
        (TextKind::Color, "#C2c2c2", 1),
        (TextKind::Color, "c#c2c2c", 0),
    ] {
        let fault = Some(TextFault::BadChar { place });
        same(&rt, (text, kind.fault(text)), (text, fault));
    }
}

#[test]
fn short_texts_are_refused(rt: HostRuntime) {
    for (kind, text, chars) in [
        (TextKind::StreamName, "", 0),
        (TextKind::Topic, "", 0),
        (TextKind::Color, "#c2c2c", 6),
    ] {
        let fault = Some(TextFault::TooShort { chars });
        same(&rt, (text, kind.fault(text)), (text, fault));
    }
}

fn repeated(alloc: Global, character: char, times: usize) -> Result<String, Fail> {
    Ok(iter::repeat_n(character, times).collect::<String>(alloc)?)
}

// Why a text of so many equal characters is refused.
fn fault_of_length(
    alloc: Global,
    kind: TextKind,
    character: char,
    times: usize,
) -> Result<Option<TextFault>, Fail> {
    Ok(kind.fault(&repeated(alloc, character, times)?))
}

// The greatest length of each kind, in such characters.
const GREATEST: [(TextKind, char, u32); 10] = [
    (TextKind::RealmName, 'é', 60),
    (TextKind::RealmDescription, 'é', 1_024),
    (TextKind::StreamName, 'é', 60),
    (TextKind::StreamDescription, 'é', 1_024),
    (TextKind::Topic, 'é', 60),
    (TextKind::FullName, 'é', 100),
    (TextKind::Email, 'é', 100),
    (TextKind::ApiKey, 'k', 64),
    (TextKind::Content, 'é', 10_000),
    (TextKind::Emoji, 'k', 40),
];

#[test]
fn longer_texts_are_refused(rt: HostRuntime) -> Result<(), Fail> {
    let long_color = TextKind::Color.fault("#c2c2c2c");
    same(&rt, long_color, Some(TextFault::TooLong { chars: 8 }));
    for (kind, character, most) in GREATEST {
        let chars = u64::from(most) + 1;
        let fault = fault_of_length(rt.alloc(), kind, character, chars as usize)?;
        same(
            &rt,
            (kind, fault),
            (kind, Some(TextFault::TooLong { chars })),
        );
    }
    Ok(())
}

#[test]
fn lengths_are_counted_in_characters(rt: HostRuntime) -> Result<(), Fail> {
    for (kind, character, most) in GREATEST {
        let fault = fault_of_length(rt.alloc(), kind, character, most as usize)?;
        same(&rt, (kind, fault), (kind, None));
    }
    Ok(())
}

fn topic(alloc: Global, text: &str) -> Result<Text, Fail> {
    Ok(Text::read(alloc, TextKind::Topic, text)?)
}

#[test]
fn a_text_is_read_and_printed(rt: HostRuntime) -> Result<(), Fail> {
    let lunch = topic(rt.alloc(), "lunch")?;
    same(&rt, lunch.as_str(), "lunch");
    let printed = format!(in rt.alloc(); "{lunch} {lunch:?}")?;
    same(&rt, printed.as_str(), "lunch \"lunch\"");
    Ok(())
}

#[test]
fn texts_are_compared_by_their_bytes(rt: HostRuntime) -> Result<(), Fail> {
    let lunch = topic(rt.alloc(), "lunch")?;
    let lunches = topic(rt.alloc(), "lunches")?;
    same(&rt, lunch < lunches && lunch != lunches, true);
    same(&rt, lunch == lunch.clone()?, true);
    Ok(())
}

#[test]
fn a_text_of_another_kind_is_not_read(rt: HostRuntime) {
    let refused = Text::read(rt.alloc(), TextKind::Topic, "");
    same(&rt, refused.err(), Some(TextFault::TooShort { chars: 0 }));
}

#[test]
fn faults_are_printed(rt: HostRuntime) -> Result<(), Fail> {
    for (fault, text) in [
        (
            TextFault::TooShort { chars: 0 },
            "too short at 0 characters",
        ),
        (
            TextFault::TooLong { chars: 61 },
            "too long at 61 characters",
        ),
        (TextFault::BadChar { place: 1 }, "bad character at place 1"),
        (TextFault::NoMemory, "out of memory"),
    ] {
        same(&rt, format!(in rt.alloc(); "{fault}")?.as_str(), text);
    }
    Ok(())
}
