//! The run of a script, from the bytes that are read to the bytes that are written.

use crate::checks::check_text;
use crate::{
    message_stories as later, queue_stories as queues, registration_stories as registrations,
    stories as story,
};
use ev_ports::{MemSink, MemSource};
use std::alloc::{AllocError, Global};
use std::process::Abort;
use std::str;
use std::test::Fail;
use zm_run::{Status, run};

const ADD_ANN: &str = "user_add 0 ann@x.org Ann 100 k1\n";

/// The longest line that isn't too long.
const LONGEST: usize = 65_536;

/// A source of these bytes, whose reads with these numbers, from 1, fail.
fn source_of(alloc: Global, script: &[u8], reads: &[u64]) -> Result<MemSource, AllocError> {
    Ok(MemSource::new(script.to_vec(alloc)?, reads.to_vec(alloc)?))
}

/// A sink whose writes with these numbers, from 1, fail.
fn failing_sink(alloc: Global, writes: &[u64]) -> Result<MemSink, AllocError> {
    MemSink::new(alloc, 4_096, writes.to_vec(alloc)?)
}

/// How a run of `replay` ends.
fn run_replay(
    alloc: Global,
    source: &mut MemSource,
    sink: &mut MemSink,
) -> Result<Status, AllocError> {
    let word = String::from_str(alloc, "replay")?;
    Ok(run(alloc, &[word], source, sink))
}

/// What was written, as a text.
fn text_of(alloc: Global, sink: &MemSink) -> Result<String, Fail> {
    Ok(String::from_str(alloc, str::from_utf8(sink.bytes())?)?)
}

/// How a run of `replay` over a script ends, and what it writes. The reads and the writes with these
/// numbers fail.
fn replay_with_faults(
    alloc: Global,
    script: &[u8],
    reads: &[u64],
    writes: &[u64],
) -> Result<(Status, String), Fail> {
    let mut source = source_of(alloc, script, reads)?;
    let mut sink = failing_sink(alloc, writes)?;
    let status = run_replay(alloc, &mut source, &mut sink)?;
    Ok((status, text_of(alloc, &sink)?))
}

/// How a run of `replay` over a script ends, and what it writes, where no read or write fails.
fn replay(alloc: Global, script: &str) -> Result<(Status, String), Fail> {
    replay_with_faults(alloc, script.as_bytes(), &[], &[])
}

/// Checks how a run ended, and what it wrote.
fn check(rt: &impl Abort, replayed: (Status, String), status: Status, written: &str) {
    assert_eq!(rt; replayed.0, status);
    check_text(rt, replayed.1.as_bytes(), written);
}

/// Checks that a script is played to its end, and what it prints.
fn check_story(rt: &impl Abort, alloc: Global, script: &str, told: &str) -> Result<(), Fail> {
    check(rt, replay(alloc, script)?, Status::Done, told);
    Ok(())
}

/// A script, or what is printed for it, behind that of an opening.
fn joined(alloc: Global, opening: &str, rest: &str) -> Result<String, AllocError> {
    format!(in alloc; "{opening}{rest}")
}

/// Checks what is printed for a script that goes on from an opening of users and streams.
fn check_refusals(rt: &impl Abort, alloc: Global, script: &str, told: &str) -> Result<(), Fail> {
    let script = joined(alloc, story::THREE_USERS, script)?;
    let told = joined(alloc, story::THREE_USERS_TOLD, told)?;
    check_story(rt, alloc, &script, &told)
}

/// Checks what is printed for a script that goes on where two messages stand.
fn check_later(rt: &impl Abort, alloc: Global, script: &str, told: &str) -> Result<(), Fail> {
    let script = joined(alloc, later::TWO_MESSAGES, script)?;
    let told = joined(alloc, later::TWO_MESSAGES_TOLD, told)?;
    check_story(rt, alloc, &script, &told)
}

#[test]
fn an_empty_script_prints_nothing(rt: HostRuntime) -> Result<(), Fail> {
    check(&rt, replay(rt.alloc(), "")?, Status::Done, "");
    Ok(())
}

#[test]
fn comments_and_empty_lines_print_nothing(rt: HostRuntime) -> Result<(), Fail> {
    check(
        &rt,
        replay(rt.alloc(), "# a comment\n\n# another")?,
        Status::Done,
        "",
    );
    Ok(())
}

#[test]
fn a_last_line_may_lack_its_feed(rt: HostRuntime) -> Result<(), Fail> {
    check(
        &rt,
        replay(rt.alloc(), "user_add 0 ann@x.org Ann 100 k1")?,
        Status::Done,
        "committed 1 1\n",
    );
    Ok(())
}

#[test]
fn a_line_past_the_grammar_ends_a_run(rt: HostRuntime) -> Result<(), Fail> {
    let script = "user_add 0 ann@x.org Ann 100 k1\npush 1\nnotice\n";
    check(
        &rt,
        replay(rt.alloc(), script)?,
        Status::BadLine { line: 2 },
        "committed 1 1\n",
    );
    Ok(())
}

#[test]
fn a_client_follows_a_rename(rt: HostRuntime) -> Result<(), Fail> {
    check_story(&rt, rt.alloc(), story::A_RENAME, story::A_RENAME_TOLD)
}

#[test]
fn a_poll_before_the_push_is_empty(rt: HostRuntime) -> Result<(), Fail> {
    check_story(
        &rt,
        rt.alloc(),
        story::A_POLL_BEFORE_THE_PUSH,
        story::A_POLL_BEFORE_THE_PUSH_TOLD,
    )
}

#[test]
fn a_stream_that_becomes_public_is_told(rt: HostRuntime) -> Result<(), Fail> {
    check_story(
        &rt,
        rt.alloc(),
        story::A_STREAM_THAT_BECOMES_PUBLIC,
        story::A_STREAM_THAT_BECOMES_PUBLIC_TOLD,
    )
}

#[test]
fn a_deactivated_user_loses_its_queues(rt: HostRuntime) -> Result<(), Fail> {
    check_story(
        &rt,
        rt.alloc(),
        story::A_DEACTIVATION,
        story::A_DEACTIVATION_TOLD,
    )
}

#[test]
fn each_refusal_is_told(rt: HostRuntime) -> Result<(), Fail> {
    check_refusals(&rt, rt.alloc(), story::REFUSALS, story::REFUSALS_TOLD)
}

#[test]
fn the_first_of_two_refusals_is_told(rt: HostRuntime) -> Result<(), Fail> {
    check_refusals(
        &rt,
        rt.alloc(),
        story::REFUSALS_AT_ONCE,
        story::REFUSALS_AT_ONCE_TOLD,
    )
}

#[test]
fn an_uncovered_section_is_answered(rt: HostRuntime) -> Result<(), Fail> {
    check_story(
        &rt,
        rt.alloc(),
        story::AN_UNCOVERED_SECTION,
        story::AN_UNCOVERED_SECTION_TOLD,
    )
}

#[test]
fn a_private_stream_is_renamed_for_its_subscribers(rt: HostRuntime) -> Result<(), Fail> {
    check_later(
        &rt,
        rt.alloc(),
        later::A_RENAME_OF_A_PRIVATE_STREAM,
        later::A_RENAME_OF_A_PRIVATE_STREAM_TOLD,
    )
}

#[test]
fn each_refusal_is_told_where_messages_stand(rt: HostRuntime) -> Result<(), Fail> {
    check_later(
        &rt,
        rt.alloc(),
        later::REFUSALS_AFTER_MESSAGES,
        later::REFUSALS_AFTER_MESSAGES_TOLD,
    )
}

#[test]
fn flags_are_told_around_a_deletion(rt: HostRuntime) -> Result<(), Fail> {
    check_later(
        &rt,
        rt.alloc(),
        later::FLAGS_AROUND_A_DELETION,
        later::FLAGS_AROUND_A_DELETION_TOLD,
    )
}

#[test]
fn messages_are_regained_and_lost(rt: HostRuntime) -> Result<(), Fail> {
    check_later(
        &rt,
        rt.alloc(),
        later::MESSAGES_REGAINED,
        later::MESSAGES_REGAINED_TOLD,
    )
}

#[test]
fn each_story_of_queues_is_told(rt: HostRuntime) -> Result<(), Fail> {
    for (script, told) in &queues::STORIES {
        check_later(&rt, rt.alloc(), script, told)?;
    }
    Ok(())
}

#[test]
fn each_registration_by_sections_is_told(rt: HostRuntime) -> Result<(), Fail> {
    for (script, told) in &registrations::STORIES {
        check_story(&rt, rt.alloc(), script, told)?;
    }
    for (script, told) in &registrations::LATER_STORIES {
        check_later(&rt, rt.alloc(), script, told)?;
    }
    Ok(())
}

#[test]
fn three_shards_are_pushed_and_ticked_each(rt: HostRuntime) -> Result<(), Fail> {
    check_story(
        &rt,
        rt.alloc(),
        queues::THREE_SHARDS,
        queues::THREE_SHARDS_TOLD,
    )
}

/// A line that isn't in the grammar where it stands: the number of shards is given first or not at
/// all, and each shard that is named is there.
const MISPLACED_LINES: [&str; 4] = ["shards 2\n", "push 1\n", "where 1\n", "push 0 0\n"];

#[test]
fn shards_are_numbered_first_and_then_there(rt: HostRuntime) -> Result<(), Fail> {
    for line in &MISPLACED_LINES {
        let script = joined(rt.alloc(), ADD_ANN, line)?;
        let replayed = replay(rt.alloc(), &script)?;
        check(
            &rt,
            replayed,
            Status::BadLine { line: 2 },
            "committed 1 1\n",
        );
    }
    Ok(())
}

/// The bytes of a line, so many times, behind those of another.
fn repeated(alloc: Global, first: &str, line: &str, times: u32) -> Result<Vec<u8>, AllocError> {
    let mut script = first.as_bytes().to_vec(alloc)?;
    for _ in 0..times {
        script.extend_from_slice(line.as_bytes())?;
    }
    Ok(script)
}

/// The last line that a run writes.
fn last_line(written: &str) -> &str {
    written.trim_end().rsplit('\n').next().unwrap_or("none")
}

#[test]
fn a_user_has_32_queues_at_most(rt: HostRuntime) -> Result<(), Fail> {
    let script = repeated(rt.alloc(), ADD_ANN, "register 1 - -\n", 33)?;
    let replayed = replay_with_faults(rt.alloc(), &script, &[], &[])?;
    assert_eq!(rt; last_line(&replayed.1), "too_many 32");
    Ok(())
}

#[test]
fn a_deleted_queue_makes_room_for_another(rt: HostRuntime) -> Result<(), Fail> {
    let mut script = repeated(rt.alloc(), ADD_ANN, "open 1 * -\n", 33)?;
    script.extend_from_slice(b"delete_queue 1 1.0\nopen 1 * -\n")?;
    let replayed = replay_with_faults(rt.alloc(), &script, &[], &[])?;
    assert_eq!(rt; last_line(&replayed.1), "opened 1.32 0");
    Ok(())
}

/// The last line for a queue that is brought so many renames of the realm and is polled then.
fn poll_after_renames(alloc: Global, pairs: u32, more: &str) -> Result<(Status, String), Fail> {
    let opening = "user_add 0 ann@x.org Ann 100 k1\nregister 1 realm -\n";
    let renames = "realm_update 1 name a\nrealm_update 1 name b\n";
    let mut script = repeated(alloc, opening, renames, pairs)?;
    script.extend_from_slice(more.as_bytes())?;
    script.extend_from_slice(b"notice\npush 0\npoll 1 1.0 -1\n")?;
    replay_with_faults(alloc, &script, &[], &[])
}

#[test]
fn a_queue_keeps_10_000_items(rt: HostRuntime) -> Result<(), Fail> {
    let replayed = poll_after_renames(rt.alloc(), 5_000, "")?;
    let line = last_line(&replayed.1);
    assert!(rt; line.starts_with("answer 10001 {\"events\":[{\"id\":0,"));
    assert!(rt; line.contains("{\"id\":9999,"));
    Ok(())
}

#[test]
fn with_one_item_more_it_is_gone(rt: HostRuntime) -> Result<(), Fail> {
    let replayed = poll_after_renames(rt.alloc(), 5_000, "realm_update 1 name a\n")?;
    assert_eq!(rt; last_line(&replayed.1), "bad_queue");
    Ok(())
}

#[test]
fn one_push_brings_more_than_256_notices(rt: HostRuntime) -> Result<(), Fail> {
    let renames = "user_update 1 1 Anna\nuser_update 1 1 Ann\n";
    let mut script = repeated(rt.alloc(), ADD_ANN, renames, 150)?;
    script.extend_from_slice(b"notice\npush 0\n")?;
    let replayed = replay_with_faults(rt.alloc(), &script, &[], &[])?;
    assert_eq!(rt; last_line(&replayed.1), "pushed 301");
    Ok(())
}

/// A line with the numbers up to this one as a list.
fn push_numbered(
    script: &mut Vec<u8>,
    alloc: Global,
    before: &str,
    last: u32,
    after: &str,
) -> Result<(), AllocError> {
    script.extend_from_slice(before.as_bytes())?;
    for number in 1..last {
        script.extend_from_slice(format!(in alloc; "{number},")?.as_bytes())?;
    }
    script.extend_from_slice(format!(in alloc; "{last}{after}\n")?.as_bytes())?;
    Ok(())
}

#[test]
fn a_command_flags_1_000_messages_at_most(rt: HostRuntime) -> Result<(), Fail> {
    let sent = "send_stream 1 1 t m\n";
    let mut script = repeated(rt.alloc(), later::TWO_MESSAGES, sent, 999)?;
    push_numbered(&mut script, rt.alloc(), "flags 1 add starred ", 1_001, "")?;
    let replayed = replay_with_faults(rt.alloc(), &script, &[], &[])?;
    assert_eq!(rt; last_line(&replayed.1), "refused 10 LimitReached");
    Ok(())
}

/// A script that adds so many users.
fn script_with_users(alloc: Global, last: u32) -> Result<Vec<u8>, AllocError> {
    let mut script = ADD_ANN.as_bytes().to_vec(alloc)?;
    for number in 2..=last {
        let line = format!(in alloc; "user_add 1 u{number}@x.org u 400 k\n")?;
        script.extend_from_slice(line.as_bytes())?;
    }
    Ok(script)
}

#[test]
fn a_message_goes_to_100_users_at_most(rt: HostRuntime) -> Result<(), Fail> {
    let mut script = script_with_users(rt.alloc(), 101)?;
    push_numbered(&mut script, rt.alloc(), "send_dm 1 ", 101, " hi")?;
    let replayed = replay_with_faults(rt.alloc(), &script, &[], &[])?;
    assert_eq!(rt; last_line(&replayed.1), "refused 10 LimitReached");
    Ok(())
}

/// How a run over these words ends, and how many bytes of a script it leaves unread.
fn run_over(alloc: Global, words: &[String]) -> Result<(Status, usize), Fail> {
    let mut source = source_of(alloc, ADD_ANN.as_bytes(), &[])?;
    let mut sink = failing_sink(alloc, &[])?;
    let status = run(alloc, words, &mut source, &mut sink);
    Ok((status, source.left().len()))
}

#[test]
fn other_words_are_refused(rt: HostRuntime) -> Result<(), Fail> {
    let alloc = rt.alloc();
    let word = String::from_str(alloc, "replay")?;
    let other = String::from_str(alloc, "x")?;
    assert_eq!(rt;
        run_over(alloc, &[word, other])?,
        (Status::Usage, ADD_ANN.len())
    );
    Ok(())
}

/// Appends a comment of so many bytes, and its feed.
fn push_comment(script: &mut Vec<u8>, length: usize) -> Result<(), AllocError> {
    script.push(b'#')?;
    for _ in 1..length {
        script.push(b'x')?;
    }
    script.push(b'\n')?;
    Ok(())
}

/// A line that adds a user, and a comment of so many bytes.
fn script_with_comment(alloc: Global, length: usize) -> Result<Vec<u8>, AllocError> {
    let mut script = ADD_ANN.as_bytes().to_vec(alloc)?;
    push_comment(&mut script, length)?;
    Ok(script)
}

#[test]
fn a_line_may_have_65_536_bytes(rt: HostRuntime) -> Result<(), Fail> {
    let script = script_with_comment(rt.alloc(), LONGEST)?;
    check(
        &rt,
        replay_with_faults(rt.alloc(), &script, &[], &[])?,
        Status::Done,
        "committed 1 1\n",
    );
    Ok(())
}

#[test]
fn a_longer_line_ends_a_run(rt: HostRuntime) -> Result<(), Fail> {
    let script = script_with_comment(rt.alloc(), LONGEST + 1)?;
    check(
        &rt,
        replay_with_faults(rt.alloc(), &script, &[], &[])?,
        Status::BadLine { line: 2 },
        "committed 1 1\n",
    );
    Ok(())
}

/// Appends two comments that fill a read, and a line that renames the first user.
fn push_rename(script: &mut Vec<u8>, line: &str) -> Result<(), AllocError> {
    push_comment(script, LONGEST)?;
    push_comment(script, LONGEST)?;
    script.extend_from_slice(line.as_bytes())
}

/// A script of several reads: each but the first has a rename.
fn long_script(alloc: Global) -> Result<Vec<u8>, AllocError> {
    let mut script = ADD_ANN.as_bytes().to_vec(alloc)?;
    push_rename(&mut script, "user_update 1 1 Anna\n")?;
    push_rename(&mut script, "user_update 1 1 Annie\n")?;
    push_rename(&mut script, "user_update 1 1 Ann\n")?;
    Ok(script)
}

/// What is written by the long script before its read or its write with this number.
const BEFORE: [&str; 3] = ["", "committed 1 1\n", "committed 1 1\ncommitted 2\n"];

#[test]
fn output_before_a_failing_write_stands(rt: HostRuntime) -> Result<(), Fail> {
    let script = long_script(rt.alloc())?;
    for (index, before) in BEFORE.iter().enumerate() {
        let replayed = replay_with_faults(rt.alloc(), &script, &[], &[index as u64 + 1])?;
        check(&rt, replayed, Status::WriteFault, before);
    }
    Ok(())
}

#[test]
fn output_before_a_failing_read_stands(rt: HostRuntime) -> Result<(), Fail> {
    let script = long_script(rt.alloc())?;
    for (index, before) in BEFORE.iter().enumerate() {
        let replayed = replay_with_faults(rt.alloc(), &script, &[index as u64 + 1], &[])?;
        check(&rt, replayed, Status::ReadFault, before);
    }
    Ok(())
}
