//! Commands on a realm whose log is full.

use crate::sample_realm::{ANN, LAB, ONE, of_sample};
use ev_base::PlainText;
use std::alloc::Global;
use std::test::Fail;
use zr_realm::Realm;
use zr_types::{
    Change, CommitFault, MarkCommand, PeopleCommand, PostCommand, Refusal, StreamCommand,
};

/// How many commits there may be.
const MOST: u64 = 1_000_000;

/// What a check tells, in place of the change.
fn told(checked: Result<Change, CommitFault>) -> Result<(), CommitFault> {
    match checked {
        Ok(_) => Ok(()),
        Err(fault) => Err(fault),
    }
}

fn check_rename(alloc: Global, realm: &Realm) -> Result<Result<(), CommitFault>, Fail> {
    let full_name = PlainText::new(String::from_str(alloc, "Anna")?);
    let command = PeopleCommand::UserUpdate {
        user: ANN,
        full_name,
    };
    Ok(told(cmd_people::check(alloc, realm, ANN, 0, command)))
}

fn check_archive(alloc: Global, realm: &Realm) -> Result<(), CommitFault> {
    let command = StreamCommand::Archive { stream: LAB };
    told(cmd_streams::check(alloc, realm, ANN, 0, command))
}

fn check_delete(alloc: Global, realm: &Realm) -> Result<(), CommitFault> {
    let command = PostCommand::Delete { message: ONE };
    told(cmd_posts::check(alloc, realm, ANN, 0, command))
}

fn check_reaction(alloc: Global, realm: &Realm) -> Result<Result<(), CommitFault>, Fail> {
    let emoji = PlainText::new(String::from_str(alloc, "tada")?);
    let command = MarkCommand::ReactionAdd {
        message: ONE,
        emoji,
    };
    Ok(told(cmd_marks::check(alloc, realm, ANN, 0, command)))
}

/// What the checks of a command of each kind tell of a realm.
fn checks_on(alloc: Global, realm: &Realm) -> Result<[Result<(), CommitFault>; 4], Fail> {
    Ok([
        check_rename(alloc, realm)?,
        check_archive(alloc, realm),
        check_delete(alloc, realm),
        check_reaction(alloc, realm)?,
    ])
}

/// And of the sample after so many commits.
fn checks_after(alloc: Global, commits: u64) -> Result<[Result<(), CommitFault>; 4], Fail> {
    of_sample(alloc, commits, |realm| checks_on(alloc, realm))
}

#[test]
fn a_full_log_takes_no_command(rt: HostRuntime) -> Result<(), Fail> {
    let full = Err(CommitFault::Refused(Refusal::LogFull));
    assert_eq!(rt;
        checks_after(rt.alloc(), MOST - 1)?,
        [Ok(()), Ok(()), Ok(()), Ok(())]
    );
    assert_eq!(rt; checks_after(rt.alloc(), MOST)?, [full, full, full, full]);
    Ok(())
}
