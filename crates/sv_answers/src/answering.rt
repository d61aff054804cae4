//! Calls, answered.

ghost use Rattle.std.specs.Prelude.{◌≡◌};
ghost use Rattle.zw_backend.specs.Backends.{IsKnown};
ghost use Rattle.sv_calls.specs.Flows.{Any, Goes};
ghost use Rattle.sv_answers.specs.Calls.{AnswersCall, Commits, Deletes, PollsFor, RegistersFor, actual};

use crate::commands::{for_user, made_by};
use crate::replies::{answer_of_commit, answer_of_delete, answer_of_poll, answer_of_registration};
use ev_base::{PlainText, QueueId, UserId};
use ev_time::{Clock, Entropy, Gate};
use hw_replies::Answer;
use hw_routes::Call;
use std::alloc::Global;
use std::sync::Wait;
use sv_calls::serving;
use sv_polls::{Poll, poll_events};
use sv_registers::{Registration, register};
use zr_types::Command;
use zw_backend::Backend;
use zw_traces::{RealmInput, ShardInput};

/// Answers a call of a user, who has seen so many commits, at a moment.
pub fn answer_call<R: Wait, B: Backend, C: Clock, E: Entropy, G: Gate>(
    rt: &R,
    backend: &B,
    alloc: Global,
    pass: &mut B::Pass,
    user: UserId,
    commits: u64,
    call: Call,
    moment: u64,
    clock: &mut C,
    entropy: &mut E,
    gate: &mut G,
) -> Answer
    requires known { IsKnown (B.represents backend.now pass.old) }
    ensures { Goes (B.represents backend.now pass.old) Any
        (AnswersCall user commits call moment (C.coming clock.old) (C.coming clock.new)
        (E.coming entropy.old) (E.coming entropy.new) result)
        (B.represents backend.now pass.new) }
{
    match call {
        Call::Register { types, asked } => {
            let asking = Registration {
                user,
                types,
                asked,
                moment,
                salt: entropy.word(),
            };
            answer_registration(rt, backend, alloc, pass, asking, commits, gate)
        }
        Call::Events {
            text,
            queue,
            after,
            dont_block,
        } => {
            let poll = Poll {
                user,
                queue,
                after,
                dont_block,
                moment,
            };
            answer_poll(rt, backend, alloc, pass, text, poll, commits, clock, gate)
        }
        Call::DeleteQueue { text, queue } => {
            answer_delete(backend, alloc, pass, user, text, queue, gate)
        }
        Call::Commit { command, own_user } => {
            let command = actual(command, own_user, user);
            answer_commit(backend, alloc, pass, user, moment, command)
        }
    }
}

fn actual(command: Command, own_user: bool, user: UserId) -> Command
    ensures { result ≡ actual command own_user user }
{
    if own_user {
        for_user(command, user)
    } else {
        command
    }
}

fn answer_registration<R: Wait, B: Backend, G: Gate>(
    rt: &R,
    backend: &B,
    alloc: Global,
    pass: &mut B::Pass,
    asking: Registration,
    commits: u64,
    gate: &mut G,
) -> Answer
    requires known { IsKnown (B.represents backend.now pass.old) }
    ensures { Goes (B.represents backend.now pass.old) Any (RegistersFor asking commits result)
        (B.represents backend.now pass.new) }
{
    let registered = register(rt, backend, alloc, pass, asking, commits, gate);
    answer_of_registration(alloc, registered)
}

fn answer_poll<R: Wait, B: Backend, C: Clock, G: Gate>(
    rt: &R,
    backend: &B,
    alloc: Global,
    pass: &mut B::Pass,
    text: PlainText,
    poll: Poll,
    commits: u64,
    clock: &mut C,
    gate: &mut G,
) -> Answer
    requires known { IsKnown (B.represents backend.now pass.old) }
    ensures { Goes (B.represents backend.now pass.old) Any
        (PollsFor text poll commits (C.coming clock.old) (C.coming clock.new) result)
        (B.represents backend.now pass.new) }
{
    let told = poll_events(rt, backend, alloc, pass, poll, commits, clock, gate);
    answer_of_poll(alloc, text, poll.queue, told)
}

fn answer_delete<B: Backend, G: Gate>(
    backend: &B,
    alloc: Global,
    pass: &mut B::Pass,
    user: UserId,
    text: PlainText,
    queue: QueueId,
    gate: &mut G,
) -> Answer
    requires known { IsKnown (B.represents backend.now pass.old) }
    ensures { Goes (B.represents backend.now pass.old) Any (Deletes user text queue result)
        (B.represents backend.now pass.new) }
{
    let shard = serving(backend, pass, user);
    let input = ShardInput::Delete { user, queue };
    answer_of_delete(text, backend.ask_shard(alloc, pass, shard, input, gate))
}

fn answer_commit<B: Backend>(
    backend: &B,
    alloc: Global,
    pass: &mut B::Pass,
    actor: UserId,
    moment: u64,
    command: Command,
) -> Answer
    requires known { IsKnown (B.represents backend.now pass.old) }
    ensures { Goes (B.represents backend.now pass.old) Any (Commits actor moment command result)
        (B.represents backend.now pass.new) }
{
    let made = made_by(&command);
    let input = RealmInput::Commit {
        actor,
        moment,
        command,
    };
    answer_of_commit(made, backend.ask_realm(alloc, pass, input))
}
