//! Requests, answered.

ghost use Rattle.zw_backend.specs.Backends.{IsKnown};
ghost use Rattle.sv_calls.specs.Flows.{Any, Goes};
ghost use Rattle.sv_requests.specs.Requests.{AnswersAsked, AnswersRequest};

use crate::asked::{Asked, asked_by};
use ev_time::{Clock, Entropy, Gate};
use hw_replies::{Answer, Problem};
use hw_routes::Routes;
use hw_wire::Request;
use std::alloc::Global;
use std::sync::Wait;
use sv_answers::answer_call;
use zw_backend::{Backend, Who};

/// Answers a request at a moment.
pub fn answer_request<R: Wait, B: Backend, C: Clock, E: Entropy, G: Gate>(
    rt: &R,
    backend: &B,
    alloc: Global,
    pass: &mut B::Pass,
    routes: &Routes,
    request: &Request,
    moment: u64,
    clock: &mut C,
    entropy: &mut E,
    gate: &mut G,
) -> Answer
    requires known { IsKnown (B.represents backend.now pass.old) }
    ensures { Goes (B.represents backend.now pass.old) Any
        (AnswersRequest request.now moment (C.coming clock.old) (C.coming clock.new)
        (E.coming entropy.old) (E.coming entropy.new) result)
        (B.represents backend.now pass.new) }
{
    match asked_by(alloc, routes, request) {
        Ok(asked) => {
            answer_asked(
                rt, backend, alloc, pass, asked, moment, clock, entropy, gate,
            )
        }
        Err(problem) => Answer::Refused(problem),
    }
}

// Answers a call, if its credentials are those of an active user.
fn answer_asked<R: Wait, B: Backend, C: Clock, E: Entropy, G: Gate>(
    rt: &R,
    backend: &B,
    alloc: Global,
    pass: &mut B::Pass,
    asked: Asked,
    moment: u64,
    clock: &mut C,
    entropy: &mut E,
    gate: &mut G,
) -> Answer
    requires known { IsKnown (B.represents backend.now pass.old) }
    ensures { Goes (B.represents backend.now pass.old) Any
        (AnswersAsked asked moment (C.coming clock.old) (C.coming clock.new)
        (E.coming entropy.old) (E.coming entropy.new) result)
        (B.represents backend.now pass.new) }
{
    let Asked { call, credentials } = asked;
    match backend.who(pass, credentials.email.as_str(), credentials.key.as_str()) {
        Who::User { user, commits } => answer_call(
            rt, backend, alloc, pass, user, commits, call, moment, clock, entropy, gate,
        ),
        Who::Nobody => Answer::Refused(Problem::InvalidKey),
    }
}
