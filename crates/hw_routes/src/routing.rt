//! The call of a request.

ghost use Rattle.std.specs.Prelude.{◌≡◌};
ghost use Rattle.hw_routes.specs.Routed as spec;
ghost use Rattle.hw_routes.specs.Routed.{Routes as RoutesTo};
ghost use Rattle.hw_values.specs.Readings.{Gives};

use crate::actions::{Action, action_of};
use crate::call::{Call, RouteFault};
use crate::marks::mark_command;
use crate::paths::{Routes, split_target};
use crate::people::people_command;
use crate::posts::post_command;
use crate::queues::queue_call;
use crate::streams::stream_call;
use http::Method;
use hw_values::{Form, ValueFault};
use std::alloc::Global;
use zr_types::Command;

/// What a request asks. Its parameters are the pairs of its query and then those of its body.
#[tactic(auto, unfolding(crate::specs::Routed::routed))]
pub fn route(
    alloc: Global,
    routes: &Routes,
    method: &Method,
    target: &[u8],
    body: &[u8],
) -> Result<Call, RouteFault>
    ensures { RoutesTo result (spec.routed method.now target.now body.now) }
{
    let (path, query) = split_target(target);
    let action = action_at(routes, path, method.as_str())?;
    let form = Form::read(alloc, query, body)?;
    Ok(call_of(alloc, action, path, &form)?)
}

fn action_at(routes: &Routes, path: &[u8], method: &str) -> Result<Action, RouteFault>
    ensures { RoutesTo result (spec.action_at path.now method.now) }
{
    let Some(place) = routes.find(path) else {
        return Err(RouteFault::NoRoute);
    };
    match action_of(place, method) {
        Some(action) => Ok(action),
        None => Err(RouteFault::BadMethod(place)),
    }
}

fn call_of(alloc: Global, action: Action, path: &[u8], form: &Form) -> Result<Call, ValueFault>
    ensures { Gives result (spec.call_of action path.now form.now) }
{
    match action {
        Action::Queue(action) => queue_call(alloc, action, form),
        Action::People(action) => Ok(committed(Command::People(people_command(
            alloc, action, path, form,
        )?))),
        Action::Streams(action) => stream_call(alloc, action, path, form),
        Action::Posts(action) => Ok(committed(Command::Posts(post_command(
            alloc, action, path, form,
        )?))),
        Action::Marks(action) => Ok(committed(Command::Marks(mark_command(
            alloc, action, path, form,
        )?))),
    }
}

fn committed(command: Command) -> Call
    ensures { result ≡ spec.committed command }
{
    Call::Commit {
        command,
        own_user: false,
    }
}
