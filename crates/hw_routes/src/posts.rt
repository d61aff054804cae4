//! What requests ask of messages.

ghost use Rattle.std.specs.Prelude.{◌≡◌};
ghost use Rattle.hw_routes.specs.Posts as spec;
ghost use Rattle.hw_values.specs.Readings.{Gives};

use crate::actions::PostAction;
use crate::alternatives::{path_message, without};
use ev_base::{Listed, MessageId, PlainText, StreamId, UserId};
use hw_values::{Form, MessageType, Param, ValueFault};
use std::alloc::Global;
use zr_types::{Mode, PostCommand, StreamRef};

pub fn post_command(
    alloc: Global,
    action: PostAction,
    path: &[u8],
    form: &Form,
) -> Result<PostCommand, ValueFault>
    ensures { Gives result (spec.post_command action path.now form.now) }
{
    match action {
        PostAction::Send => send(alloc, form),
        PostAction::Change => change(alloc, path_message(path)?, form),
        PostAction::Delete => Ok(PostCommand::Delete {
            message: path_message(path)?,
        }),
    }
}

#[tactic(auto, unfolding(crate::specs::Posts::send))]
fn send(alloc: Global, form: &Form) -> Result<PostCommand, ValueFault>
    ensures { Gives result (spec.send form.now) }
{
    match form.needed::<MessageType>(alloc, Param::Type)? {
        MessageType::Stream => send_stream(alloc, form),
        MessageType::Direct => send_direct(alloc, form),
    }
}

#[tactic(auto, unfolding(crate::specs::Posts::send_stream))]
fn send_stream(alloc: Global, form: &Form) -> Result<PostCommand, ValueFault>
    ensures { Gives result (spec.send_stream form.now) }
{
    let to = form.needed::<StreamRef>(alloc, Param::To)?;
    let topic = form.needed::<PlainText>(alloc, Param::Topic)?;
    let content = form.needed::<PlainText>(alloc, Param::Content)?;
    Ok(PostCommand::SendStream { to, topic, content })
}

#[tactic(auto, unfolding(crate::specs::Posts::send_direct))]
fn send_direct(alloc: Global, form: &Form) -> Result<PostCommand, ValueFault>
    ensures { Gives result (spec.send_direct form.now) }
{
    let users = form.needed::<Listed<UserId>>(alloc, Param::To)?;
    let content = form.needed::<PlainText>(alloc, Param::Content)?;
    Ok(PostCommand::SendDm { users, content })
}

// Its content, or its place.
#[tactic(auto, unfolding(crate::specs::Posts::change))]
fn change(alloc: Global, message: MessageId, form: &Form) -> Result<PostCommand, ValueFault>
    ensures { Gives result (spec.change message form.now) }
{
    if form.has(Param::Content) {
        edit(alloc, message, form)
    } else if form.has_any(of_move()) {
        move_message(alloc, message, form)
    } else {
        Err(ValueFault::Missing(Param::Content))
    }
}

fn of_move() -> &'static [Param]
    ensures { result.now ≡ spec.of_move }
{
    &[Param::StreamId, Param::Topic, Param::PropagateMode]
}

#[tactic(auto, unfolding(crate::specs::Posts::edit))]
fn edit(alloc: Global, message: MessageId, form: &Form) -> Result<PostCommand, ValueFault>
    ensures { Gives result (spec.edit message form.now) }
{
    let content = form.needed::<PlainText>(alloc, Param::Content)?;
    without(form, Param::StreamId, of_move())?;
    Ok(PostCommand::EditContent { message, content })
}

#[tactic(auto, unfolding(crate::specs::Posts::move_message))]
fn move_message(alloc: Global, message: MessageId, form: &Form) -> Result<PostCommand, ValueFault>
    ensures { Gives result (spec.move_message message form.now) }
{
    let stream = form.optional::<StreamId>(alloc, Param::StreamId)?;
    let topic = form.optional::<PlainText>(alloc, Param::Topic)?;
    let mode = form.optional::<Mode>(alloc, Param::PropagateMode)?;
    Ok(PostCommand::Move {
        message,
        stream,
        topic,
        mode: mode.unwrap_or(Mode::One),
    })
}
