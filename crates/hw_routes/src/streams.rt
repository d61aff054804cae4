//! What requests ask of streams and subscriptions.

ghost use Rattle.std.specs.Prelude.{◌≡◌};
ghost use Rattle.hw_routes.specs.Streams as spec;
ghost use Rattle.hw_values.specs.Readings.{Gives};

use crate::actions::StreamAction;
use crate::alternatives::{path_stream, without};
use crate::call::Call;
use ev_base::{PlainText, Privacy, StreamId, UserId};
use hw_values::{Form, Param, ValueFault};
use std::alloc::Global;
use zr_types::{Command, NameField, StreamCommand, SubField};
use zs_words::SubProperty;

pub fn stream_call(
    alloc: Global,
    action: StreamAction,
    path: &[u8],
    form: &Form,
) -> Result<Call, ValueFault>
    ensures { Gives result (spec.stream_call action path.now form.now) }
{
    match action {
        StreamAction::Join => join(alloc, form),
        StreamAction::Leave => leave(alloc, form),
        StreamAction::SetProperty => Ok(committed(set_property(alloc, form)?)),
        StreamAction::Change => Ok(committed(change(alloc, path_stream(path)?, form)?)),
        StreamAction::Archive => Ok(committed(StreamCommand::Archive {
            stream: path_stream(path)?,
        })),
    }
}

// The call of a command that names its user, if it has one.
fn committed(command: StreamCommand) -> Call
    ensures { result ≡ spec.committed command }
{
    Call::Commit {
        command: Command::Streams(command),
        own_user: false,
    }
}

// A subscription, or a new stream.
#[tactic(auto, unfolding(crate::specs::Streams::join))]
fn join(alloc: Global, form: &Form) -> Result<Call, ValueFault>
    ensures { Gives result (spec.join form.now) }
{
    if form.has_any(&[Param::StreamId, Param::UserId]) {
        subscribe(alloc, form)
    } else if form.has_any(of_creation()) {
        Ok(committed(create(alloc, form)?))
    } else {
        Err(ValueFault::Missing(Param::StreamId))
    }
}

fn of_creation() -> &'static [Param]
    ensures { result.now ≡ spec.of_creation }
{
    &[
        Param::Name,
        Param::Description,
        Param::InviteOnly,
        Param::HistoryPublic,
    ]
}

#[tactic(auto, unfolding(crate::specs::Streams::subscribe))]
fn subscribe(alloc: Global, form: &Form) -> Result<Call, ValueFault>
    ensures { Gives result (spec.subscribe form.now) }
{
    let stream = form.needed::<StreamId>(alloc, Param::StreamId)?;
    let user = form.optional::<UserId>(alloc, Param::UserId)?;
    without(form, Param::Name, of_creation())?;
    Ok(Call::Commit {
        command: Command::Streams(StreamCommand::Subscribe {
            stream,
            user: user.unwrap_or(UserId(0)),
        }),
        own_user: user.is_none(),
    })
}

#[tactic(auto, unfolding(crate::specs::Streams::leave))]
fn leave(alloc: Global, form: &Form) -> Result<Call, ValueFault>
    ensures { Gives result (spec.leave form.now) }
{
    let stream = form.needed::<StreamId>(alloc, Param::StreamId)?;
    let user = form.optional::<UserId>(alloc, Param::UserId)?;
    Ok(Call::Commit {
        command: Command::Streams(StreamCommand::Unsubscribe {
            stream,
            user: user.unwrap_or(UserId(0)),
        }),
        own_user: user.is_none(),
    })
}

#[tactic(auto, unfolding(crate::specs::Streams::create))]
fn create(alloc: Global, form: &Form) -> Result<StreamCommand, ValueFault>
    ensures { Gives result (spec.create form.now) }
{
    let name = form.needed::<PlainText>(alloc, Param::Name)?;
    let description = description_given(alloc, form)?;
    let invite_only = form.optional::<bool>(alloc, Param::InviteOnly)?;
    let history = form.optional::<bool>(alloc, Param::HistoryPublic)?;
    Ok(StreamCommand::Create {
        name,
        description,
        privacy: privacy_of(invite_only.unwrap_or(false), history.unwrap_or(true)),
    })
}

// The description, which is empty where none is given.
fn description_given(alloc: Global, form: &Form) -> Result<PlainText, ValueFault>
    ensures { Gives result (spec.description_given form.now) }
{
    match form.optional::<PlainText>(alloc, Param::Description)? {
        Some(text) => Ok(text),
        None => Ok(PlainText::new(String::new(alloc))),
    }
}

fn privacy_of(is_private: bool, history_public: bool) -> Privacy
    ensures { result ≡ spec.privacy_of is_private history_public }
{
    if !is_private {
        Privacy::Public
    } else if history_public {
        Privacy::Shared
    } else {
        Privacy::Protected
    }
}

#[tactic(auto, unfolding(crate::specs::Streams::set_property))]
fn set_property(alloc: Global, form: &Form) -> Result<StreamCommand, ValueFault>
    ensures { Gives result (spec.set_property form.now) }
{
    let stream = form.needed::<StreamId>(alloc, Param::StreamId)?;
    let property = form.needed::<SubProperty>(alloc, Param::Property)?;
    let value = property_value(alloc, property, form)?;
    Ok(StreamCommand::SubProperty { stream, value })
}

fn property_value(alloc: Global, property: SubProperty, form: &Form) -> Result<SubField, ValueFault>
    ensures { Gives result (spec.property_value property form.now) }
{
    match property {
        SubProperty::Color => Ok(SubField::Color(form.needed(alloc, Param::Value)?)),
        SubProperty::IsMuted => Ok(SubField::IsMuted(form.needed(alloc, Param::Value)?)),
        SubProperty::PinToTop => Ok(SubField::PinToTop(form.needed(alloc, Param::Value)?)),
    }
}

// A stream's name, its description, or its privacy.
#[tactic(auto, unfolding(crate::specs::Streams::change))]
fn change(alloc: Global, stream: StreamId, form: &Form) -> Result<StreamCommand, ValueFault>
    ensures { Gives result (spec.change stream form.now) }
{
    if form.has(Param::NewName) {
        rename(alloc, stream, form)
    } else if form.has(Param::Description) {
        describe(alloc, stream, form)
    } else if form.has_any(of_privacy()) {
        set_privacy(alloc, stream, form)
    } else {
        Err(ValueFault::Missing(Param::NewName))
    }
}

fn of_privacy() -> &'static [Param]
    ensures { result.now ≡ spec.of_privacy }
{
    &[Param::IsPrivate, Param::HistoryPublic]
}

#[tactic(auto, unfolding(crate::specs::Streams::rename))]
fn rename(alloc: Global, stream: StreamId, form: &Form) -> Result<StreamCommand, ValueFault>
    ensures { Gives result (spec.rename stream form.now) }
{
    let value = form.needed::<PlainText>(alloc, Param::NewName)?;
    without(form, Param::Description, &[Param::Description])?;
    without(form, Param::IsPrivate, of_privacy())?;
    Ok(StreamCommand::Update {
        stream,
        property: NameField::Name,
        value,
    })
}

#[tactic(auto, unfolding(crate::specs::Streams::describe))]
fn describe(alloc: Global, stream: StreamId, form: &Form) -> Result<StreamCommand, ValueFault>
    ensures { Gives result (spec.describe stream form.now) }
{
    let value = form.needed::<PlainText>(alloc, Param::Description)?;
    without(form, Param::IsPrivate, of_privacy())?;
    Ok(StreamCommand::Update {
        stream,
        property: NameField::Description,
        value,
    })
}

#[tactic(auto, unfolding(crate::specs::Streams::set_privacy))]
fn set_privacy(alloc: Global, stream: StreamId, form: &Form) -> Result<StreamCommand, ValueFault>
    ensures { Gives result (spec.set_privacy stream form.now) }
{
    let is_private = form.needed::<bool>(alloc, Param::IsPrivate)?;
    let history = form.optional::<bool>(alloc, Param::HistoryPublic)?;
    Ok(StreamCommand::SetPrivacy {
        stream,
        privacy: privacy_of(is_private, history.unwrap_or(true)),
    })
}
