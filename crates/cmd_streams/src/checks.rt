//! A command is checked against a realm. What the check makes of it can be applied.

ghost use Rattle.std.specs.Prelude.{◌≡◌, ◌+◌, ◌||◌, [], ◌∷◌, nat_lt, length, true, IfOk, OnErr};
ghost use Rattle.zr_types.specs.declared.command.Command.TheVariants.{Streams};
ghost use Rattle.zr_types.specs.declared.command.StreamCommand.TheVariants as of_streams;
ghost use Rattle.ev_base.specs.declared.kinds.Privacy.{Privacy};
ghost use Rattle.ev_base.specs.declared.text.TextKind.TheVariants as kind;
ghost use Rattle.zr_types.specs.Commands.{stream_kind};
ghost use Rattle.zr_types.specs.Effects.{new_subscription};
ghost use Rattle.zr_types.specs.Visibility.{is_active_user};
ghost use Rattle.zr_types.specs.Refusals.{max_streams, max_subscriptions, refusal};
ghost use Rattle.zr_types.specs.Checks.{stored_texts};
ghost use Rattle.zr_types.specs.Commits.{IsChecked, IsCommitted, refusal_in};

use crate::refusals;
use cmd_rules::{GivenText, accept, accepted_texts, commit_change, is_past, read_texts};
use ev_base::{Listed, PlainText, StreamId, Text, TextKind, UserId};
use std::alloc::Global;
use zr_realm::Realm;
use zr_types::{
    Change, Command, CommitFault, Committed, NameField, Refusal, StreamCommand, SubField,
};

// How many streams and subscriptions there may be.
const MAX_STREAMS: usize = 10_000;

const MAX_SUBSCRIPTIONS: usize = 1_000_000;

/// What the command changes, where the actor may do it at this moment. The realm stays as it is.
pub fn check(
    alloc: Global,
    realm: &Realm,
    actor: UserId,
    moment: u64,
    command: StreamCommand,
) -> Result<Change, CommitFault>
    ensures accepted { IfOk result (λ change.
        IsChecked realm.now.state actor moment (Streams command) change) }
    ensures refused { refusal_in result ≡ refusal realm.now.state actor (Streams command) }
{
    let texts = texts_to_store(alloc, realm, actor, &command)?;
    Ok(Change {
        actor,
        moment,
        command: Command::Streams(command),
        texts,
        ids: Listed::from_vec(Vec::new(alloc)),
    })
}

/// Checks the command and makes the change. The realm stays as it is where there is none.
pub fn commit(
    alloc: Global,
    realm: &mut Realm,
    actor: UserId,
    moment: u64,
    command: StreamCommand,
) -> Result<Committed, CommitFault>
    ensures accepted { IfOk result (λ made. IsCommitted realm.old.state realm.new.state
        actor moment (Streams command) made) }
    ensures refused { refusal_in result ≡ refusal realm.old.state actor (Streams command) }
    ensures unchanged { OnErr result (realm.new.state ≡ realm.old.state) }
{
    let change = check(alloc, realm, actor, moment, command)?;
    Ok(commit_change(alloc, realm, change)?)
}

// The texts of a command that nothing refuses.
fn texts_to_store(
    alloc: Global,
    realm: &Realm,
    actor: UserId,
    command: &StreamCommand,
) -> Result<Listed<Text>, CommitFault>
    ensures accepted { IfOk result (λ texts.
        texts ≡ stored_texts realm.now.state.tables actor (Streams command.now)) }
    ensures refused { refusal_in result
        ≡ refusal realm.now.state actor (Streams command.now) }
{
    if !realm.is_active_user(actor) {
        return Err(CommitFault::Refused(Refusal::ActorUnknown));
    }
    match command {
        StreamCommand::Create {
            name,
            description,
            ..
        } => { texts_of_create(alloc, realm, actor, name, description) }
        StreamCommand::Update {
            stream,
            property,
            value,
        } => {
            let own = refusals::refusal_of_update(realm, actor, *stream, *property, value);
            let texts = [GivenText::new(stream_kind(*property), value)];
            accepted_texts(alloc, realm, own, &texts, false)
        }
        StreamCommand::SetPrivacy { stream, privacy } => {
            let own = refusals::refusal_of_set_privacy(realm, actor, *stream, *privacy);
            accepted_texts(alloc, realm, own, &[], false)
        }
        StreamCommand::Archive { stream } => {
            let own = refusals::refusal_of_archive(realm, actor, *stream);
            accepted_texts(alloc, realm, own, &[], false)
        }
        StreamCommand::Subscribe { stream, user } => {
            texts_of_subscribe(alloc, realm, actor, *stream, *user)
        }
        StreamCommand::Unsubscribe { stream, user } => {
            let own = refusals::refusal_of_unsubscribe(realm, actor, *stream, *user);
            accepted_texts(alloc, realm, own, &[], false)
        }
        StreamCommand::SubProperty { stream, value } => {
            texts_of_sub_property(alloc, realm, actor, *stream, value)
        }
    }
}

fn texts_of_create(
    alloc: Global,
    realm: &Realm,
    actor: UserId,
    name: &PlainText,
    description: &PlainText,
) -> Result<Listed<Text>, CommitFault>
    requires { is_active_user realm.now.state.tables actor ≡ true }
    ensures accepted { IfOk result (λ texts.
        texts ≡ name.now ∷ description.now ∷ new_subscription.color ∷ []) }
    ensures refused { (privacy : Privacy) → refusal_in result ≡ refusal realm.now.state actor
        (Streams (of_streams.Create name.now description.now privacy)) }
{
    accept_create(realm, actor, name, description)?;
    let name = GivenText::new(TextKind::StreamName, name);
    let description = GivenText::new(TextKind::StreamDescription, description);
    Ok(read_texts(alloc, &[name, description, new_color()])?)
}

fn accept_create(
    realm: &Realm,
    actor: UserId,
    name: &PlainText,
    description: &PlainText,
) -> Result<(), CommitFault>
    requires { is_active_user realm.now.state.tables actor ≡ true }
    ensures { (privacy : Privacy) → refusal_in result ≡ refusal realm.now.state actor
        (Streams (of_streams.Create name.now description.now privacy)) }
{
    let own = refusals::refusal_of_create(realm, actor, name);
    let texts = [
        GivenText::new(TextKind::StreamName, name),
        GivenText::new(TextKind::StreamDescription, description),
    ];
    accept(realm, own, &texts, no_room_for_stream(realm))
}

// Whether a stream with its first subscription is one more than there may be.
fn no_room_for_stream(realm: &Realm) -> bool
    ensures { result ≡ (nat_lt max_streams (length realm.now.state.tables.streams + 1)
        || nat_lt max_subscriptions (length realm.now.state.tables.subscriptions + 1)) }
{
    let streams = realm.streams().streams_rows().len();
    is_past(MAX_STREAMS, streams, 1) || subscriptions_are_full(realm)
}

fn texts_of_subscribe(
    alloc: Global,
    realm: &Realm,
    actor: UserId,
    stream: StreamId,
    user: UserId,
) -> Result<Listed<Text>, CommitFault>
    requires { is_active_user realm.now.state.tables actor ≡ true }
    ensures accepted { IfOk result (λ texts. texts ≡ new_subscription.color ∷ []) }
    ensures refused { refusal_in result ≡ refusal realm.now.state actor
        (Streams (of_streams.Subscribe stream user)) }
{
    let own = refusals::refusal_of_subscribe(realm, actor, stream, user);
    accept(realm, own, &[], subscriptions_are_full(realm))?;
    Ok(read_texts(alloc, &[new_color()])?)
}

fn texts_of_sub_property(
    alloc: Global,
    realm: &Realm,
    actor: UserId,
    stream: StreamId,
    value: &SubField,
) -> Result<Listed<Text>, CommitFault>
    requires { is_active_user realm.now.state.tables actor ≡ true }
    ensures accepted { IfOk result (λ texts. texts ≡ stored_texts realm.now.state.tables actor
        (Streams (of_streams.SubProperty stream value.now))) }
    ensures refused { refusal_in result ≡ refusal realm.now.state actor
        (Streams (of_streams.SubProperty stream value.now)) }
{
    let own = refusals::refusal_of_sub_property(realm, actor, stream, value);
    match value {
        SubField::Color(color) => {
            let texts = [GivenText::new(TextKind::Color, color)];
            accepted_texts(alloc, realm, own, &texts, false)
        }
        SubField::IsMuted(_) | SubField::PinToTop(_) => {
            accepted_texts(alloc, realm, own, &[], false)
        }
    }
}

// The color of a new subscription.
fn new_color() -> GivenText<'static>
    ensures kind { result.kind ≡ kind.Color }
    ensures text { result.text.now ≡ new_subscription.color }
{
    GivenText {
        kind: TextKind::Color,
        text: "#c2c2c2",
    }
}

fn stream_kind(property: NameField) -> TextKind
    ensures { result ≡ stream_kind property }
{
    match property {
        NameField::Name => TextKind::StreamName,
        NameField::Description => TextKind::StreamDescription,
    }
}

fn subscriptions_are_full(realm: &Realm) -> bool
    ensures { result ≡ nat_lt max_subscriptions
        (length realm.now.state.tables.subscriptions + 1) }
{
    let rows = realm.streams().subscriptions_rows();
    is_past(MAX_SUBSCRIPTIONS, rows.len(), 1)
}
