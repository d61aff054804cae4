//! What requests ask of queues.

ghost use Rattle.std.specs.Prelude.{◌≡◌, IfOk};
ghost use Rattle.hw_routes.specs.Queues as spec;
ghost use Rattle.hw_values.specs.Readings.{Gives};

use crate::actions::QueueAction;
use crate::call::Call;
use ev_base::{Listed, PlainText, QueueId};
use ev_types::{Section, Types};
use hw_values::{
    EmptyList, False, Form, LastEventId, NameList, Param, ValueFault, every_section, kinds_named,
    sections_named,
};
use std::alloc::{AllocError, Global};

pub fn queue_call(alloc: Global, action: QueueAction, form: &Form) -> Result<Call, ValueFault>
    ensures { Gives result (spec.queue_call action form.now) }
{
    match action {
        QueueAction::Register => register(alloc, form),
        QueueAction::Poll => poll(alloc, form),
        QueueAction::Delete => delete_queue(alloc, form),
    }
}

#[tactic(auto, unfolding(crate::specs::Queues::register))]
fn register(alloc: Global, form: &Form) -> Result<Call, ValueFault>
    ensures { Gives result (spec.register form.now) }
{
    let types = names(alloc, form, Param::EventTypes)?;
    let fetched = names(alloc, form, Param::FetchEventTypes)?;
    form.optional::<False>(alloc, Param::ApplyMarkdown)?;
    form.optional::<False>(alloc, Param::AllPublicStreams)?;
    form.optional::<EmptyList>(alloc, Param::Narrow)?;
    registration(alloc, types, fetched)
}

// The names that a parameter lists, where it is given and isn't null.
fn names(alloc: Global, form: &Form, param: Param) -> Result<Option<Listed<PlainText>>, ValueFault>
    ensures { Gives result (spec.names param form.now) }
{
    match form.optional::<NameList>(alloc, param)? {
        Some(NameList::Names(names)) => Ok(Some(names)),
        Some(NameList::Null) => Ok(None),
        None => Ok(None),
    }
}

fn registration(
    alloc: Global,
    types: Option<Listed<PlainText>>,
    fetched: Option<Listed<PlainText>>,
) -> Result<Call, ValueFault>
    ensures { Gives result (spec.registration types fetched) }
{
    let asked = asked_of(alloc, &types, &fetched)?;
    let types = types_of(alloc, &types)?;
    Ok(Call::Register { types, asked })
}

fn asked_of(
    alloc: Global,
    types: &Option<Listed<PlainText>>,
    fetched: &Option<Listed<PlainText>>,
) -> Result<Listed<Section>, AllocError>
    ensures { IfOk result (λ asked. asked ≡ spec.asked_of types.now fetched.now) }
{
    match fetched {
        Some(names) => sections_named(alloc, names.as_slice()),
        None => match types {
            Some(names) => sections_named(alloc, names.as_slice()),
            None => every_section(alloc),
        },
    }
}

fn types_of(alloc: Global, types: &Option<Listed<PlainText>>) -> Result<Types, AllocError>
    ensures { IfOk result (λ read. read ≡ spec.types_of types.now) }
{
    match types {
        Some(names) => Ok(Types::Only(kinds_named(alloc, names.as_slice())?)),
        None => Ok(Types::All),
    }
}

#[tactic(auto, unfolding(crate::specs::Queues::poll))]
fn poll(alloc: Global, form: &Form) -> Result<Call, ValueFault>
    ensures { Gives result (spec.poll form.now) }
{
    let text = form.needed::<PlainText>(alloc, Param::QueueId)?;
    let after = form.needed::<LastEventId>(alloc, Param::LastEventId)?;
    let dont_block = form.optional::<bool>(alloc, Param::DontBlock)?;
    let queue = QueueId::from_text(text.as_str());
    Ok(Call::Events {
        text,
        queue,
        after: after.0,
        dont_block: dont_block.unwrap_or(false),
    })
}

#[tactic(auto, unfolding(crate::specs::Queues::delete_queue))]
fn delete_queue(alloc: Global, form: &Form) -> Result<Call, ValueFault>
    ensures { Gives result (spec.delete_queue form.now) }
{
    let text = form.needed::<PlainText>(alloc, Param::QueueId)?;
    let queue = QueueId::from_text(text.as_str());
    Ok(Call::DeleteQueue { text, queue })
}
