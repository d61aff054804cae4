//! Texts, ids and truth values.

ghost use Rattle.std.specs.Prelude.{◌≡◌};
ghost use Rattle.serde_json.specs.View.{view};
ghost use Rattle.ev_read.specs.Reading.{Reads};
ghost use Rattle.ev_read.specs.Values as spec;

use crate::fault::Unread;
use ev_base::{Role, Text, TextFault, TextKind};
use ev_json::{field_bool, field_text, field_u64};
use serde_json::Value;
use std::alloc::Global;

// The text, where it is a realm's description or the content of a message.
#[tactic(auto, unfolding(crate::specs::Values::taken))]
fn text_of(alloc: Global, s: &str) -> Result<Text, Unread>
    ensures { Reads (λ text. text) result (spec.taken s.now) }
{
    if TextKind::RealmDescription.fault(s).is_none() {
        return as_kind(alloc, TextKind::RealmDescription, s);
    }
    if TextKind::Content.fault(s).is_none() {
        return as_kind(alloc, TextKind::Content, s);
    }
    Err(Unread::Misfit)
}

fn as_kind(alloc: Global, kind: TextKind, s: &str) -> Result<Text, Unread>
    ensures { Reads (λ text. text) result (spec.of_kind kind s.now) }
{
    match Text::read(alloc, kind, s) {
        Ok(text) => Ok(text),
        Err(TextFault::NoMemory) => Err(Unread::NoMemory),
        Err(_) => Err(Unread::Misfit),
    }
}

/// The member that is a text of some kind.
#[tactic(auto, unfolding(crate::specs::Values::text_field))]
pub fn text_field(alloc: Global, value: &Value, name: &str) -> Result<Text, Unread>
    ensures { Reads (λ text. text) result (spec.text_field name.now (view value.now)) }
{
    let text = field_text(value, name)?;
    text_of(alloc, text)
}

#[tactic(auto, unfolding(crate::specs::Values::id_of))]
fn id_of(number: u64) -> Result<u32, Unread>
    ensures { Reads (λ id. id) result (spec.id_of number) }
{
    match u32::try_from(number) {
        Ok(id) => Ok(id),
        Err(_) => Err(Unread::Misfit),
    }
}

/// The id that a number is.
#[tactic(auto, unfolding(crate::specs::Values::id_from))]
pub fn id_from(value: &Value) -> Result<u32, Unread>
    ensures { Reads (λ id. id) result (spec.id_from (view value.now)) }
{
    let number = value.as_u64().ok_or(Unread::Misfit)?;
    id_of(number)
}

/// The member that is an id.
#[tactic(auto, unfolding(crate::specs::Values::id_field))]
pub fn id_field(value: &Value, name: &str) -> Result<u32, Unread>
    ensures { Reads (λ id. id) result (spec.id_field name.now (view value.now)) }
{
    let number = field_u64(value, name)?;
    id_of(number)
}

/// The member that is a number of 64 bits.
#[tactic(auto, unfolding(crate::specs::Values::number_field))]
pub fn number_field(value: &Value, name: &str) -> Result<u64, Unread>
    ensures { Reads (λ number. number) result (spec.number_field name.now (view value.now)) }
{
    Ok(field_u64(value, name)?)
}

/// The member that is a truth value.
#[tactic(auto, unfolding(crate::specs::Values::bool_field))]
pub fn bool_field(value: &Value, name: &str) -> Result<bool, Unread>
    ensures { Reads (λ truth. truth) result (spec.bool_field name.now (view value.now)) }
{
    Ok(field_bool(value, name)?)
}

/// The member that is the number of a role.
#[tactic(auto, unfolding(crate::specs::Values::role_field))]
pub fn role_field(value: &Value, name: &str) -> Result<Role, Unread>
    ensures { Reads (λ role. role) result (spec.role_field name.now (view value.now)) }
{
    let number = field_u64(value, name)?;
    Role::from_number(number).ok_or(Unread::Misfit)
}
