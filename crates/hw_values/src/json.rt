//! Values that texts spell as JSON: lists of ids, lists of names, and names of streams.

ghost use Rattle.std.specs.Prelude.{◌≡◌, [], Option, Some, map, option_map};
ghost use Rattle.hw_values.specs.Json as spec;
ghost use Rattle.hw_values.specs.Json.{ReadsJson, are_digits, elements_of, id_in, name_of, names_in, values_in, values_onto};
ghost use Rattle.hw_values.specs.Readings.{Reads};
ghost use Rattle.std.specs.List.{list_all};
ghost use Rattle.zs_words.specs.Numbers.{is_digit};
ghost use Rattle.serde_json.specs.Data.{Data};
ghost use Rattle.serde_json.specs.Find.{as_str};
ghost use Rattle.serde_json.specs.Read.{read};
ghost use Rattle.serde_json.specs.View.{view};

use crate::fault::NoValue;
use crate::ids::id_of;
use crate::value::FormValue;
use ev_base::{Listed, MessageId, PlainText, StreamId, UserId};
use serde_json::{Category, Value};
use std::alloc::Global;
use zr_types::StreamRef;

/// A list of names, or nothing where `null` is said.
#[derive(Debug, Drop)]
pub enum NameList {
    Null,
    Names(Listed<PlainText>),
}

/// A kind of value that an element of a JSON list is.
pub trait JsonElement: Drop {
    // The value that an element is, if it is one.
    ghost held: { Data → Option Self };

    fn from_json(alloc: Global, value: &Value) -> Result<Self, NoValue>
        ensures { Reads result (held (view value.now)) };
}

impl JsonElement for UserId {
    ghost held = { spec.user_in };

    fn from_json(_alloc: Global, value: &Value) -> Result<UserId, NoValue> {
        match id_in(value) {
            Some(id) => Ok(UserId(id)),
            None => Err(NoValue::NotOne),
        }
    }
}

impl JsonElement for MessageId {
    ghost held = { spec.message_in };

    fn from_json(_alloc: Global, value: &Value) -> Result<MessageId, NoValue> {
        match id_in(value) {
            Some(id) => Ok(MessageId(id)),
            None => Err(NoValue::NotOne),
        }
    }
}

impl JsonElement for PlainText {
    ghost held = { as_str };

    fn from_json(alloc: Global, value: &Value) -> Result<PlainText, NoValue> {
        match value.as_str() {
            Some(text) => Ok(PlainText::new(String::from_str(alloc, text)?)),
            None => Err(NoValue::NotOne),
        }
    }
}

/// A JSON list.
impl<T: JsonElement> FormValue for Listed<T> {
    ghost spelled = { spec.values_of T.held };

    #[tactic(auto, unfolding(crate::specs::Json::values_of))]
    fn read(alloc: Global, text: &str) -> Result<Listed<T>, NoValue> {
        let json = parsed(alloc, text)?;
        values_in(alloc, &json)
    }
}

impl FormValue for NameList {
    ghost spelled = { spec.names_of };

    #[tactic(auto, unfolding(crate::specs::Json::names_of))]
    fn read(alloc: Global, text: &str) -> Result<NameList, NoValue> {
        let json = parsed(alloc, text)?;
        names_in(alloc, &json)
    }
}

impl FormValue for StreamRef {
    ghost spelled = { spec.stream_ref_of };

    fn read(alloc: Global, text: &str) -> Result<StreamRef, NoValue> {
        if !are_digits(text.as_bytes()) {
            return Ok(StreamRef::Name(name_of(alloc, text)?));
        }
        match id_of(text.as_bytes()) {
            Some(id) => Ok(StreamRef::Id(StreamId(id))),
            None => Err(NoValue::NotOne),
        }
    }
}

// The JSON that a text is.
fn parsed(alloc: Global, text: &str) -> Result<Value, NoValue>
    ensures { ReadsJson result (read text.now) }
{
    match Value::from_str(alloc, text) {
        Ok(value) => Ok(value),
        Err(error) => match error.classify() {
            Category::Memory => Err(NoValue::NoMemory),
            _ => Err(NoValue::NotOne),
        },
    }
}

// A number without sign, of 32 bits.
fn id_in(value: &Value) -> Option<u32>
    ensures { result ≡ id_in (view value.now) }
{
    u32::try_from(value.as_u64()?).ok()
}

// The elements of a list.
fn elements_of(value: &Value) -> Option<&[Value]>
    ensures { option_map (λ list. map view list.now) result ≡ elements_of (view value.now) }
{
    match value.as_array() {
        Some(list) => Some(list.as_slice()),
        None => None,
    }
}

// The values of the elements of a list.
fn values_in<T: JsonElement>(alloc: Global, value: &Value) -> Result<Listed<T>, NoValue>
    ensures { Reads result (values_in T.held (view value.now)) }
{
    match elements_of(value) {
        Some(elements) => values_of(alloc, elements),
        None => Err(NoValue::NotOne),
    }
}

fn values_of<T: JsonElement>(alloc: Global, elements: &[Value]) -> Result<Listed<T>, NoValue>
    ensures { Reads result (values_onto T.held [] (map view elements.now)) }
{
    let mut values = Vec::new(alloc);
    for element in elements {
        let value = T::from_json(alloc, element)?;
        values.push(value)?;
    }
    Ok(Listed::from_vec(values))
}

// A list of texts, or null.
fn names_in(alloc: Global, value: &Value) -> Result<NameList, NoValue>
    ensures { Reads result (names_in (view value.now)) }
{
    if value.is_null() {
        return Ok(NameList::Null);
    }
    let names = values_in(alloc, value)?;
    Ok(NameList::Names(names))
}

// Whether all is digits, one or more.
fn are_digits(text: &[u8]) -> bool
    ensures { result ≡ are_digits text.now }
{
    !text.is_empty() && all_digits(text)
}

fn all_digits(text: &[u8]) -> bool
    ensures { result ≡ list_all is_digit text.now }
{
    text.iter().all(is_digit)
}

fn is_digit(byte: &u8) -> bool
    ensures { result ≡ is_digit byte.now }
{
    b'0' <= *byte && *byte <= b'9'
}

// What a JSON string says, and else the text as it stands.
#[tactic(auto, unfolding(crate::specs::Json::name_of))]
fn name_of(alloc: Global, text: &str) -> Result<PlainText, NoValue>
    ensures { Reads result (Some (name_of text.now)) }
{
    match parsed(alloc, text) {
        Ok(json) => match json.as_str() {
            Some(name) => copied(alloc, name),
            None => copied(alloc, text),
        },
        Err(NoValue::NotOne) => copied(alloc, text),
        Err(NoValue::NoMemory) => Err(NoValue::NoMemory),
    }
}

fn copied(alloc: Global, text: &str) -> Result<PlainText, NoValue>
    ensures { Reads result (Some text.now) }
{
    Ok(PlainText::new(String::from_str(alloc, text)?))
}
