//! The fields of JSON objects.

ghost use Rattle.std.specs.Prelude.{◌≡◌, map, option_map};
ghost use Rattle.serde_json.specs.Find.{as_bool, as_str};
ghost use Rattle.serde_json.specs.View.{view};
ghost use Rattle.ev_json.specs.Fields.{Gives, array_of, field, i64_of, object_of, u64_of};

use serde_json::Value;

/// Why a field was not read.
#[derive(Clone, Copy, Debug, PartialEq, Eq)]
pub enum FieldFault {
    /// The value is no object, or it has no member of this name.
    Absent,
    /// The member's value is not of the kind.
    WrongKind,
}

/// The member that is an unsigned number of 64 bits.
pub fn field_u64(value: &Value, name: &str) -> Result<u64, FieldFault>
    ensures { Gives (λ n. n) result (field u64_of name.now (view value.now)) }
{
    let found = value.get(name).ok_or(FieldFault::Absent)?;
    found.as_u64().ok_or(FieldFault::WrongKind)
}

/// The member that is a signed number of 64 bits.
pub fn field_i64(value: &Value, name: &str) -> Result<i64, FieldFault>
    ensures { Gives (λ n. n) result (field i64_of name.now (view value.now)) }
{
    let found = value.get(name).ok_or(FieldFault::Absent)?;
    found.as_i64().ok_or(FieldFault::WrongKind)
}

/// The member that is a truth value.
pub fn field_bool(value: &Value, name: &str) -> Result<bool, FieldFault>
    ensures { Gives (λ b. b) result (field as_bool name.now (view value.now)) }
{
    let found = value.get(name).ok_or(FieldFault::Absent)?;
    found.as_bool().ok_or(FieldFault::WrongKind)
}

/// The member that is a text.
pub fn field_text<'a>(value: &'a Value, name: &str) -> Result<&'a str, FieldFault>
    ensures { Gives (λ s. s.now) result (field as_str name.now (view value.now)) }
{
    let found = value.get(name).ok_or(FieldFault::Absent)?;
    found.as_str().ok_or(FieldFault::WrongKind)
}

// The values of a list.
fn array_of(value: &Value) -> Option<&[Value]>
    ensures { option_map (λ l. map view l.now) result ≡ array_of (view value.now) }
{
    match value.as_array() {
        Some(list) => Some(list.as_slice()),
        None => None,
    }
}

/// The values of the member that is a list, in order.
pub fn field_list<'a>(value: &'a Value, name: &str) -> Result<&'a [Value], FieldFault>
    ensures { Gives (λ l. map view l.now) result (field array_of name.now (view value.now)) }
{
    let found = value.get(name).ok_or(FieldFault::Absent)?;
    match array_of(found) {
        Some(list) => Ok(list),
        None => Err(FieldFault::WrongKind),
    }
}

/// The member that is an object.
pub fn field_object<'a>(value: &'a Value, name: &str) -> Result<&'a Value, FieldFault>
    ensures { Gives (λ v. view v.now) result (field object_of name.now (view value.now)) }
{
    let found = value.get(name).ok_or(FieldFault::Absent)?;
    if found.is_object() {
        Ok(found)
    } else {
        Err(FieldFault::WrongKind)
    }
}
