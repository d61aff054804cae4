//! The words that texts are.

ghost use Rattle.std.specs.Prelude.{◌≡◌};
ghost use Rattle.hw_values.specs.Readings.{Reads};
ghost use Rattle.hw_values.specs.Words as spec;
ghost use Rattle.hw_values.specs.Words.{named};

use crate::fault::NoValue;
use crate::value::FormValue;
use ev_base::{Flag, Role};
use std::alloc::Global;
use zr_types::Mode;
use zs_words::{Named, Operation, SubProperty, read_name};

/// Where a message is sent: to a stream, or to users.
#[derive(Clone, Copy, Debug, PartialEq, Eq)]
pub enum MessageType {
    Stream,
    Direct,
}

/// The word `false`, where a parameter may be nothing else.
#[derive(Clone, Copy, Debug, PartialEq, Eq)]
pub struct False;

/// The text `[]`, where a parameter may be nothing else.
#[derive(Clone, Copy, Debug, PartialEq, Eq)]
pub struct EmptyList;

// The value whose name the text is.
fn named<T: Named>(text: &str) -> Result<T, NoValue>
    ensures { Reads result (named T.values T.name_of text.now) }
{
    read_name(text.as_bytes()).ok_or(NoValue::NotOne)
}

impl FormValue for bool {
    ghost spelled = { spec.truth_of };

    fn read(_alloc: Global, text: &str) -> Result<bool, NoValue> {
        named(text)
    }
}

impl FormValue for Flag {
    ghost spelled = { spec.flag_of };

    fn read(_alloc: Global, text: &str) -> Result<Flag, NoValue> {
        named(text)
    }
}

impl FormValue for Operation {
    ghost spelled = { spec.operation_of };

    fn read(_alloc: Global, text: &str) -> Result<Operation, NoValue> {
        named(text)
    }
}

impl FormValue for SubProperty {
    ghost spelled = { spec.property_of };

    fn read(_alloc: Global, text: &str) -> Result<SubProperty, NoValue> {
        named(text)
    }
}

impl FormValue for Role {
    ghost spelled = { spec.role_of };

    fn read(_alloc: Global, text: &str) -> Result<Role, NoValue> {
        match text {
            "100" => Ok(Role::Owner),
            "200" => Ok(Role::Administrator),
            "300" => Ok(Role::Moderator),
            "400" => Ok(Role::Member),
            "600" => Ok(Role::Guest),
            _ => Err(NoValue::NotOne),
        }
    }
}

impl FormValue for Mode {
    ghost spelled = { spec.mode_of };

    fn read(_alloc: Global, text: &str) -> Result<Mode, NoValue> {
        match text {
            "change_one" => Ok(Mode::One),
            "change_later" => Ok(Mode::Later),
            "change_all" => Ok(Mode::All),
            _ => Err(NoValue::NotOne),
        }
    }
}

impl FormValue for MessageType {
    ghost spelled = { spec.type_of };

    fn read(_alloc: Global, text: &str) -> Result<MessageType, NoValue> {
        match text {
            "stream" | "channel" => Ok(MessageType::Stream),
            "private" | "direct" => Ok(MessageType::Direct),
            _ => Err(NoValue::NotOne),
        }
    }
}

impl FormValue for False {
    ghost spelled = { spec.false_of };

    fn read(_alloc: Global, text: &str) -> Result<False, NoValue> {
        match text {
            "false" => Ok(False),
            _ => Err(NoValue::NotOne),
        }
    }
}

impl FormValue for EmptyList {
    ghost spelled = { spec.empty_of };

    fn read(_alloc: Global, text: &str) -> Result<EmptyList, NoValue> {
        match text {
            "[]" => Ok(EmptyList),
            _ => Err(NoValue::NotOne),
        }
    }
}
