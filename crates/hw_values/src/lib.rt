//! The parameters of a request, and the values that their texts spell.
#![tactic(auto)]

mod fault;
mod form;
mod ids;
mod json;
mod names;
mod param;
mod value;
mod words;

pub use fault::{NoValue, ValueFault};
pub use form::Form;
pub use ids::{LastEventId, id_of};
pub use json::{JsonElement, NameList};
pub use names::{every_section, kinds_named, sections_named};
pub use param::Param;
pub use value::FormValue;
pub use words::{EmptyList, False, MessageType};
