//! The members of JSON objects by name, and the law that the compact text of a value is read as that
//! value.
#![tactic(auto)]

mod fields;
mod laws;

pub use fields::{
    FieldFault, field_bool, field_i64, field_list, field_object, field_text, field_u64,
};
pub use laws::compact_texts_read_back;
