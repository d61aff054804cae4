//! The members of a JSON object, put one by one.

ghost use Rattle.std.specs.Prelude.{◌≡◌, IfOk, option_map};
ghost use Rattle.serde_json.specs.Data.{no_members, object, put, string};
ghost use Rattle.serde_json.specs.View.{view};
ghost use Rattle.ev_wire.specs.Values.{list_data, put_in, put_some};

use crate::values::{ToJson, list_value, text_value};
use serde_json::{Map, Value};
use std::alloc::{AllocError, Global};

/// The members of an object, which stand in the order of their keys' bytes.
#[derive(Drop)]
pub struct Members {
    map: Map<String, Value>,
}

impl Members {
    pub fn new(alloc: Global) -> Members
        ensures { put_in result ≡ no_members }
    {
        Members {
            map: Map::new(alloc),
        }
    }

    /// With one more member.
    #[tactic(auto, using(crate::proofs::Puts::inserted_is_put))]
    pub fn with(mut self, alloc: Global, name: &str, value: Value) -> Result<Members, AllocError>
        ensures { IfOk result (λ members. put_in members ≡ put name.now (view value) (put_in self)) }
    {
        let key = String::from_str(alloc, name)?;
        self.map.insert(key, value)?;
        Ok(self)
    }

    /// With a text as one more member.
    pub fn with_text(self, alloc: Global, name: &str, text: &str) -> Result<Members, AllocError>
        ensures { IfOk result (λ members. put_in members ≡ put name.now (string text.now) (put_in self)) }
    {
        let value = text_value(alloc, text)?;
        self.with(alloc, name, value)
    }

    /// With the JSON value of something as one more member, where there is one.
    pub fn with_some<T: ToJson>(
        self,
        alloc: Global,
        name: &str,
        some: &Option<T>,
    ) -> Result<Members, AllocError>
        ensures { IfOk result
            (λ members. put_in members
            ≡ put_some name.now (option_map T.json some.now) (put_in self)) }
    {
        let Some(one) = some else {
            return Ok(self);
        };
        let value = one.to_json(alloc)?;
        self.with(alloc, name, value)
    }

    /// With a list as one more member, where there is one.
    pub fn with_rows<T: ToJson>(
        self,
        alloc: Global,
        name: &str,
        rows: Option<&[T]>,
    ) -> Result<Members, AllocError>
        ensures { IfOk result (λ members. put_in members ≡ put_some name.now
            (option_map (λ list. list_data T.json list.now) rows.entry) (put_in self)) }
    {
        let Some(rows) = rows else {
            return Ok(self);
        };
        let value = list_value(alloc, rows)?;
        self.with(alloc, name, value)
    }

    pub fn into_value(self) -> Value
        ensures { view result ≡ object (put_in self) }
    {
        Value::Object(self.map)
    }
}
