//! A JSON value that is kept as it was read.

ghost use Rattle.std.specs.Prelude.{◌≡◌, false, Err, IfOk, string_bytes};
ghost use Rattle.std.specs.Str.{IsUtf8};
ghost use Rattle.json_form.specs.declared.fault.Fault.TheVariants.{NotJson};
ghost use Rattle.json_form.specs.Forms.{Gives, whole_json, empty_object};
ghost use Rattle.serde_json.specs.Written.{has_float, compact_text};
ghost use Rattle.serde_json.specs.View.{view as data_of};

use crate::fault::{Bad, Fault};
use crate::whole::holds_float;
use serde_json::{Map, Value};
use std::alloc::{AllocError, Global};
use std::marker::Model;

/// A JSON value whose numbers are all whole.
pub struct Json {
    value: Value,
}

// Written out, so that a proof of a caller has one step for it.
impl Drop for Json {
    fn drop(self) {
        let Json { value: _ } = self;
    }
}

impl Model for Json {
    ghost use Rattle.std.specs.Prelude.{◌≡◌, false};
    ghost use Rattle.serde_json.specs.Data.{Data};
    ghost use Rattle.serde_json.specs.View.{view as data_of};
    ghost use Rattle.serde_json.specs.Written.{has_float};
    ghost use Rattle.json_form.specs.DataCode.{data_code};

    ghost Value = { Data };

    ghost coded = { data_code };

    ghost view = { λ j. data_of j.value };

    ghost invariant = { λ j. has_float (data_of j.value) ≡ false };
}

impl Json {
    /// The value of a text, if it is JSON (`NotJson`) whose numbers are whole (`NotWhole`), wherever they stand.
    /// What RFC 8259 leaves open: of equal keys the last stays, and 127 levels are read.
    #[tactic(auto, unfolding(crate::specs::Forms::whole_json))]
    pub fn read(alloc: Global, text: &str) -> Result<Json, Bad>
        ensures { Gives result (whole_json text.now) }
    {
        let value = match Value::from_str(alloc, text) {
            Ok(value) => value,
            Err(error) => {
                if error.is_memory() {
                    return Err(Bad::Memory);
                }
                return Err(Bad::Fault(Fault::NotJson));
            }
        };
        if holds_float(alloc, text)? {
            return Err(Bad::Fault(Fault::NotWhole));
        }
        Ok(Json { value })
    }

    /// The value of bytes, which are UTF-8 if they are JSON.
    pub fn read_bytes(alloc: Global, bytes: &[u8]) -> Result<Json, Bad>
        ensures text { IsUtf8 bytes.now → Gives result (whole_json bytes.now) }
        ensures other { ¬ (IsUtf8 bytes.now) → Gives result (Err NotJson) }
    {
        match std::str::from_utf8(bytes) {
            Ok(text) => Json::read(alloc, text),
            Err(_) => Err(Bad::Fault(Fault::NotJson)),
        }
    }

    /// `{}`.
    pub fn empty(alloc: Global) -> Json
        ensures { result ≡ empty_object }
    {
        Json {
            value: Value::Object(Map::new(alloc)),
        }
    }

    /// The value.
    pub fn value(&self) -> &Value
        ensures value { data_of result.now ≡ self.now }
        ensures whole { has_float self.now ≡ false }
    {
        &self.value
    }

    /// The value itself.
    pub fn into_value(self) -> Value
        ensures value { data_of result ≡ self }
        ensures whole { has_float self ≡ false }
    {
        let Json { value } = self;
        value
    }

    /// The JSON value that a value is.
    pub fn of_whole(value: Value) -> Json
        requires { has_float (data_of value) ≡ false }
        ensures { result ≡ data_of value }
    {
        Json { value }
    }

    /// A copy of a value.
    pub fn keep(value: &Value) -> Result<Json, AllocError>
        requires { has_float (data_of value.now) ≡ false }
        ensures { IfOk result (λ j. j ≡ data_of value.now) }
    {
        Ok(Json {
            value: value.clone()?,
        })
    }

    /// An equal value.
    pub fn copy(&self) -> Result<Json, AllocError>
        ensures { IfOk result (λ j. j ≡ self.now) }
    {
        Ok(Json {
            value: self.value.clone()?,
        })
    }

    /// The text with no space and sorted keys.
    pub fn write(&self, alloc: Global) -> Result<String, AllocError>
        ensures { IfOk result (λ s. string_bytes s ≡ compact_text self.now) }
    {
        self.value.to_string(alloc)
    }
}
