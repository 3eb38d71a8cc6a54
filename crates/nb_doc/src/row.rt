//! JSON values that become a list.

ghost use Rattle.std.specs.Prelude.{◌≡◌, false, [], ◌∷◌, ◌++◌, OnOk, OnErr};
ghost use Rattle.serde_json.specs.View.{view as data_of};
ghost use Rattle.serde_json.specs.Written.{has_float};
ghost use Rattle.nb_doc.specs.Writing.{array_of};

use serde_json::Value;
use std::alloc::{AllocError, Global};
use std::marker::Model;

/// Values whose numbers are whole, in order.
pub struct Row {
    values: Vec<Value>,
}

// Written out, so that a proof of a caller has one step for it.
impl Drop for Row {
    fn drop(self) {
        let Row { values: _ } = self;
    }
}

impl Model for Row {
    ghost use Rattle.std.specs.Prelude.{◌≡◌, false, List, map};
    ghost use Rattle.std.specs.Coded.{coded_list};
    ghost use Rattle.serde_json.specs.Data.{Data};
    ghost use Rattle.serde_json.specs.View.{view as data_of, items_of};
    ghost use Rattle.serde_json.specs.Written.{items_have_float};
    ghost use Rattle.json_form.specs.DataCode.{data_code};

    ghost Value = { List Data };

    ghost coded = { coded_list data_code };

    ghost view = { λ r. map data_of r.values.items };

    ghost invariant = { λ r. items_have_float (items_of (map data_of r.values.items)) ≡ false };
}

impl Row {
    /// No values.
    pub fn empty(alloc: Global) -> Row
        ensures { result ≡ [] }
    {
        Row {
            values: Vec::new(alloc),
        }
    }

    /// One more at the end.
    pub fn push(&mut self, value: Value) -> Result<(), AllocError>
        requires { has_float (data_of value) ≡ false }
        ensures ok { OnOk result (self.new ≡ self.old ++ data_of value ∷ []) }
        ensures err { OnErr result (self.new ≡ self.old) }
    {
        self.values.push(value)?;
        Ok(())
    }

    /// The list.
    pub fn into_value(self) -> Value
        ensures form { data_of result ≡ array_of self }
        ensures whole { has_float (data_of result) ≡ false }
    {
        let Row { values } = self;
        Value::Array(values)
    }
}
