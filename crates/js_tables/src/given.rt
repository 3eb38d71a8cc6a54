//! What is handed in with a request.
ghost use Rattle.std.specs.Prelude.{◌≡◌, ◌<◌, ◌^◌, IfOk};
ghost use Rattle.js_tables.specs.Given as spec;
ghost use Rattle.js_tables.specs.Moments.{IsDate};

use crate::moment::date_text;
use json_form::Text;
use std::alloc::{AllocError, Global};
use uuid::{Builder, Uuid};

/// The date of a moment, and four random words, for two identifiers.
#[derive(Drop)]
pub struct Given {
    pub date: Text,
    pub first: u64,
    pub second: u64,
    pub third: u64,
    pub fourth: u64,
}

#[tactic(auto, unfolding(crate::specs::Given::id_of))]
fn id_of(alloc: Global, high: u64, low: u64) -> Result<Text, AllocError>
    ensures { IfOk result (λ id. id ≡ spec.id_of high low) }
{
    let bytes = Uuid::from_u64_pair(high, low).into_bytes();
    let id = Builder::from_random_bytes(bytes).into_uuid();
    let mut buffer = Uuid::encode_buffer();
    Text::from_str(alloc, id.hyphenated().encode_lower(&mut buffer))
}

impl Given {
    /// A moment, in microseconds since 1970, and four random words.
    ///
    /// # Errors
    /// Where there is no memory.
    pub fn new(
        alloc: Global,
        moment: u64,
        first: u64,
        second: u64,
        third: u64,
        fourth: u64,
    ) -> Result<Given, AllocError>
        requires { moment < 2 ^ 57 }
        ensures { IfOk result (spec.IsGiven moment first second third fourth) }
    {
        Ok(Given {
            date: date_text(alloc, moment)?,
            first,
            second,
            third,
            fourth,
        })
    }

    /// The first identifier.
    ///
    /// # Errors
    /// Where there is no memory.
    pub fn first_id(&self, alloc: Global) -> Result<Text, AllocError>
        ensures { IfOk result (λ id. id ≡ spec.first_id self.now) }
    {
        id_of(alloc, self.first, self.second)
    }

    /// The second identifier.
    ///
    /// # Errors
    /// Where there is no memory.
    pub fn second_id(&self, alloc: Global) -> Result<Text, AllocError>
        ensures { IfOk result (λ id. id ≡ spec.second_id self.now) }
    {
        id_of(alloc, self.third, self.fourth)
    }
}
