//! JSON forms, over RFC 8259: values that are kept, texts, and the fields of an object, each with its fault.
#![tactic(auto)]

mod fault;
mod field;
mod kept;
mod list;
mod number;
mod parts;
mod shared;
mod text;
mod whole;

pub use fault::{Bad, Fault};
pub use field::{
    boolean_field_or, no_items_field, object_field, object_field_or_empty, text_field,
    text_field_or, whole_field_or,
};
pub use kept::Json;
pub use list::{joined_field, joined_text};
pub use number::Whole;
pub use parts::{
    given_part, needed_object, needed_text, needed_whole, optional_boolean, optional_text,
    optional_whole, part,
};
pub use shared::Shared;
pub use text::Text;
