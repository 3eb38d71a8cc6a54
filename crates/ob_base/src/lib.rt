//! What every crate of the language stands on: lists, boxes, shared values and texts that contracts see as
//! plain data, refusals, and phrases and readers over any state.
#![tactic(auto)]

mod boxed;
mod fault;
mod items;
mod shared;
mod shared_items;
mod text;

pub use boxed::Boxed;
pub use fault::{Code, Fault, Refused};
pub use items::Items;
pub use shared::Shared;
pub use shared_items::SharedItems;
pub use text::Text;
