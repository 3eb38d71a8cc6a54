//! Files and folders under one root: a map from paths to items, and this map in memory.
#![tactic(auto)]

mod device;
mod item;
mod memory;
mod opened;
mod path;
mod place;
mod shelf;

pub use device::{Device, DeviceFault, Kind};
pub use item::{Bytes, Item, ItemKind, Name, Names, ShelfRefusal};
pub use memory::MemoryShelf;
pub use opened::{Opened, Opening, SystemFile};
pub use path::{is_below, is_below_root, is_path, is_step};
pub use place::Place;
pub use shelf::Shelf;
