//! A shelf over a device, and a folder of the system as such a device.
#![tactic(auto)]

mod file;
mod system;

pub use file::FileShelf;
pub use system::SystemFolder;
