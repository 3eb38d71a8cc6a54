//! What keeps the files and folders of a shelf.
ghost use Rattle.std.specs.Prelude.{Option, Some, None};
ghost use Rattle.js_shelf.specs.declared.item.Item.TheVariants.{File, Folder};
ghost use Rattle.js_shelf.specs.Shelves.{Contents, Tells};
ghost use Rattle.js_shelf.specs.Devices.{Looks, Opens, TellsNames, Sets, Moves, RemovesFolder};

use crate::{Names, Opened, Place};
use std::alloc::{AllocError, AllocFailed};
use std::io;
use std::io::ErrorKind;

/// What stands at a place.
#[derive(Clone, Copy, Debug, PartialEq, Eq)]
pub enum Kind {
    Nothing,
    /// A file, and how many bytes it has.
    File(u64),
    Folder,
    /// Neither file nor folder, as a link is, wherever it leads.
    Other,
}

/// Why a device did not do what it was asked for.
#[derive(Clone, Copy, Debug, PartialEq, Eq)]
pub enum DeviceFault {
    Failed,
    /// There was no memory.
    Memory,
}

impl From<AllocError> for DeviceFault {
    ghost use Rattle.std.specs.Prelude.{◌≡◌};
    ghost use Rattle.js_shelf.specs.declared.device.DeviceFault.TheVariants.{Memory};

    ghost from_gives = { λ _ fault. fault ≡ Memory };

    fn from(_: AllocError) -> DeviceFault {
        DeviceFault::Memory
    }
}

impl<T: Drop> From<AllocFailed<T>> for DeviceFault {
    ghost use Rattle.std.specs.Prelude.{◌≡◌};
    ghost use Rattle.js_shelf.specs.declared.device.DeviceFault.TheVariants.{Memory};

    ghost from_gives = { λ _ fault. fault ≡ Memory };

    fn from(_: AllocFailed<T>) -> DeviceFault {
        DeviceFault::Memory
    }
}

impl From<io::Error> for DeviceFault {
    fn from(error: io::Error) -> DeviceFault {
        match error.kind() {
            ErrorKind::OutOfMemory => DeviceFault::Memory,
            _ => DeviceFault::Failed,
        }
    }
}

/// What keeps files and folders under one root. It is asked by places alone, so it never reaches beyond the root.
///
/// A device may tell what stands at each path (an honest one does); each call is then what it says of that map. It may
/// fail in any call: after `Memory` nothing has changed, and after `Failed` the places that the call was to change, and
/// what stands below them, hold anything.
pub trait Device {
    // What stands at each path, where the device tells it.
    ghost contents: { Self → Option Contents };

    /// What stands at the place: nothing where something on the way is no folder.
    fn kind(&mut self, place: &Place) -> Result<Kind, DeviceFault>
        ensures { Tells (contents self.old) (contents self.new) (Looks place.now result) };

    /// Opens the file at the place. What was opened stays as it was, whatever is written there afterwards.
    fn open(&mut self, place: &Place) -> Result<Opened, DeviceFault>
        ensures { Tells (contents self.old) (contents self.new) (Opens place.now result) };

    /// The names of what stands directly in the folder at the place, in byte order.
    fn names(&mut self, place: &Place) -> Result<Names, DeviceFault>
        ensures { Tells (contents self.old) (contents self.new) (TellsNames place.now result) };

    /// Writes a file at the place, over the file that is there.
    fn write(&mut self, place: &Place, bytes: &[u8]) -> Result<(), DeviceFault>
        ensures { Tells (contents self.old) (contents self.new) (Sets place.now (Some (File bytes.now)) result) };

    /// Makes an empty folder at the place, where nothing is.
    fn make_folder(&mut self, place: &Place) -> Result<(), DeviceFault>
        ensures { Tells (contents self.old) (contents self.new) (Sets place.now (Some Folder) result) };

    /// Moves what stands at a place, and below it, to a place where nothing is.
    fn move_item(&mut self, from: &Place, to: &Place) -> Result<(), DeviceFault>
        ensures { Tells (contents self.old) (contents self.new) (Moves from.now to.now result) };

    /// Removes the file at the place.
    fn remove_file(&mut self, place: &Place) -> Result<(), DeviceFault>
        ensures { Tells (contents self.old) (contents self.new) (Sets place.now None result) };

    /// Removes the folder at the place if nothing is in it, and tells whether it did.
    fn remove_folder(&mut self, place: &Place) -> Result<bool, DeviceFault>
        ensures { Tells (contents self.old) (contents self.new) (RemovesFolder place.now result) };
}
