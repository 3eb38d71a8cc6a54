//! What a shelf does, whatever keeps it.
ghost use Rattle.std.specs.Prelude.{◌≡◌, ℕ, Option};
ghost use Rattle.js_shelf.specs.Shelves.{Contents, Tells, HasCause, Gets, Opens, Kinds, Lists, Puts, Renames, Deletes};

use crate::{Item, ItemKind, Names, Opening, ShelfRefusal};

/// Files and folders under one root: a map from paths to items. A path is a text of at most 16 segments with a slash
/// between two; the empty text is the root, which is a folder and stays one. A segment has 1 to 255 bytes, is neither
/// `.` nor `..`, and has no backslash and no character below U+0020.
///
/// Where a device tells what it holds, each call is that of the map, and a refusal is the first fault of the call in
/// the order `BadPath`, `Missing`, `Exists`, `NotEmpty`; after these and after `Memory` nothing has changed. `Device`
/// and `Memory` may come in any call. After `Device` the paths that the call named, and what stands below them, hold
/// anything until a later put succeeds.
pub trait Shelf {
    // What stands at each path, where the device tells it (an honest one does).
    ghost contents: { Self → Option Contents };

    // How often the device has failed in calls of the shelf.
    ghost faults: { Self → ℕ };

    /// What stands at the path: a folder, or a file with its bytes. Refused with `BadPath`, `Missing`.
    fn get(&mut self, path: &str) -> Result<Item, ShelfRefusal>
        ensures answer { Tells (contents self.old) (contents self.new) (Gets path.now result) }
        ensures cause { HasCause (faults self.old) (faults self.new) result };

    /// Opens what stands at the path: a folder, or a file whose bytes are read later, by whoever has it. It stays as it was, whatever
    /// the shelf does afterwards. A fault of that reading is no fault of a call of the shelf. Refused with `BadPath`, `Missing`.
    fn open(&mut self, path: &str) -> Result<Opening, ShelfRefusal>
        ensures answer { Tells (contents self.old) (contents self.new) (Opens path.now result) }
        ensures cause { HasCause (faults self.old) (faults self.new) result };

    /// What stands at the path, told without reading a file: what `get` says, but for the bytes. Refused with `BadPath`,
    /// `Missing`.
    fn kind(&mut self, path: &str) -> Result<ItemKind, ShelfRefusal>
        ensures answer { Tells (contents self.old) (contents self.new) (Kinds path.now result) }
        ensures cause { HasCause (faults self.old) (faults self.new) result };

    /// The names of what stands in a folder, in byte order. Refused with `BadPath`, or with `Missing` where no folder
    /// stands at the path.
    fn list(&mut self, path: &str) -> Result<Names, ShelfRefusal>
        ensures answer { Tells (contents self.old) (contents self.new) (Lists path.now result) }
        ensures cause { HasCause (faults self.old) (faults self.new) result };

    /// Puts a file or an empty folder at the path. A file takes the place of a file. Refused with `BadPath` (the root
    /// too), `Missing` where the parent is no folder, `Exists` where anything else is there.
    fn put(&mut self, path: &str, item: Item) -> Result<(), ShelfRefusal>
        ensures answer { Tells (contents self.old) (contents self.new) (Puts path.now item result) }
        ensures cause { HasCause (faults self.old) (faults self.new) result };

    /// Moves a file, or a folder with what is below it. Refused with `BadPath` (the root too, and a folder to a place
    /// below itself), `Missing` where nothing is at `from` or the parent of `to` is no folder, `Exists` where anything
    /// is at `to`.
    fn rename(&mut self, from: &str, to: &str) -> Result<(), ShelfRefusal>
        ensures answer { Tells (contents self.old) (contents self.new) (Renames from.now to.now result) }
        ensures cause { HasCause (faults self.old) (faults self.new) result };

    /// Takes a file or an empty folder away. Refused with `BadPath` (the root too), `Missing`, `NotEmpty`.
    fn delete(&mut self, path: &str) -> Result<(), ShelfRefusal>
        ensures answer { Tells (contents self.old) (contents self.new) (Deletes path.now result) }
        ensures cause { HasCause (faults self.old) (faults self.new) result };

    /// How often the device has failed in calls of the shelf; the count stays at 2^64 - 1.
    fn failures(&self) -> u64
        ensures { result ≡ faults self.now };
}
