//! What stands on a shelf, and why a call is refused.
ghost use Rattle.std.specs.Prelude.{◌≡◌, IfOk, length, string_bytes};
ghost use Rattle.js_shelf.specs.declared.item.ShelfRefusal.TheVariants.{Memory};
ghost use Rattle.js_shelf.specs.Shelves.{kind_of};

use crate::DeviceFault;
use std::alloc::{AllocError, AllocFailed, Global};
use std::marker::Model;

/// The bytes of a file.
#[derive(Drop)]
pub struct Bytes {
    items: Vec<u8>,
}

impl Model for Bytes {
    ghost use Rattle.std.specs.Prelude.{List, ℕ};

    ghost Value = { List ℕ };

    ghost view = { λ b. b.items.items };
}

impl Bytes {
    /// The bytes.
    pub fn as_slice(&self) -> &[u8]
        ensures { result.now ≡ self.now }
    {
        self.items.as_slice()
    }

    /// How many there are.
    pub fn count(&self) -> u64
        ensures { result ≡ length self.now }
    {
        self.items.len() as u64
    }

    /// The `Vec` that they were made of.
    pub fn into_vec(self) -> Vec<u8>
        ensures { result.items ≡ self }
    {
        let Bytes { items } = self;
        items
    }

    /// Equal bytes.
    pub fn copy(&self) -> Result<Bytes, AllocError>
        ensures { IfOk result (λ copy. copy ≡ self.now) }
    {
        Ok(Bytes {
            items: self.items.clone()?,
        })
    }
}

impl From<Vec<u8>> for Bytes {
    ghost from_gives = { λ items b. b ≡ items.items };

    fn from(items: Vec<u8>) -> Bytes {
        Bytes { items }
    }
}

/// The name of a thing in its folder.
#[derive(Drop)]
pub struct Name {
    text: String,
}

impl Model for Name {
    ghost use Rattle.std.specs.Prelude.{List, ℕ, string_bytes};

    ghost Value = { List ℕ };

    ghost view = { λ n. string_bytes n.text };
}

impl Name {
    /// A name of that text.
    pub fn from_str(alloc: Global, text: &str) -> Result<Name, AllocError>
        ensures { IfOk result (λ name. name ≡ text.now) }
    {
        Ok(Name {
            text: String::from_str(alloc, text)?,
        })
    }

    /// A name that takes a text over.
    pub fn from_string(text: String) -> Name
        ensures { result ≡ string_bytes text }
    {
        Name { text }
    }

    /// Its text.
    pub fn as_str(&self) -> &str
        ensures { result.now ≡ self.now }
    {
        self.text.as_str()
    }
}

/// The names in a folder, in byte order.
#[derive(Drop)]
pub struct Names {
    items: Vec<Name>,
}

impl Model for Names {
    ghost use Rattle.std.specs.Prelude.{List, ℕ};

    ghost Value = { List (List ℕ) };

    ghost view = { λ n. n.items.items };
}

impl Names {
    /// The names.
    pub fn as_slice(&self) -> &[Name]
        ensures { result.now ≡ self.now }
    {
        self.items.as_slice()
    }
}

impl From<Vec<Name>> for Names {
    ghost from_gives = { λ items names. names ≡ items.items };

    fn from(items: Vec<Name>) -> Names {
        Names { items }
    }
}

/// What stands at a path.
#[derive(Drop)]
pub enum Item {
    File(Bytes),
    Folder,
}

/// What stands at a path, without the bytes of a file.
#[derive(Clone, Copy, Debug, PartialEq, Eq)]
pub enum ItemKind {
    /// A file, and how many bytes it has.
    File(u64),
    Folder,
}

impl Item {
    /// Its kind.
    pub fn kind(&self) -> ItemKind
        ensures { result ≡ kind_of self.now }
    {
        match self {
            Item::File(bytes) => ItemKind::File(bytes.count()),
            Item::Folder => ItemKind::Folder,
        }
    }

    /// An equal item.
    pub fn copy(&self) -> Result<Item, AllocError>
        ensures { IfOk result (λ copy. copy ≡ self.now) }
    {
        match self {
            Item::File(bytes) => Ok(Item::File(bytes.copy()?)),
            Item::Folder => Ok(Item::Folder),
        }
    }
}

/// Why a call of a shelf is refused. A call tests for `BadPath`, `Missing`, `Exists` and `NotEmpty` in this order.
#[derive(Clone, Copy, Debug, PartialEq, Eq)]
pub enum ShelfRefusal {
    /// Nothing stands at the path, or no folder where one is needed: at the parent of a new thing, or to list.
    Missing,
    /// Something stands at the path already.
    Exists,
    /// The text is no path, the root can't be meant, or a folder would be moved into itself.
    BadPath,
    /// The folder has something in it.
    NotEmpty,
    /// The device failed.
    Device,
    /// There was no memory.
    Memory,
}

impl From<DeviceFault> for ShelfRefusal {
    ghost use Rattle.std.specs.Prelude.{◌≡◌};
    ghost use Rattle.js_shelf.specs.Devices.{refusal_of};

    ghost from_gives = { λ fault refusal. refusal ≡ refusal_of fault };

    fn from(fault: DeviceFault) -> ShelfRefusal {
        match fault {
            DeviceFault::Failed => ShelfRefusal::Device,
            DeviceFault::Memory => ShelfRefusal::Memory,
        }
    }
}

impl From<AllocError> for ShelfRefusal {
    ghost from_gives = { λ _ e. e ≡ Memory };

    fn from(_: AllocError) -> ShelfRefusal {
        ShelfRefusal::Memory
    }
}

impl<T: Drop> From<AllocFailed<T>> for ShelfRefusal {
    ghost from_gives = { λ _ e. e ≡ Memory };

    fn from(_: AllocFailed<T>) -> ShelfRefusal {
        ShelfRefusal::Memory
    }
}
