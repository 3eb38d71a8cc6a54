//! Files that were opened. What was opened may be read by any thread, and the shelf goes on meanwhile.
ghost use Rattle.std.specs.Prelude.{IfOk};
ghost use Rattle.js_shelf.specs.Openings.{MayRead, MayGive, IsOpening};

use crate::{Bytes, DeviceFault, Item};
use std::alloc::Global;
use std::fs::File;
use std::io::Read;

/// A file of the system that is open. It is closed where this is dropped.
#[derive(Drop)]
pub struct SystemFile {
    alloc: Global,
    file: File,
    room: u64,
    most: u64,
}

impl SystemFile {
    /// An open file that has `len` bytes now, and of which at most `most` are read. The bytes will be in memory of `alloc`.
    pub fn new(alloc: Global, file: File, len: u64, most: u64) -> SystemFile {
        SystemFile {
            alloc,
            file,
            room: len.min(most),
            most,
        }
    }

    /// All its bytes. More than `most` of them are a fault.
    fn read(self) -> Result<Bytes, DeviceFault> {
        // Room for the whole file at once, and for one byte that would show that it has grown.
        let room = (self.room as usize).saturating_add(1);
        let mut bytes = Vec::with_capacity(self.alloc, room)?;
        self.file
            .take(self.most.saturating_add(1))
            .read_to_end(&mut bytes)?;
        if bytes.len() as u64 > self.most {
            return Err(DeviceFault::Failed);
        }
        Ok(Bytes::from(bytes))
    }
}

/// A file that was opened. It stays the file that stood at its path then: what is put there afterwards is another one.
#[derive(Drop)]
pub enum Opened {
    /// These bytes.
    Kept(Bytes),
    /// A file of the system, of which nothing is known before it is read.
    System(SystemFile),
    /// What can't be read.
    Fault(DeviceFault),
}

impl Opened {
    /// Its bytes.
    ///
    /// # Errors
    /// Where the device fails, a file of the system has more bytes than are read, or there is no memory.
    pub fn read(self) -> Result<Bytes, DeviceFault>
        ensures { IfOk result (MayRead self) }
    {
        match self {
            Opened::Kept(bytes) => Ok(bytes),
            Opened::System(file) => file.read(),
            Opened::Fault(fault) => Err(fault),
        }
    }
}

/// What was opened at a path.
#[derive(Drop)]
pub enum Opening {
    File(Opened),
    Folder,
}

impl Opening {
    /// What an item opens to. Its bytes are taken over.
    pub fn of(item: Item) -> Opening
        ensures { IsOpening result item }
    {
        match item {
            Item::File(bytes) => Opening::File(Opened::Kept(bytes)),
            Item::Folder => Opening::Folder,
        }
    }

    /// The item: a folder, or a file with its bytes.
    ///
    /// # Errors
    /// As those of `Opened::read`.
    pub fn read(self) -> Result<Item, DeviceFault>
        ensures { IfOk result (MayGive self) }
    {
        match self {
            Opening::File(opened) => Ok(Item::File(opened.read()?)),
            Opening::Folder => Ok(Item::Folder),
        }
    }
}
