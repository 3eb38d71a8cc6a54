//! A shelf whose device fails at a call.
ghost use Rattle.std.specs.Prelude.{◌≡◌, ◌≤◌, None};
ghost use Rattle.js_shelf.specs.Shelves.{HasCause};

use js_shelf::{
    DeviceFault, Item, ItemKind, MemoryShelf, Names, Opened, Opening, Shelf, ShelfRefusal,
};
use std::alloc::{AllocError, Global};

/// A shelf in memory, behind a device that fails at the call of number `fault`, counted from 1, and may say that each
/// file has so many bytes. The reading of a file counts as the call after its opening, and where it will fail, that is
/// among the failures from then on.
#[derive(Drop)]
pub struct FailingShelf {
    inner: MemoryShelf,
    calls: u64,
    fault: u64,
    failures: u64,
    said_len: Option<u64>,
}

impl FailingShelf {
    /// Nothing below the root, and a device that doesn't fail. `Err` where memory was refused.
    pub fn new(alloc: Global) -> Result<FailingShelf, AllocError> {
        Ok(FailingShelf {
            inner: MemoryShelf::new(alloc)?,
            calls: 0,
            fault: 0,
            failures: 0,
            said_len: None,
        })
    }

    /// The device fails at the call of that number from now on, or at none for 0.
    pub fn fail_at(&mut self, fault: u64) {
        self.calls = 0;
        self.fault = fault;
    }

    /// `kind` says from now on that each file has `len` bytes.
    pub fn say_len(&mut self, len: u64) {
        self.said_len = Some(len);
    }

    fn said(&self, kind: ItemKind) -> ItemKind {
        match (kind, self.said_len) {
            (ItemKind::File(_), Some(len)) => ItemKind::File(len),
            _ => kind,
        }
    }

    fn fails(&mut self) -> bool
        ensures { self.new.failures ≡ self.old.failures }
    {
        self.calls = self.calls.saturating_add(1);
        self.calls == self.fault
    }

    /// What was opened, or what can't be read where the next call fails.
    fn kept(&mut self, opening: Opening) -> Opening
        ensures { self.old.failures ≤ self.new.failures }
    {
        match opening {
            Opening::File(_) if self.fails() => {
                self.failures = self.failures.saturating_add(1);
                Opening::File(Opened::Fault(DeviceFault::Failed))
            }
            kept => kept,
        }
    }

    fn counted<T: Drop>(&mut self, outcome: Result<T, ShelfRefusal>) -> Result<T, ShelfRefusal>
        ensures { HasCause self.old.failures self.new.failures result }
    {
        if let Err(ShelfRefusal::Device) = outcome {
            self.failures = self.failures.saturating_add(1);
        }
        outcome
    }
}

impl Shelf for FailingShelf {
    ghost contents = { λ _. None };

    ghost faults = { λ shelf. shelf.failures };

    fn get(&mut self, path: &str) -> Result<Item, ShelfRefusal> {
        let outcome = if self.fails() {
            Err(ShelfRefusal::Device)
        } else {
            self.inner.get(path)
        };
        self.counted(outcome)
    }

    fn open(&mut self, path: &str) -> Result<Opening, ShelfRefusal> {
        let outcome = if self.fails() {
            Err(ShelfRefusal::Device)
        } else {
            self.inner.open(path)
        };
        let opening = self.counted(outcome)?;
        Ok(self.kept(opening))
    }

    fn kind(&mut self, path: &str) -> Result<ItemKind, ShelfRefusal> {
        let outcome = if self.fails() {
            Err(ShelfRefusal::Device)
        } else {
            self.inner.kind(path)
        };
        let kind = self.counted(outcome)?;
        Ok(self.said(kind))
    }

    fn list(&mut self, path: &str) -> Result<Names, ShelfRefusal> {
        let outcome = if self.fails() {
            Err(ShelfRefusal::Device)
        } else {
            self.inner.list(path)
        };
        self.counted(outcome)
    }

    fn put(&mut self, path: &str, item: Item) -> Result<(), ShelfRefusal> {
        let outcome = if self.fails() {
            Err(ShelfRefusal::Device)
        } else {
            self.inner.put(path, item)
        };
        self.counted(outcome)
    }

    fn rename(&mut self, from: &str, to: &str) -> Result<(), ShelfRefusal> {
        let outcome = if self.fails() {
            Err(ShelfRefusal::Device)
        } else {
            self.inner.rename(from, to)
        };
        self.counted(outcome)
    }

    fn delete(&mut self, path: &str) -> Result<(), ShelfRefusal> {
        let outcome = if self.fails() {
            Err(ShelfRefusal::Device)
        } else {
            self.inner.delete(path)
        };
        self.counted(outcome)
    }

    fn failures(&self) -> u64 {
        self.failures
    }
}
