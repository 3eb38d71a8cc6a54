//! A shelf in memory.
ghost use Rattle.std.specs.Prelude.{◌≡◌, ◌↔◌, Some, None, is_some, IfOk, OnOk, OnErr, IsTrue, IsSome};
ghost use Rattle.std.specs.BTreeMap.{get_by_text, IsOrdered};
ghost use Rattle.std.specs.String.{string_cmp};
ghost use Rattle.std.specs.Prelude.{ℕ, List, [], ◌&&◌, string_bytes};
ghost use Rattle.std.specs.Option.{option_copied, option_map};
ghost use Rattle.js_shelf.specs.Paths.{parent_of as parent_path, goes};
ghost use Rattle.js_shelf.specs.Memory as memory;
ghost use Rattle.js_shelf.specs.Shelves as spec;
ghost use Rattle.js_shelf.specs.declared.item.Item.TheVariants as items;

mod device;

use crate::path::{following, is_below, is_below_root, name_in, parent_of};
use crate::{Item, ItemKind, Name, Names, Opening, Shelf, ShelfRefusal, is_path};
use std::alloc::{AllocError, Global};
use std::collections::BTreeMap;

/// Files and folders in memory, by their paths; the root is among them. It has no device that could fail.
#[derive(Drop)]
pub struct MemoryShelf {
    alloc: Global,
    items: BTreeMap<String, Item>,
}

/// Whether a folder stands at the path.
fn has_folder(items: &BTreeMap<String, Item>, path: &str) -> bool
    ensures { result ≡ spec.is_folder (get_by_text items.now path.now) }
{
    matches!(items.get(path), Some(Item::Folder))
}

/// Whether anything stands at the path.
fn has_item(items: &BTreeMap<String, Item>, path: &str) -> bool
    ensures { result ≡ is_some (get_by_text items.now path.now) }
{
    items.contains_key(path)
}

/// Whether the place of a folder would be below itself.
fn is_into_itself(items: &BTreeMap<String, Item>, from: &str, to: &str) -> bool
    ensures { result ≡ (spec.is_folder (get_by_text items.now from.now) && spec.is_below from.now to.now) }
{
    has_folder(items, from) && is_below(from, to)
}

/// Whether something stands at `from` and a folder at the parent of `to`.
fn is_movable(items: &BTreeMap<String, Item>, from: &str, to: &str) -> bool
    ensures { result ≡ (is_some (get_by_text items.now from.now) && spec.is_folder (get_by_text items.now (parent_path to.now))) }
{
    has_item(items, from) && has_folder(items, parent_of(to))
}

/// Sets what stands at a path. After a refusal nothing has changed.
fn set(items: &mut BTreeMap<String, Item>, path: String, item: Item) -> Result<(), AllocError>
    ensures ok { OnOk result (spec.Same (spec.with_item (get_by_text items.old) (string_bytes path) (Some item)) (get_by_text items.new)) }
    ensures err { OnErr result (spec.Same (get_by_text items.old) (get_by_text items.new)) }
{
    items.insert(path, item)?;
    Ok(())
}

/// Whether a put of an item may take the place of what is there.
fn is_free_for(item: &Item, there: Option<&Item>) -> bool
    ensures { result ≡ spec.is_free_for item.now (option_copied there.entry) }
{
    match there {
        None => true,
        Some(there) => matches!(item, Item::File(_)) && matches!(there, Item::File(_)),
    }
}

/// Whether anything stands directly in the folder.
fn has_names(items: &BTreeMap<String, Item>, folder: &str) -> bool
    ensures { result ≡ memory.has_names folder.now items.now.entries }
{
    for (path, _) in items {
        if name_in(folder, path.as_str()).is_some() {
            return true;
        }
    }
    false
}

/// Whether a folder stands at the path, and anything in it.
fn is_full_folder(items: &BTreeMap<String, Item>, path: &str) -> bool
    ensures { result ≡ (spec.is_folder (get_by_text items.now path.now) && memory.has_names path.now items.now.entries) }
{
    has_folder(items, path) && has_names(items, path)
}

/// The names of what stands directly in the folder, in the order of the paths.
fn names_in(
    alloc: Global,
    items: &BTreeMap<String, Item>,
    folder: &str,
) -> Result<Vec<Name>, AllocError>
    ensures names { IfOk result (λ names. names.items ≡ memory.names_in folder.now items.now.entries) }
    ensures ordered { IsOrdered string_cmp items.now }
{
    let mut names = Vec::new(alloc);
    for (path, _) in items {
        if let Some(name) = name_in(folder, path.as_str()) {
            names.push(Name::from_str(alloc, name)?)?;
        }
    }
    Ok(names)
}

/// Where a path goes when what stands at `from` and below it goes to `to`.
fn moved_path(alloc: Global, path: &str, from: &str, to: &str) -> Result<Option<String>, AllocError>
    ensures { IfOk result (λ moved. option_map string_bytes moved ≡ goes from.now to.now path.now) }
{
    match following(from, path) {
        Some(rest) => {
            let mut text = String::from_str(alloc, to)?;
            text.push_str(rest)?;
            Ok(Some(text))
        }
        None if following(to, path).is_some() => Ok(None),
        None => Ok(Some(String::from_str(alloc, path)?)),
    }
}

/// The items after a move, as copies.
fn moved(
    alloc: Global,
    items: &BTreeMap<String, Item>,
    from: &str,
    to: &str,
) -> Result<BTreeMap<String, Item>, AllocError>
    ensures moved { IfOk result (λ moved. (path : List ℕ) → get_by_text moved path ≡ memory.moved_items from.now to.now items.now.entries path) }
    ensures ordered { IsOrdered string_cmp items.now }
{
    let mut moved = BTreeMap::new(alloc);
    for (path, item) in items {
        if let Some(path) = moved_path(alloc, path.as_str(), from, to)? {
            set(&mut moved, path, item.copy()?)?;
        }
    }
    Ok(moved)
}

impl MemoryShelf {
    ghost use Rattle.js_shelf.specs.MemoryShelves.{contents_of};

    /// A shelf with nothing below its root.
    pub fn new(alloc: Global) -> Result<MemoryShelf, AllocError>
        ensures { IfOk result (λ shelf. spec.Same (contents_of shelf) (spec.with_item (λ _. None) [] (Some items.Folder))) }
    {
        let mut items = BTreeMap::new(alloc);
        items.insert(String::new(alloc), Item::Folder)?;
        Ok(MemoryShelf { alloc, items })
    }
}

impl Shelf for MemoryShelf {
    ghost use Rattle.js_shelf.specs.MemoryShelves.{contents_of};

    ghost contents = { λ shelf. Some (contents_of shelf) };

    ghost faults = { λ _. 0 };

    fn get(&mut self, path: &str) -> Result<Item, ShelfRefusal> {
        if !is_path(path) {
            return Err(ShelfRefusal::BadPath);
        }
        match self.items.get(path) {
            Some(item) => Ok(item.copy()?),
            None => Err(ShelfRefusal::Missing),
        }
    }

    fn open(&mut self, path: &str) -> Result<Opening, ShelfRefusal> {
        if !is_path(path) {
            return Err(ShelfRefusal::BadPath);
        }
        match self.items.get(path) {
            Some(item) => Ok(Opening::of(item.copy()?)),
            None => Err(ShelfRefusal::Missing),
        }
    }

    fn kind(&mut self, path: &str) -> Result<ItemKind, ShelfRefusal> {
        if !is_path(path) {
            return Err(ShelfRefusal::BadPath);
        }
        match self.items.get(path) {
            Some(item) => Ok(item.kind()),
            None => Err(ShelfRefusal::Missing),
        }
    }

    fn list(&mut self, path: &str) -> Result<Names, ShelfRefusal> {
        if !is_path(path) {
            return Err(ShelfRefusal::BadPath);
        }
        if !has_folder(&self.items, path) {
            return Err(ShelfRefusal::Missing);
        }
        Ok(Names::from(names_in(self.alloc, &self.items, path)?))
    }

    fn put(&mut self, path: &str, item: Item) -> Result<(), ShelfRefusal> {
        if !is_below_root(path) {
            return Err(ShelfRefusal::BadPath);
        }
        if !has_folder(&self.items, parent_of(path)) {
            return Err(ShelfRefusal::Missing);
        }
        if !is_free_for(&item, self.items.get(path)) {
            return Err(ShelfRefusal::Exists);
        }
        let key = String::from_str(self.alloc, path)?;
        set(&mut self.items, key, item)?;
        Ok(())
    }

    fn rename(&mut self, from: &str, to: &str) -> Result<(), ShelfRefusal> {
        if !is_below_root(from) {
            return Err(ShelfRefusal::BadPath);
        }
        if !is_below_root(to) {
            return Err(ShelfRefusal::BadPath);
        }
        if is_into_itself(&self.items, from, to) {
            return Err(ShelfRefusal::BadPath);
        }
        if !is_movable(&self.items, from, to) {
            return Err(ShelfRefusal::Missing);
        }
        if has_item(&self.items, to) {
            return Err(ShelfRefusal::Exists);
        }
        self.items = moved(self.alloc, &self.items, from, to)?;
        Ok(())
    }

    fn delete(&mut self, path: &str) -> Result<(), ShelfRefusal> {
        if !is_below_root(path) {
            return Err(ShelfRefusal::BadPath);
        }
        if !has_item(&self.items, path) {
            return Err(ShelfRefusal::Missing);
        }
        if is_full_folder(&self.items, path) {
            return Err(ShelfRefusal::NotEmpty);
        }
        self.items.remove(path);
        Ok(())
    }

    fn failures(&self) -> u64 {
        0
    }
}
