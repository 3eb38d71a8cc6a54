//! A shelf over a device.
ghost use Rattle.std.specs.Prelude.{◌≡◌, ◌&&◌, is_some, IfOk};
ghost use Rattle.js_shelf.specs.Shelves.{HasCause, Tells, Gets, Opens, Kinds, Lists, Puts, Renames, Deletes, is_folder, is_below};
ghost use Rattle.js_shelf.specs.Devices.{Finds, Reads};

use crate::system::SystemFolder;
use js_shelf::{
    Bytes, Device, DeviceFault, Item, ItemKind, Kind, Names, Opening, Place, Shelf, ShelfRefusal,
    is_below, is_below_root, is_path,
};
use std::alloc::{AllocError, Global};
use std::fs::File;
use std::rt::Files;

/// The files and folders that a device keeps, or those below one folder of the system, its root.
///
/// Where the device tells what it holds, the shelf tells the same, and each call is that of the map. A folder of the
/// system tells nothing. A link below its root is not followed, and stands in the way: what is behind one is `Missing`,
/// what would be put on one is `Exists`.
#[derive(Drop)]
pub struct FileShelf<D: Device + Drop> {
    alloc: Global,
    device: D,
    failures: u64,
}

impl<R: Files<File = File> + AllocGlobal + Clone + Drop> FileShelf<SystemFolder<R>> {
    /// A shelf over that folder of the system, which is there.
    pub fn new(rt: R, root: &str) -> Result<FileShelf<SystemFolder<R>>, AllocError>
        ensures { IfOk result (λ shelf. shelf.failures ≡ 0) }
    {
        let alloc = rt.alloc();
        let device = SystemFolder::new(rt, root)?;
        Ok(FileShelf::over(alloc, device))
    }
}

impl<D: Device + Drop> FileShelf<D> {
    /// A shelf over that device.
    pub fn over(alloc: Global, device: D) -> FileShelf<D>
        ensures device { result.device ≡ device }
        ensures failures { result.failures ≡ 0 }
    {
        FileShelf {
            alloc,
            device,
            failures: 0,
        }
    }
}

/// Counts a fault of the device.
fn counted<T: Drop>(failures: &mut u64, outcome: Result<T, ShelfRefusal>) -> Result<T, ShelfRefusal>
    ensures same { result ≡ outcome }
    ensures cause { HasCause failures.old failures.new result }
{
    if let Err(ShelfRefusal::Device) = outcome {
        *failures = failures.saturating_add(1);
    }
    outcome
}

/// The bytes of the file at the place.
fn read_file<D: Device>(device: &mut D, place: &Place) -> Result<Bytes, DeviceFault>
    ensures { Tells (D.contents device.old) (D.contents device.new) (Reads place.now result) }
{
    device.open(place)?.read()
}

fn read_item<D: Device>(device: &mut D, alloc: Global, path: &str) -> Result<Item, ShelfRefusal>
    ensures { Tells (D.contents device.old) (D.contents device.new) (Gets path.now result) }
{
    if !is_path(path) {
        return Err(ShelfRefusal::BadPath);
    }
    let place = Place::new(alloc, path)?;
    match device.kind(&place)? {
        Kind::File(_) => Ok(Item::File(read_file(device, &place)?)),
        Kind::Folder => Ok(Item::Folder),
        Kind::Nothing | Kind::Other => Err(ShelfRefusal::Missing),
    }
}

fn open_item<D: Device>(device: &mut D, alloc: Global, path: &str) -> Result<Opening, ShelfRefusal>
    ensures { Tells (D.contents device.old) (D.contents device.new) (Opens path.now result) }
{
    if !is_path(path) {
        return Err(ShelfRefusal::BadPath);
    }
    let place = Place::new(alloc, path)?;
    match device.kind(&place)? {
        Kind::File(_) => Ok(Opening::File(device.open(&place)?)),
        Kind::Folder => Ok(Opening::Folder),
        Kind::Nothing | Kind::Other => Err(ShelfRefusal::Missing),
    }
}

fn read_kind<D: Device>(device: &mut D, alloc: Global, path: &str) -> Result<ItemKind, ShelfRefusal>
    ensures { Tells (D.contents device.old) (D.contents device.new) (Kinds path.now result) }
{
    if !is_path(path) {
        return Err(ShelfRefusal::BadPath);
    }
    let place = Place::new(alloc, path)?;
    match device.kind(&place)? {
        Kind::File(count) => Ok(ItemKind::File(count)),
        Kind::Folder => Ok(ItemKind::Folder),
        Kind::Nothing | Kind::Other => Err(ShelfRefusal::Missing),
    }
}

fn read_names<D: Device>(device: &mut D, alloc: Global, path: &str) -> Result<Names, ShelfRefusal>
    ensures { Tells (D.contents device.old) (D.contents device.new) (Lists path.now result) }
{
    if !is_path(path) {
        return Err(ShelfRefusal::BadPath);
    }
    let place = Place::new(alloc, path)?;
    match device.kind(&place)? {
        Kind::Folder => Ok(device.names(&place)?),
        Kind::Nothing | Kind::File(_) | Kind::Other => Err(ShelfRefusal::Missing),
    }
}

fn write_item<D: Device>(
    device: &mut D,
    alloc: Global,
    path: &str,
    item: &Item,
) -> Result<(), ShelfRefusal>
    ensures { Tells (D.contents device.old) (D.contents device.new) (Puts path.now item.now result) }
{
    if !is_below_root(path) {
        return Err(ShelfRefusal::BadPath);
    }
    let place = Place::new(alloc, path)?;
    let folder = place.parent()?;
    if !has_folder(device, &folder)? {
        return Err(ShelfRefusal::Missing);
    }
    match (device.kind(&place)?, item) {
        (Kind::Nothing | Kind::File(_), Item::File(bytes)) => {
            Ok(device.write(&place, bytes.as_slice())?)
        }
        (Kind::Nothing, Item::Folder) => Ok(device.make_folder(&place)?),
        _ => Err(ShelfRefusal::Exists),
    }
}

/// Whether a folder stands at the place.
fn has_folder<D: Device>(device: &mut D, place: &Place) -> Result<bool, DeviceFault>
    ensures { Tells (D.contents device.old) (D.contents device.new) (Finds (λ m found. found ≡ is_folder (m place.now)) result) }
{
    Ok(device.kind(place)? == Kind::Folder)
}

/// Whether a file or a folder stands at the place.
fn has_item<D: Device>(device: &mut D, place: &Place) -> Result<bool, DeviceFault>
    ensures { Tells (D.contents device.old) (D.contents device.new) (Finds (λ m found. found ≡ is_some (m place.now)) result) }
{
    Ok(matches!(device.kind(place)?, Kind::File(_) | Kind::Folder))
}

/// Whether anything stands at the place, a link too.
fn is_taken<D: Device>(device: &mut D, place: &Place) -> Result<bool, DeviceFault>
    ensures { Tells (D.contents device.old) (D.contents device.new) (Finds (λ m found. found ≡ is_some (m place.now)) result) }
{
    Ok(device.kind(place)? != Kind::Nothing)
}

/// Whether the place of a folder would be below itself.
fn is_into_itself<D: Device>(device: &mut D, from: &Place, to: &Place) -> Result<bool, DeviceFault>
    ensures { Tells (D.contents device.old) (D.contents device.new) (Finds (λ m found. found ≡ (is_folder (m from.now) && is_below from.now to.now)) result) }
{
    Ok(has_folder(device, from)? && is_below(from.as_str(), to.as_str()))
}

/// Whether something stands at the place, and that is a folder.
fn is_movable<D: Device>(device: &mut D, from: &Place, folder: &Place) -> Result<bool, DeviceFault>
    ensures { Tells (D.contents device.old) (D.contents device.new) (Finds (λ m found. found ≡ (is_some (m from.now) && is_folder (m folder.now))) result) }
{
    Ok(has_item(device, from)? && has_folder(device, folder)?)
}

fn move_to<D: Device>(
    device: &mut D,
    alloc: Global,
    from: &str,
    to: &str,
) -> Result<(), ShelfRefusal>
    ensures { Tells (D.contents device.old) (D.contents device.new) (Renames from.now to.now result) }
{
    if !is_below_root(from) || !is_below_root(to) {
        return Err(ShelfRefusal::BadPath);
    }
    let source = Place::new(alloc, from)?;
    let target = Place::new(alloc, to)?;
    let folder = target.parent()?;
    if is_into_itself(device, &source, &target)? {
        return Err(ShelfRefusal::BadPath);
    }
    if !is_movable(device, &source, &folder)? {
        return Err(ShelfRefusal::Missing);
    }
    if is_taken(device, &target)? {
        return Err(ShelfRefusal::Exists);
    }
    Ok(device.move_item(&source, &target)?)
}

fn remove_item<D: Device>(device: &mut D, alloc: Global, path: &str) -> Result<(), ShelfRefusal>
    ensures { Tells (D.contents device.old) (D.contents device.new) (Deletes path.now result) }
{
    if !is_below_root(path) {
        return Err(ShelfRefusal::BadPath);
    }
    let place = Place::new(alloc, path)?;
    match device.kind(&place)? {
        Kind::File(_) => Ok(device.remove_file(&place)?),
        Kind::Folder => {
            if device.remove_folder(&place)? {
                Ok(())
            } else {
                Err(ShelfRefusal::NotEmpty)
            }
        }
        Kind::Nothing | Kind::Other => Err(ShelfRefusal::Missing),
    }
}

impl<D: Device + Drop> Shelf for FileShelf<D> {
    ghost contents = { λ shelf. D.contents shelf.device };

    ghost faults = { λ shelf. shelf.failures };

    fn get(&mut self, path: &str) -> Result<Item, ShelfRefusal> {
        let result = read_item(&mut self.device, self.alloc, path);
        counted(&mut self.failures, result)
    }

    fn open(&mut self, path: &str) -> Result<Opening, ShelfRefusal> {
        let result = open_item(&mut self.device, self.alloc, path);
        counted(&mut self.failures, result)
    }

    fn kind(&mut self, path: &str) -> Result<ItemKind, ShelfRefusal> {
        let result = read_kind(&mut self.device, self.alloc, path);
        counted(&mut self.failures, result)
    }

    fn list(&mut self, path: &str) -> Result<Names, ShelfRefusal> {
        let result = read_names(&mut self.device, self.alloc, path);
        counted(&mut self.failures, result)
    }

    fn put(&mut self, path: &str, item: Item) -> Result<(), ShelfRefusal> {
        let result = write_item(&mut self.device, self.alloc, path, &item);
        counted(&mut self.failures, result)
    }

    fn rename(&mut self, from: &str, to: &str) -> Result<(), ShelfRefusal> {
        let result = move_to(&mut self.device, self.alloc, from, to);
        counted(&mut self.failures, result)
    }

    fn delete(&mut self, path: &str) -> Result<(), ShelfRefusal> {
        let result = remove_item(&mut self.device, self.alloc, path);
        counted(&mut self.failures, result)
    }

    fn failures(&self) -> u64 {
        self.failures
    }
}
