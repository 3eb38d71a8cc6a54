//! One folder of the system as a device. This file names the system's calls; what it opens is read in js_shelf.
ghost use Rattle.std.specs.Prelude.{◌≡◌, None, IfOk, string_bytes};
ghost use Rattle.js_shelf.specs.Places.{below_root};

use itoa::Buffer;
use js_shelf::{Device, DeviceFault, Kind, Name, Names, Opened, Place, SystemFile, is_step};
use std::alloc::{AllocError, Global};
use std::fs::{File, OpenFile, OpenOptions};
use std::io::{ErrorKind, Write};
use std::os::unix::fs::MetadataExt;
use std::rt::Files;
use std::{fs, io};

/// How many bytes a file has at most.
const MAX_FILE_LEN: u64 = 1 << 30;

/// The name of a file that is written before it takes the place of another begins so, and goes on with a number. No
/// segment can be this.
const SPARE: &str = "\\new";

/// How many names of such files are tried.
const MAX_TRIES: u64 = 10_000;

/// The files and folders below one folder of the system, its root. It tells nothing of what it holds.
///
/// Links below the root are not followed, and are neither files nor folders. A file over 2^30 bytes is a fault, and so
/// is each call on a path that is too long for the system after the root's: Linux takes 4,096 bytes.
///
/// A write makes a new file beside the old one, with the old one's mode, and with its bytes on the disk, before it takes
/// the old one's place: a crash leaves the old file or the new one. The new file has a name that nothing had, so that
/// two servers in one folder never write one file. Where a write fails, the new file is removed again. After each change
/// the folder's own entry is brought to the disk too. What a crash leaves goes with its folder.
///
/// So a file that was opened keeps its bytes, whatever is written at its path afterwards. Only a process that writes into that very
/// file changes them.
#[derive(Drop)]
pub struct SystemFolder<R: Files<File = File> + AllocGlobal + Clone + Drop> {
    rt: R,
    root: String,
    // The number of the last new file.
    spares: u64,
}

impl<R: Files<File = File> + AllocGlobal + Clone + Drop> SystemFolder<R> {
    /// That folder of the system, which is there.
    pub fn new(rt: R, root: &str) -> Result<SystemFolder<R>, AllocError>
        ensures { IfOk result (λ folder. string_bytes folder.root ≡ root.now) }
    {
        let root = String::from_str(rt.alloc(), root)?;
        Ok(SystemFolder {
            rt,
            root,
            spares: 0,
        })
    }

    /// The path that the system is given for a place: the root's, or after it a slash and the place's own.
    fn path_of(&self, place: &Place) -> Result<String, AllocError>
        ensures { IfOk result (λ path. string_bytes path ≡ below_root (string_bytes self.now.root) place.now) }
    {
        let mut path = String::from_str(self.rt.alloc(), self.root.as_str())?;
        if !place.as_str().is_empty() {
            path.push_str("/")?;
            path.push_str(place.as_str())?;
        }
        Ok(path)
    }

    /// What stands at a place, where each thing on the way is a folder and no link.
    fn look(&self, place: &Place) -> Result<Option<fs::Metadata>, DeviceFault> {
        let mut path = String::from_str(self.rt.alloc(), self.root.as_str())?;
        if place.as_str().is_empty() {
            return told(again(|| fs::metadata(&self.rt, path.as_str())));
        }
        let mut found = None;
        for segment in place.as_str().split('/') {
            if found.is_some_and(|metadata: fs::Metadata| !metadata.is_dir()) {
                return Ok(None);
            }
            path.push_str("/")?;
            path.push_str(segment)?;
            found = told(again(|| fs::symlink_metadata(&self.rt, path.as_str())))?;
            if found.is_none() {
                return Ok(None);
            }
        }
        Ok(found)
    }

    /// Whether the opened file is the one that stands at a place.
    fn is_at(&self, place: &Place, opened: &fs::Metadata) -> Result<bool, DeviceFault> {
        match self.look(place)? {
            None => Ok(false),
            Some(found) => Ok(found.is_file() && is_same(&found, opened)),
        }
    }

    /// A new file in a folder of the system, with its path. Nothing had its name.
    fn new_spare(&mut self, folder: &str) -> Result<(R::File, String), DeviceFault> {
        for _ in 0..MAX_TRIES {
            self.spares = self.spares.wrapping_add(1);
            let path = spare_path(self.rt.alloc(), folder, self.spares)?;
            match new_file(&self.rt, path.as_str()) {
                Ok(file) => return Ok((file, path)),
                Err(error) if error.kind() == ErrorKind::AlreadyExists => {}
                Err(error) => return Err(error.into()),
            }
        }
        Err(DeviceFault::Failed)
    }

    /// Removes what crashes left in a folder of the system, where nothing else is in it.
    fn sweep(&self, folder: &str) -> Result<(), DeviceFault> {
        let mut left = Vec::new(self.rt.alloc());
        for entry in fs::read_dir(&self.rt, folder)? {
            let Ok(entry) = entry else {
                return Ok(());
            };
            if !entry.file_name().starts_with(SPARE) {
                return Ok(());
            }
            let mut path = String::from_str(self.rt.alloc(), folder)?;
            path.push_str("/")?;
            path.push_str(entry.file_name())?;
            left.push(path)?;
        }
        for path in left {
            let _ = fs::remove_file(&self.rt, path.as_str());
        }
        Ok(())
    }
}

/// The path of a new file of that number.
fn spare_path(alloc: Global, folder: &str, number: u64) -> Result<String, AllocError> {
    let mut buffer = Buffer::new();
    let mut path = String::from_str(alloc, folder)?;
    path.push_str("/")?;
    path.push_str(SPARE)?;
    path.push_str(buffer.format(number))?;
    Ok(path)
}

/// A call that is made again where a signal interrupted it.
fn again<T: Drop, C: FnMut() -> io::Result<T> + Drop>(mut call: C) -> io::Result<T>
    requires { (f : C) → C.pre f }
{
    for _ in 0..MAX_TRIES {
        match call() {
            Err(error) if error.kind() == ErrorKind::Interrupted => {}
            done => return done,
        }
    }
    call()
}

/// Whether both are of one file.
fn is_same(one: &fs::Metadata, other: &fs::Metadata) -> bool {
    one.dev() == other.dev() && one.ino() == other.ino()
}

fn kind_of(metadata: &fs::Metadata) -> Kind {
    if metadata.is_dir() {
        Kind::Folder
    } else if metadata.is_file() {
        Kind::File(metadata.len())
    } else {
        Kind::Other
    }
}

fn is_nothing(error: &io::Error) -> bool {
    matches!(error.kind(), ErrorKind::NotFound | ErrorKind::NotADirectory)
}

fn told(answer: io::Result<fs::Metadata>) -> Result<Option<fs::Metadata>, DeviceFault> {
    match answer {
        Ok(metadata) => Ok(Some(metadata)),
        Err(error) if is_nothing(&error) => Ok(None),
        Err(error) => Err(error.into()),
    }
}

/// Makes a file, where nothing has its name.
fn new_file<R: Files>(rt: &R, path: &str) -> io::Result<R::File> {
    OpenOptions::new()
        .write(true)
        .create_new(true)
        .open(rt, path)
}

/// Writes a new file's bytes, which are on the disk when that returns.
fn fill<F: OpenFile + Write + Drop>(
    mut file: F,
    mode: Option<fs::Permissions>,
    bytes: &[u8],
) -> io::Result<()> {
    if let Some(mode) = mode {
        file.set_permissions(mode)?;
    }
    file.write_all(bytes)?;
    file.sync_all()
}

/// The mode of the file at a path, if one is there.
fn mode_at<R: Files>(rt: &R, path: &str) -> Option<fs::Permissions> {
    match fs::symlink_metadata(rt, path) {
        Ok(metadata) if metadata.is_file() => Some(metadata.permissions()),
        _ => None,
    }
}

/// Brings to the disk what was changed in a folder.
fn keep_folder<R: Files>(rt: &R, path: &str) -> Result<(), DeviceFault> {
    match fs::open(rt, path) {
        Ok(folder) => folder.sync_all().map_err(|_| DeviceFault::Failed),
        Err(_) => Err(DeviceFault::Failed),
    }
}

/// Whether an entry of a folder is a file or a folder. What can't be told is neither.
fn is_item<R: Files>(entry: &fs::DirEntry<R>) -> Result<bool, DeviceFault> {
    match entry.metadata() {
        Ok(metadata) => Ok(metadata.is_dir() || metadata.is_file()),
        Err(error) if error.kind() == ErrorKind::OutOfMemory => Err(DeviceFault::Memory),
        Err(_) => Ok(false),
    }
}

impl<R: Files<File = File> + AllocGlobal + Clone + Drop> Device for SystemFolder<R> {
    ghost contents = { λ _. None };

    fn kind(&mut self, place: &Place) -> Result<Kind, DeviceFault> {
        match self.look(place)? {
            None => Ok(Kind::Nothing),
            Some(metadata) => Ok(kind_of(&metadata)),
        }
    }

    /// What was opened is the file that stands there, before and afterwards: no link that another process put in its
    /// place in between. A write puts a new file into its place, so what was opened keeps its bytes.
    fn open(&mut self, place: &Place) -> Result<Opened, DeviceFault> {
        let Some(looked) = self.look(place)? else {
            return Err(DeviceFault::Failed);
        };
        if !looked.is_file() {
            return Err(DeviceFault::Failed);
        }
        let file = fs::open(&self.rt, self.path_of(place)?.as_str())?;
        let opened = file.metadata()?;
        if !is_same(&looked, &opened) || !self.is_at(place, &opened)? {
            return Err(DeviceFault::Failed);
        }
        if opened.len() > MAX_FILE_LEN {
            return Err(DeviceFault::Failed);
        }
        Ok(Opened::System(SystemFile::new(self.rt.alloc(), file, opened.len(), MAX_FILE_LEN)))
    }

    /// Links, other things and names that are no segments are left out.
    fn names(&mut self, place: &Place) -> Result<Names, DeviceFault> {
        let mut texts = Vec::new(self.rt.alloc());
        for entry in fs::read_dir(&self.rt, self.path_of(place)?.as_str())? {
            match entry {
                Ok(entry) => {
                    let name = entry.file_name();
                    if is_step(name.as_bytes()) && is_item(&entry)? {
                        texts.push(String::from_str(self.rt.alloc(), name)?)?;
                    }
                }
                Err(error) if error.kind() == ErrorKind::InvalidFilename => {}
                Err(error) => return Err(error.into()),
            }
        }
        texts.sort()?;
        let mut names = Vec::new(self.rt.alloc());
        for text in texts {
            names.push(Name::from_string(text))?;
        }
        Ok(Names::from(names))
    }

    fn write(&mut self, place: &Place, bytes: &[u8]) -> Result<(), DeviceFault> {
        if bytes.len() as u64 > MAX_FILE_LEN {
            return Err(DeviceFault::Failed);
        }
        let path = self.path_of(place)?;
        let folder = self.path_of(&place.parent()?)?;
        let mode = mode_at(&self.rt, path.as_str());
        let (file, spare) = self.new_spare(folder.as_str())?;
        let mut done = fill(file, mode, bytes);
        if done.is_ok() {
            done = again(|| fs::rename(&self.rt, spare.as_str(), path.as_str()));
        }
        if let Err(error) = done {
            let _ = fs::remove_file(&self.rt, spare.as_str());
            return Err(error.into());
        }
        keep_folder(&self.rt, folder.as_str())
    }

    fn make_folder(&mut self, place: &Place) -> Result<(), DeviceFault> {
        let path = self.path_of(place)?;
        let folder = self.path_of(&place.parent()?)?;
        again(|| fs::create_dir(&self.rt, path.as_str()))?;
        keep_folder(&self.rt, folder.as_str())
    }

    fn move_item(&mut self, from: &Place, to: &Place) -> Result<(), DeviceFault> {
        let source = self.path_of(from)?;
        let target = self.path_of(to)?;
        let left = self.path_of(&from.parent()?)?;
        let entered = self.path_of(&to.parent()?)?;
        again(|| fs::rename(&self.rt, source.as_str(), target.as_str()))?;
        keep_folder(&self.rt, entered.as_str())?;
        keep_folder(&self.rt, left.as_str())
    }

    fn remove_file(&mut self, place: &Place) -> Result<(), DeviceFault> {
        let path = self.path_of(place)?;
        let folder = self.path_of(&place.parent()?)?;
        again(|| fs::remove_file(&self.rt, path.as_str()))?;
        keep_folder(&self.rt, folder.as_str())
    }

    fn remove_folder(&mut self, place: &Place) -> Result<bool, DeviceFault> {
        let path = self.path_of(place)?;
        let folder = self.path_of(&place.parent()?)?;
        self.sweep(path.as_str())?;
        match again(|| fs::remove_dir(&self.rt, path.as_str())) {
            Ok(()) => {
                keep_folder(&self.rt, folder.as_str())?;
                Ok(true)
            }
            Err(error) if error.kind() == ErrorKind::DirectoryNotEmpty => Ok(false),
            Err(error) => Err(error.into()),
        }
    }
}
