//! A shelf in memory as a device: it tells what it holds.
ghost use Rattle.std.specs.Prelude.{Some};

use super::{MemoryShelf, has_names, moved, names_in, set};
use crate::{Bytes, Device, DeviceFault, Item, Kind, Names, Opened, Place};

impl Device for MemoryShelf {
    ghost use Rattle.js_shelf.specs.MemoryShelves.{contents_of};

    ghost contents = { λ shelf. Some (contents_of shelf) };

    fn kind(&mut self, place: &Place) -> Result<Kind, DeviceFault> {
        Ok(match self.items.get(place.as_str()) {
            None => Kind::Nothing,
            Some(Item::File(bytes)) => Kind::File(bytes.count()),
            Some(Item::Folder) => Kind::Folder,
        })
    }

    fn open(&mut self, place: &Place) -> Result<Opened, DeviceFault> {
        match self.items.get(place.as_str()) {
            Some(Item::File(bytes)) => Ok(Opened::Kept(bytes.copy()?)),
            _ => Err(DeviceFault::Failed),
        }
    }

    fn names(&mut self, place: &Place) -> Result<Names, DeviceFault> {
        Ok(Names::from(names_in(self.alloc, &self.items, place.as_str())?))
    }

    fn write(&mut self, place: &Place, bytes: &[u8]) -> Result<(), DeviceFault> {
        let key = String::from_str(self.alloc, place.as_str())?;
        let bytes = Bytes::from(Vec::from_slice(self.alloc, bytes)?);
        Ok(set(&mut self.items, key, Item::File(bytes))?)
    }

    fn make_folder(&mut self, place: &Place) -> Result<(), DeviceFault> {
        let key = String::from_str(self.alloc, place.as_str())?;
        Ok(set(&mut self.items, key, Item::Folder)?)
    }

    fn move_item(&mut self, from: &Place, to: &Place) -> Result<(), DeviceFault> {
        self.items = moved(self.alloc, &self.items, from.as_str(), to.as_str())?;
        Ok(())
    }

    fn remove_file(&mut self, place: &Place) -> Result<(), DeviceFault> {
        self.items.remove(place.as_str());
        Ok(())
    }

    fn remove_folder(&mut self, place: &Place) -> Result<bool, DeviceFault> {
        if has_names(&self.items, place.as_str()) {
            return Ok(false);
        }
        self.items.remove(place.as_str());
        Ok(true)
    }
}
