//! Places below the root of a device.
ghost use Rattle.std.specs.Prelude.{◌≡◌, true, IfOk};
ghost use Rattle.js_shelf.specs.Paths.{is_path, parent_of as parent_path};

use crate::path::parent_of;
use std::alloc::{AllocError, Global};
use std::marker::Model;

/// A path that is one, so that no segment of it is `..`. Contracts see its bytes. The empty path is the root.
#[derive(Drop)]
pub struct Place {
    alloc: Global,
    path: String,
}

impl Model for Place {
    ghost use Rattle.std.specs.Prelude.{◌≡◌, true, List, ℕ, string_bytes};
    ghost use Rattle.js_shelf.specs.Paths.{is_path};

    ghost Value = { List ℕ };

    ghost view = { λ place. string_bytes place.path };

    ghost invariant = { λ place. is_path (string_bytes place.path) ≡ true };
}

impl Place {
    /// The place of a path.
    pub fn new(alloc: Global, path: &str) -> Result<Place, AllocError>
        requires { is_path path.now ≡ true }
        ensures { IfOk result (λ place. place ≡ path.now) }
    {
        let path = String::from_str(alloc, path)?;
        Ok(Place { alloc, path })
    }

    /// The path.
    pub fn as_str(&self) -> &str
        ensures path { result.now ≡ self.now }
        ensures good { is_path self.now ≡ true }
    {
        self.path.as_str()
    }

    /// The folder that it stands in. The root's is the root.
    pub fn parent(&self) -> Result<Place, AllocError>
        ensures { IfOk result (λ place. place ≡ parent_path self.now) }
    {
        let path = String::from_str(self.alloc, parent_of(self.path.as_str()))?;
        Ok(Place {
            alloc: self.alloc,
            path,
        })
    }
}
