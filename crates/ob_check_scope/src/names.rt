//! Rows of names, with a map from each to its place.

ghost use Rattle.std.specs.Prelude.{◌≡◌, [], ◌∷◌, ◌++◌, true, false, OnOk, OnErr};
ghost use Rattle.ob_check_scope.specs.Names as spec;

use ob_base::Text;
use std::alloc::{AllocError, Global};
use std::collections::HashMap;
use std::marker::Model;

/// Names in a row, with a map from each to its first place. Contracts see the list of them.
#[derive(Drop)]
pub struct Names {
    names: Vec<Text>,
    places: HashMap<Vec<u8>, usize>,
}

impl Model for Names {
    ghost use Rattle.std.specs.Prelude.{ℕ, List};
    ghost use Rattle.ob_check_scope.specs.Names.{ArePlaces};

    ghost Value = { List (List ℕ) };

    ghost view = { λ n. n.names.items };

    ghost invariant = { λ n. ArePlaces n.places n.names.items };
}

impl Names {
    /// No name.
    pub fn new(alloc: Global) -> Names
        ensures { result ≡ [] }
    {
        Names {
            names: Vec::new(alloc),
            places: HashMap::new(alloc),
        }
    }

    /// The names, the oldest first.
    pub fn as_slice(&self) -> &[Text]
        ensures { result.now ≡ self.now }
    {
        self.names.as_slice()
    }

    /// The first place of a name.
    pub fn place_of(&self, name: &Text) -> Option<usize>
        ensures { result ≡ spec.place_in self.now name.now }
    {
        match self.places.get(name.as_slice()) {
            Some(place) => Some(*place),
            None => None,
        }
    }

    /// Whether a name is among these.
    pub fn contains(&self, name: &Text) -> bool
        ensures { result ≡ spec.is_among self.now name.now }
    {
        self.places.contains_key(name.as_slice())
    }

    /// One name more. Lack of memory leaves them as they were.
    pub fn push(&mut self, alloc: Global, name: &Text) -> Result<(), AllocError>
        ensures ok { OnOk result (self.new ≡ self.old ++ name.now ∷ []) }
        ensures err { OnErr result (self.new ≡ self.old) }
    {
        if self.contains(name) {
            self.push_again(alloc, name)
        } else {
            self.push_new(alloc, name)
        }
    }

    fn push_again(&mut self, alloc: Global, name: &Text) -> Result<(), AllocError>
        requires { spec.is_among self.old name.now ≡ true }
        ensures ok { OnOk result (self.new ≡ self.old ++ name.now ∷ []) }
        ensures err { OnErr result (self.new ≡ self.old) }
    {
        let name = name.copy(alloc)?;
        self.names.push(name)?;
        Ok(())
    }

    fn push_new(&mut self, alloc: Global, name: &Text) -> Result<(), AllocError>
        requires { spec.is_among self.old name.now ≡ false }
        ensures ok { OnOk result (self.new ≡ self.old ++ name.now ∷ []) }
        ensures err { OnErr result (self.new ≡ self.old) }
    {
        let key = Vec::from_slice(alloc, name.as_slice())?;
        let name = name.copy(alloc)?;
        self.names.reserve(1)?;
        let place = self.names.len();
        self.places.insert(key, place)?;
        match self.names.push(name) {
            Ok(()) => Ok(()),
            Err(_) => unreachable!(),
        }
    }
}
