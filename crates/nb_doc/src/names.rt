//! A set of texts.

ghost use Rattle.std.specs.Prelude.{◌≡◌, ℕ, ◌+◌, ◌^◌, ◌<◌, [], List, length, not, ◌&&◌, ◌||◌, if◌then◌else◌, OnOk, OnErr, IfOk};
ghost use Rattle.std.specs.Str.{bytes_eq};
ghost use Rattle.nb_doc.specs.Ids.{is_among};

use std::alloc::{AllocError, Global};
use std::collections::BTreeSet;
use std::marker::Model;

/// Texts, each once, looked up without going over all of them. Contracts see them as a list in some order.
pub struct Names {
    names: BTreeSet<String>,
}

// Written out, so that a proof of a caller has one step for it.
impl Drop for Names {
    fn drop(self) {
        let Names { names: _ } = self;
    }
}

impl Model for Names {
    ghost use Rattle.std.specs.Prelude.{ℕ, List, map, string_bytes};

    ghost Value = { List (List ℕ) };

    ghost view = { λ n. map (λ s. string_bytes s) n.names.keys };
}

impl Names {
    /// None.
    pub fn empty(alloc: Global) -> Names
        ensures { result ≡ [] }
    {
        Names {
            names: BTreeSet::new(alloc),
        }
    }

    /// How many.
    pub fn len(&self) -> usize
        ensures value { result ≡ length self.now }
        ensures small { length self.now < 2 ^ 63 }
    {
        self.names.len()
    }

    /// Whether a text is among them.
    pub fn contains(&self, name: &str) -> bool
        ensures { result ≡ is_among self.now name.now }
    {
        self.names.contains(name)
    }

    /// Adds a text, and says whether it is new.
    pub fn add(&mut self, alloc: Global, name: &str) -> Result<bool, AllocError>
        ensures new { IfOk result (λ new. new ≡ not (is_among self.old name.now)) }
        ensures members { OnOk result
            ((id : List ℕ) → is_among self.new id ≡ (bytes_eq id name.now || is_among self.old id)) }
        ensures len { IfOk result
            (λ new. length self.new ≡ length self.old + (if new then 1 else 0)) }
        ensures err { OnErr result (self.new ≡ self.old) }
    {
        let new = self.names.insert(String::from_str(alloc, name)?)?;
        Ok(new)
    }

    /// Takes a text out, and says whether it was there.
    pub fn remove(&mut self, name: &str) -> bool
        ensures found { result ≡ is_among self.old name.now }
        ensures members { (id : List ℕ)
            → is_among self.new id ≡ (not (bytes_eq id name.now) && is_among self.old id) }
        ensures len { length self.new + (if result then 1 else 0) ≡ length self.old }
    {
        self.names.remove(name)
    }
}
