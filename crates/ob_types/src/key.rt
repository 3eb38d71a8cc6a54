//! The key of a module: the text of its interface.

ghost use Rattle.std.specs.Prelude.{◌≡◌, ◌≤◌, ◌↔◌, drop, length, IfOk, IsTrue, MatchOption};
ghost use Rattle.std.specs.Str.{bytes_eq};
ghost use Rattle.ob_types.specs.InterfaceText as spec;
ghost use Rattle.ob_types.specs.Numbered as numbered_spec;

use crate::exports::Exported;
use crate::interface_writing::put_exports;
use crate::keyed::{Interface, interface_text};
use std::alloc::{AllocError, Global};
use std::marker::Model;

/// The key of a module. Contracts see the text, as bytes. What is kept is one more owner of the interface.
#[derive(Drop)]
pub struct Key {
    interface: Interface,
}

impl Model for Key {
    ghost use Rattle.std.specs.Prelude.{ℕ, List};
    ghost use Rattle.ob_types.specs.InterfaceText.{interface_text};

    ghost Value = { List ℕ };

    ghost view = { λ k. interface_text k.interface };
}

fn are_apart(left: &[u8], right: &[u8]) -> bool
    ensures { result ≡ numbered_spec.are_apart left.now right.now }
{
    for i in 0..left.len() {
        if i >= right.len() {
            return false;
        }
        if left[i] != right[i] {
            return true;
        }
    }
    false
}

/// Whether the lines of two names differ in a place that both have. Or lack of memory.
fn lines_apart(alloc: Global, left: &[Exported], right: &[Exported]) -> Result<bool, AllocError>
    ensures { IfOk result (λ b. b ≡ numbered_spec.are_apart (spec.exports_text left.now) (spec.exports_text right.now)) }
{
    let mut line = String::new(alloc);
    put_exports(&mut line, left)?;
    let mut other = String::new(alloc);
    put_exports(&mut other, right)?;
    Ok(are_apart(line.as_bytes(), other.as_bytes()))
}

/// Those from a place on.
fn rest_from(exports: &[Exported], place: usize) -> &[Exported]
    requires { place ≤ length exports.now }
    ensures { result.now ≡ drop place exports.now }
{
    &exports[place..]
}

/// Whether two lists of exported names, of which the first are not seen to be the same, have one text, where this is seen from the
/// first names alone.
fn same_rest(
    alloc: Global,
    left: &[Exported],
    right: &[Exported],
) -> Result<Option<bool>, AllocError>
    ensures { IfOk result (λ seen. MatchOption seen Unit (λ b. IsTrue b ↔ (spec.exports_text left.now ≡ spec.exports_text right.now))) }
{
    match (left, right) {
        ([], []) => Ok(Some(true)),
        ([], [_, ..]) => Ok(Some(false)),
        ([_, ..], []) => Ok(Some(false)),
        ([_, ..], [_, ..]) => {
            if lines_apart(alloc, &left[..1], &right[..1])? {
                return Ok(Some(false));
            }
            Ok(None)
        }
    }
}

/// Whether two interfaces have the same text, as it is written out.
fn same_text(alloc: Global, left: &Interface, right: &Interface) -> Result<bool, AllocError>
    ensures { IfOk result (λ b. b ≡ bytes_eq (spec.interface_text left.now) (spec.interface_text right.now)) }
{
    let left = interface_text(alloc, left)?;
    let right = interface_text(alloc, right)?;
    Ok(left.as_bytes() == right.as_bytes())
}

impl Key {
    /// The key of the module with this interface, in constant time and without memory. Refused only where no more owners of the
    /// interface can be counted.
    pub fn new(interface: &Interface) -> Result<Key, AllocError>
        ensures { IfOk result (λ k. k ≡ spec.interface_text interface.now) }
    {
        let interface = interface.another()?;
        Ok(Key { interface })
    }

    /// The same key, in constant time and without memory.
    pub fn another(&self) -> Result<Key, AllocError>
        ensures { IfOk result (λ k. k ≡ self.now) }
    {
        Key::new(&self.interface)
    }

    /// Whether this is the key of the module with an interface. No text is written out but where two lines differ, or where it
    /// can't be seen from the first such lines.
    ///
    /// # Errors
    ///
    /// Out of memory.
    pub fn is_of(&self, alloc: Global, interface: &Interface) -> Result<bool, AllocError>
        ensures { IfOk result (λ b. b ≡ bytes_eq (spec.interface_text interface.now) self.now) }
    {
        if !interface.name().same(self.interface.name()) {
            return same_text(alloc, interface, &self.interface);
        }
        let same = interface.same_before(&self.interface);
        let left = rest_from(interface.exports(), same);
        let right = rest_from(self.interface.exports(), same);
        match same_rest(alloc, left, right)? {
            Some(seen) => Ok(seen),
            None => same_text(alloc, interface, &self.interface),
        }
    }
}
