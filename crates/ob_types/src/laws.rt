//! Laws of the definitions.

ghost use Rattle.std.specs.Prelude.{◌≡◌, ◌↔◌, true};
ghost use Rattle.ob_types.specs.declared.structure.ObType.{ObType};
ghost use Rattle.ob_types.specs.Types.{same};

/// Two types are the same exactly where they are equal values.
pub fn same_type_law()
    ensures { (a b : ObType) → (same a b ≡ true) ↔ (a ≡ b) }
{}
