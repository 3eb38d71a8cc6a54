//! The code of a module over what is known of its imports.

ghost use Rattle.std.specs.Prelude.{IfOk};
ghost use Rattle.ob_mean.specs.WellFormed.{IsWellFormed};
ghost use Rattle.ob_gen.specs.Generated.{IsGenerated};

use ob_code::checked::Checked;
use ob_gen::generate;
use ob_mean::{Face, TypedModule};
use std::alloc::{AllocError, Global};

/// The code of a module whose tree is well formed over what is known of its imports, as the static rules see to it. Where the code
/// is linked, it does what the tree means.
///
/// # Errors
///
/// Those of `generate`.
pub fn compile(alloc: Global, faces: &[Face], tree: &TypedModule) -> Result<Checked, AllocError>
    requires { IsWellFormed faces.now tree.now }
    ensures { IfOk result (IsGenerated faces.now tree.now) }
{
    generate(alloc, faces, tree)
}
