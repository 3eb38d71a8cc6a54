//! What is known of a loaded module, and of those that it imports.

ghost use Rattle.std.specs.Prelude.{◌≡◌};

use ob_base::Items;
use ob_mean::Face;
use std::marker::Model;

/// What importing modules know of a module, and what was known of those that it imports when its code was made.
#[derive(Drop)]
pub struct KnownFaces {
    face: Face,
    faces: Items<Face>,
}

impl Model for KnownFaces {
    ghost use Rattle.std.specs.Coded.{codes};
    ghost use Rattle.ob_mean.specs.contracts.shape.Shape as shape;
    ghost use Rattle.ob_image.specs.Compiled.{Known};

    ghost Value = { Known };

    ghost coded = { Prim.hlevel (codes, shape.the_row.coded) };

    ghost view = { λ k. record { face = k.face; faces = k.faces } };
}

impl KnownFaces {
    /// What is known of a module, and of those that it imports in their order.
    pub fn new(face: Face, faces: Items<Face>) -> KnownFaces
        ensures { result ≡ record { face = face; faces = faces } }
    {
        KnownFaces { face, faces }
    }

    /// What importing modules know of it.
    pub fn face(&self) -> &Face
        ensures { result.now ≡ self.now.face }
    {
        &self.face
    }

    /// What was known of those that it imports, in the order of the imports.
    pub fn faces(&self) -> &[Face]
        ensures { result.now ≡ self.now.faces }
    {
        self.faces.as_slice()
    }
}
