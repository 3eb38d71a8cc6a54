//! What the cells of a kernel hand from each to the next.

ghost use Rattle.std.specs.Prelude.{◌≡◌};
ghost use Rattle.ob_load.specs.Kept.{AreCheckable, IsKept};
ghost use Rattle.ob_load.specs.Names.{NamesWithin};
ghost use Rattle.ob_session.specs.Session.{opening};
ghost use Rattle.ob_image.specs.Stores.{session_of};

use ob_code::instr::LinkedModule;
use ob_image::KnownFaces;
use ob_link::Modules;
use ob_vm::Image;
use std::alloc::Global;
use std::marker::Model;

/// The modules that are loaded, their code, and their variables.
#[derive(Drop)]
pub struct Session {
    pub(crate) modules: Modules,
    pub(crate) known: Vec<KnownFaces>,
    pub(crate) image: Image,
    /// No module's name is longer than this.
    pub(crate) longest: usize,
}

impl Model for Session {
    ghost use Rattle.std.specs.Coded.{codes};
    ghost use Rattle.ob_types.specs.contracts.structure.ObType as structure;
    ghost use Rattle.ob_mean.specs.contracts.expression.TypedExpr as expression;
    ghost use Rattle.ob_mean.specs.contracts.shape.Shape as shape;
    ghost use Rattle.ob_mean.specs.contracts.statement.TypedStatement as statement;
    ghost use Rattle.ob_session.specs.Session as sessions;
    ghost use Rattle.ob_load.specs.ValueCode.{value_code};
    ghost use Rattle.ob_image.specs.Stores.{store_of};
    ghost use Rattle.ob_load.specs.Kept.{IsKept};
    ghost use Rattle.ob_load.specs.Names.{NamesWithin};

    ghost Value = { sessions.Session };

    ghost coded = { Prim.hlevel (codes, value_code, structure.the_row.coded, expression.the_row.coded, shape.the_row.coded, statement.the_row.coded) };

    ghost view = { λ s. record { modules = s.modules; store = store_of s.modules s.image.cells } };

    ghost invariant = { λ s. IsKept s.modules s.known.items s.image × NamesWithin s.modules s.longest };
}

impl Session {
    /// The session before the first cell: no module is loaded.
    pub fn new(alloc: Global) -> Session
        ensures { result ≡ opening }
    {
        let image = Image::of(Vec::new(alloc), Vec::new(alloc), Vec::new(alloc));
        Session {
            modules: Modules::new(alloc),
            known: Vec::new(alloc),
            image,
            longest: 0,
        }
    }

    /// The session of these modules, with an image of these parts.
    pub(crate) fn of(
        modules: Modules,
        known: Vec<KnownFaces>,
        parts: (Vec<LinkedModule>, Vec<bool>, Vec<i32>),
        longest: usize,
    ) -> Session
        requires kept { IsKept modules known.items (record { code = parts.0.items; may_run = parts.1.items; cells = parts.2.items }) }
        requires named { NamesWithin modules longest }
        ensures { result ≡ session_of modules parts.2.items }
    {
        let (code, may_run, cells) = parts;
        let image = Image::of(code, may_run, cells);
        Session {
            modules,
            known,
            image,
            longest,
        }
    }

    /// The modules that are loaded. They are such as the checker asks for.
    pub fn modules(&self) -> &Modules
        ensures value { result.now ≡ self.now.modules }
        ensures checkable { AreCheckable self.now.modules }
    {
        &self.modules
    }
}
