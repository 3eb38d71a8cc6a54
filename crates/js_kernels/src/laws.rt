//! What holds of each list of calls.
ghost use Rattle.std.specs.Prelude.{List, []};
ghost use Rattle.js_kernels.specs.Told.{KernelState};
ghost use Rattle.js_kernels.specs.Events.{Event, Run};
ghost use Rattle.js_kernels.specs.Lives.{AreLived};

use jk_language::Language;

/// Whatever happens to kernels, from where there are none: each of them came to its state by its own deeds, which are those of the
/// events that found it. What its seat 0 has told is the commands that were answered as told to it, in order. Of what is read for its
/// recorder nothing is left out and nothing comes twice: it is what had passed before, then what that was told, then what is held.
pub fn server_law<L: Language>()
    ensures { (es : List Event) (kernels : List KernelState) → Run L L.Session L.Tree L.Machine [] es kernels → AreLived L L.Session L.Tree L.Machine es kernels }
{}
