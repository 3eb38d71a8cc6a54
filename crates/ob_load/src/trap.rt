//! What a trap tells.

ghost use Rattle.std.specs.Prelude.{◌≡◌, [], vec_capacity, slice_get};
ghost use Rattle.ob_load.specs.Names.{NamesWithin};
ghost use Rattle.ob_load.specs.Parts as parts;
ghost use Rattle.ob_session.specs.Cells as cells;

use jk_language::Name;
use ob_link::SessionModule;
use ob_mean::TrapKind;

/// The number of a kind of trap.
pub(crate) fn trap_number(kind: TrapKind) -> u8
    ensures { result ≡ parts.trap_number kind }
{
    match kind {
        TrapKind::Index => 1,
        TrapKind::Divisor => 2,
        TrapKind::Label => 3,
        TrapKind::Assertion => 4,
        TrapKind::Character => 5,
        TrapKind::ShiftCount => 6,
        TrapKind::TextLength => 7,
        TrapKind::CallDepth => 8,
        TrapKind::Byte => 9,
        TrapKind::Guard => 10,
    }
}

/// The name of the module of this number; where there is none, no name.
fn name_at(modules: &[SessionModule], home: usize) -> &[u8]
    ensures { result.now ≡ cells.name_in (slice_get modules.now home) }
{
    match modules.get(home) {
        Some(module) => module.interface().name().as_slice(),
        None => &[],
    }
}

/// The same, written where there is room for it.
pub(crate) fn name_in(room: Vec<u8>, modules: &[SessionModule], home: usize) -> Name
    requires empty { room.items ≡ [] }
    requires long { NamesWithin modules.now (vec_capacity room) }
    ensures { result ≡ cells.name_in (slice_get modules.now home) }
{
    let mut name = room;
    match name.extend_from_slice(name_at(modules, home)) {
        Ok(()) => {}
        Err(_) => unreachable!(),
    }
    Name::from_vec(name)
}
