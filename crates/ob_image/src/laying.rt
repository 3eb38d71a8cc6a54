//! The modules of an image one after the other.

ghost use Rattle.std.specs.Prelude.{◌≡◌, ◌<◌, ◌≤◌, ◌^◌, length, take, vec_capacity};
ghost use Rattle.ob_code.specs.Linked.{all_cells, AreLaid};
ghost use Rattle.ob_image.specs.Compiled as spec;

use ob_code::instr::LinkedModule;

/// Puts something in the place of that number, or after the others, for which there is room. It takes no memory.
#[tactic(auto, using(crate::proofs::Laid::put_within, crate::proofs::Laid::put_behind))]
pub fn put_at<T: Drop>(items: &mut Vec<T>, number: usize, item: T)
    requires there { number ≤ length items.old.items }
    requires room { length items.old.items < vec_capacity items.old }
    ensures { items.new.items ≡ spec.put_at items.old.items number item }
{
    if number < items.len() {
        items[number] = item;
        return;
    }
    match items.push(item) {
        Ok(()) => {}
        Err(_) => unreachable!(),
    }
}

/// The first cell after the modules before the one of this number, where these lie one after the other.
fn cells_before(code: &[LinkedModule], number: usize) -> usize
    requires there { number ≤ length code.now }
    requires laid { AreLaid 0 (take number code.now) }
    requires few { all_cells code.now < 2 ^ 64 }
    ensures { result ≡ all_cells (take number code.now) }
{
    if number == 0 {
        return 0;
    }
    let last = &code[number - 1];
    last.cells + last.code.cells
}

/// Lays the modules' cells one after the other, from 0 on, where those before the one of this number lie so. Nothing else of them
/// changes, and it takes no memory.
pub fn lay(code: &mut Vec<LinkedModule>, number: usize)
    requires there { number ≤ length code.old.items }
    requires laid { AreLaid 0 (take number code.old.items) }
    requires few { all_cells code.old.items < 2 ^ 64 }
    ensures { code.new.items ≡ spec.laid 0 code.old.items }
{
    let mut from = cells_before(code, number);
    for place in number..code.len() {
        let module = &mut code[place];
        module.cells = from;
        from += module.code.cells;
    }
}
