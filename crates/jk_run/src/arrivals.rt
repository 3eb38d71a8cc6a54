//! Taking what arrives.
ghost use Rattle.std.specs.Prelude.{◌≡◌, ◌++◌, false, Some, MatchResult, IfNone};
ghost use Rattle.jk_log.specs.Log.{ended, takes};
ghost use Rattle.jk_queues.specs.Ends.{taker_view, taker_inbox, taken_by};
ghost use Rattle.jk_run.specs.Acts.{MovesKernel};
ghost use Rattle.jk_run.specs.Driver.{IsEmptied};
ghost use Rattle.jk_run.specs.Hand.{hand};

use jk_core::Kernel;
use jk_language::Language;
use jk_log::Arrival;
use jk_queues::{Spare, Taker};
use std::sync::Wait;

/// Takes the arrival in hand, and then arrivals until there are none or the kernel was shut down. One that finds no memory
/// in the kernel, also once the spare block is let go, is in hand after it.
pub(crate) fn take_arrivals<L: Language, R: Wait>(
    rt: &R,
    kernel: &mut Kernel<L>,
    taker: Taker,
    arrival: Option<Arrival>,
    spare: &mut Spare,
) -> (Taker, Option<Arrival>)
    requires { takes kernel.old.log ++ hand arrival ≡ taken_by taker }
    ensures took { takes kernel.new.log ++ hand result.1 ≡ taken_by result.0 }
    ensures same { taker_inbox result.0 ≡ taker_inbox taker }
    ensures none { IfNone result.1 (IsEmptied kernel.new.log (taker_view result.0)) }
    ensures acts { MovesKernel L.spoken kernel.old kernel.new }
{
    if kernel.ended() {
        return (taker, arrival);
    }
    match take_hand(kernel, arrival, spare) {
        Ok(()) => take_all(rt, kernel, taker, spare),
        Err(arrival) => (taker, Some(arrival)),
    }
}

/// Takes arrivals until there are none, the kernel was shut down, or one finds no memory.
fn take_all<L: Language, R: Wait>(
    rt: &R,
    kernel: &mut Kernel<L>,
    taker: Taker,
    spare: &mut Spare,
) -> (Taker, Option<Arrival>)
    requires { takes kernel.old.log ≡ taken_by taker }
    ensures took { takes kernel.new.log ++ hand result.1 ≡ taken_by result.0 }
    ensures same { taker_inbox result.0 ≡ taker_inbox taker }
    ensures none { IfNone result.1 (IsEmptied kernel.new.log (taker_view result.0)) }
    ensures acts { MovesKernel L.spoken kernel.old kernel.new }
{
    let mut taker = taker;
    for _ in rt.forever() {
        if kernel.ended() {
            return (taker, None);
        }
        let (same, first) = taker.pop(rt);
        let Some(arrival) = first else {
            return (same, None);
        };
        if let Err(arrival) = take_one(kernel, arrival, spare) {
            return (same, Some(arrival));
        }
        taker = same;
    }
    unreachable!()
}

/// Takes what is in hand, if anything is.
fn take_hand<L: Language>(
    kernel: &mut Kernel<L>,
    arrival: Option<Arrival>,
    spare: &mut Spare,
) -> Result<(), Arrival>
    requires { ended kernel.old.log ≡ false }
    ensures took { MatchResult result (λ _. takes kernel.new.log ≡ takes kernel.old.log ++ hand arrival) (λ back. (arrival ≡ Some back) × (kernel.new ≡ kernel.old)) }
    ensures acts { MovesKernel L.spoken kernel.old kernel.new }
{
    match arrival {
        Some(arrival) => take_one(kernel, arrival, spare),
        None => Ok(()),
    }
}

/// Takes an arrival. Where memory is refused, it lets the spare block go and tries once more.
fn take_one<L: Language>(
    kernel: &mut Kernel<L>,
    arrival: Arrival,
    spare: &mut Spare,
) -> Result<(), Arrival>
    requires { ended kernel.old.log ≡ false }
    ensures took { MatchResult result (λ _. takes kernel.new.log ≡ takes kernel.old.log ++ hand (Some arrival)) (λ back. (back ≡ arrival) × (kernel.new ≡ kernel.old)) }
    ensures acts { MovesKernel L.spoken kernel.old kernel.new }
{
    match try_take(kernel, arrival) {
        Ok(()) => Ok(()),
        Err(back) => {
            if spare.let_go() {
                try_take(kernel, back)
            } else {
                Err(back)
            }
        }
    }
}

/// Takes an arrival. It comes back where memory is refused.
fn try_take<L: Language>(kernel: &mut Kernel<L>, arrival: Arrival) -> Result<(), Arrival>
    requires { ended kernel.old.log ≡ false }
    ensures took { MatchResult result (λ _. takes kernel.new.log ≡ takes kernel.old.log ++ hand (Some arrival)) (λ back. (back ≡ arrival) × (kernel.new ≡ kernel.old)) }
    ensures acts { MovesKernel L.spoken kernel.old kernel.new }
{
    match kernel.take(arrival) {
        Ok(()) => Ok(()),
        Err(back) => Err(back.value),
    }
}
