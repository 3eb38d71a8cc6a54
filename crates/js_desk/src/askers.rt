//! Who has asked the desk, and is answered once.
ghost use Rattle.std.specs.Prelude.{◌≡◌, ◌∷◌, None, Some, IfSome, MatchBool, OnErr};
ghost use Rattle.js_desk.specs.Askers as spec;
ghost use Rattle.js_desk.specs.declared.asker.Cause.TheVariants.{Ended};

use crate::asker::{Asker, Cause};
use crate::ending::Endings;
use crate::held::Held;
use crate::kept::{Ender, KeptMade, KeptRequest};
use past::Past;
use std::alloc::{AllocError, Global};
use std::marker::Model;
use std::sync::Wait;
use std::time::Instant;

/// All who have asked: each was answered once, or waits. It can't be dropped, and ends by `close`, which answers those who wait.
pub struct Askers<W: Asker> {
    /// Who is to be answered now.
    turn: Option<W>,
    /// Who waits for the kernel that is made, and what comes of it.
    made: Option<KeptMade<W>>,
    /// Requests that wait to be looked at again.
    held: Held<KeptRequest<W>>,
    /// Who waits for kernels that are ending.
    endings: Endings<Ender<W>>,
    /// All who asked and all who were answered, as clauses see them.
    asked: Past<W>,
    answered: Past<W>,
}

impl<W: Asker> Model for Askers<W> {
    ghost use Rattle.std.specs.Prelude.{◌++◌};
    ghost use Rattle.std.specs.List.Sorted.{IsPermutation};
    ghost use Rattle.js_desk.specs.Endings.{waiting};
    ghost use Rattle.js_desk.specs.Askers.{AskersState, one};

    ghost Value = { AskersState W };

    ghost view = { λ a. record {
      asked = a.asked.items;
      answered = a.answered.items;
      turn = a.turn;
      made = a.made;
      held = a.held;
      ending = a.endings;
    } };

    ghost invariant = { λ a. IsPermutation a.asked.items (a.answered.items ++ (one a.turn ++ (one a.made ++ (a.held ++ waiting a.endings)))) };
}

/// Answers one for this cause.
fn dismiss_one<W: Asker, R: Wait>(rt: &R, cause: Cause, asker: W, answered: &mut Past<W>)
    requires { cause ≡ Ended → W.ends asker }
    ensures { answered.new.items ≡ asker ∷ answered.old.items }
{
    *answered = answered.and(&asker);
    asker.dismiss(rt, cause);
}

/// Sends one this reply.
fn reply_one<W: Asker, R: Wait>(rt: &R, reply: W::Reply, asker: W, answered: &mut Past<W>)
    requires { W.replies asker reply }
    ensures { answered.new.items ≡ asker ∷ answered.old.items }
{
    *answered = answered.and(&asker);
    asker.reply(rt, reply);
}

/// Answers all of them that what they asked to end has ended, or that they have waited for that long enough.
fn tell_ended<W: Asker, R: Wait>(rt: &R, enders: Vec<Ender<W>>, answered: &mut Past<W>)
    ensures { answered.new.items ≡ spec.after enders.items answered.old.items }
{
    for ender in enders {
        dismiss_one(rt, Cause::Ended, ender.into_asker(), answered);
    }
}

/// Answers all who wait with a request that the server stops.
fn tell_stopped<W: Asker, R: Wait>(rt: &R, held: Vec<KeptRequest<W>>, answered: &mut Past<W>)
    ensures { answered.new.items ≡ spec.after held.items answered.old.items }
{
    for kept in held {
        let KeptRequest { request: _, asker } = kept;
        dismiss_one(rt, Cause::Stops, asker, answered);
    }
}

impl<W: Asker> Askers<W> {
    /// Nobody has asked.
    pub fn new(alloc: Global) -> Askers<W>
        ensures { result ≡ spec.nobody }
    {
        Askers {
            turn: None,
            made: None,
            held: Held::new(alloc),
            endings: Endings::new(alloc),
            asked: Past::new(),
            answered: Past::new(),
        }
    }

    /// Whoever is to be answered now and was not is answered that it failed. Nobody is to be answered then.
    pub fn settle<R: Wait>(&mut self, rt: &R)
        ensures settled { self.new ≡ spec.answered_now self.old }
        ensures once { spec.AreAnsweredOnce self.new }
    {
        let Some(asker) = self.turn.take() else {
            return;
        };
        dismiss_one(rt, Cause::Failed, asker, &mut self.answered);
    }

    /// One more asks, and is to be answered now.
    pub fn ask<R: Wait>(&mut self, rt: &R, asker: W)
        ensures { self.new ≡ spec.asked_by asker (spec.answered_now self.old) }
    {
        self.settle(rt);
        self.asked = self.asked.and(&asker);
        self.turn = Some(asker);
    }

    /// Answers whoever is to be answered now, by a reply to what that one asked. Where that is nobody, the reply is dropped.
    pub fn answer<R: Wait>(&mut self, rt: &R, reply: W::Reply)
        requires { IfSome self.old.turn (λ asker. W.replies asker reply) }
        ensures { self.new ≡ spec.answered_now self.old }
    {
        let Some(asker) = self.turn.take() else {
            return;
        };
        reply_one(rt, reply, asker, &mut self.answered);
    }

    /// Whoever is to be answered now waits for the kernel that is made, with what comes of that. Where somebody waits for one already,
    /// or nobody is to be answered, nothing has changed, and what comes of it is given back.
    pub fn wait_for_made(&mut self, made: W::Made) -> Option<W::Made>
        requires { IfSome self.old.turn (λ asker. W.comes asker made) }
        ensures waits { result ≡ None → spec.WaitsForMade self.old self.new }
        ensures back { IfSome result (λ back. (back ≡ made) × (self.new ≡ self.old)) }
    {
        if self.made.is_some() {
            return Some(made);
        }
        let Some(asker) = self.turn.take() else {
            return Some(made);
        };
        self.made = Some(KeptMade { made, asker });
        None
    }

    /// What comes of the kernel that is made, if somebody waits for that: whoever does is to be answered now, and it is of what that
    /// one asked. There is nothing while another is to be answered.
    pub fn take_made(&mut self) -> Option<W::Made>
        ensures some { IfSome result (λ _. spec.ComesOfMade self.old self.new) }
        ensures comes { IfSome result (λ made. IfSome self.new.turn (λ asker. W.comes asker made)) }
        ensures none { result ≡ None → self.new ≡ self.old }
    {
        if self.turn.is_some() {
            return None;
        }
        let KeptMade { made, asker } = self.made.take()?;
        self.turn = Some(asker);
        Some(made)
    }

    /// Whoever is to be answered now waits with its request until that is looked at again. It says whether it does; else nothing has
    /// changed: there is no memory, or nobody is to be answered.
    pub fn hold(&mut self, request: W::Request) -> bool
        requires { IfSome self.old.turn (λ asker. W.asks asker request) }
        ensures { MatchBool result (spec.IsHeld self.old self.new) (self.new ≡ self.old) }
    {
        let Some(asker) = self.turn.take() else {
            return false;
        };
        match self.held.hold(KeptRequest { request, asker }) {
            None => true,
            Some(back) => {
                let KeptRequest { request: _, asker } = back;
                self.turn = Some(asker);
                false
            }
        }
    }

    /// All requests that wait are to be looked at again.
    pub fn look_again(&mut self)
        ensures { self.new ≡ self.old }
    {
        self.held.look_again();
    }

    /// The first request that is to be looked at again, if there is one: whoever asked it is to be answered now. There is none while
    /// another is to be answered.
    pub fn next_held(&mut self) -> Option<W::Request>
        ensures some { IfSome result (λ _. spec.ComesOfHeld self.old self.new) }
        ensures asks { IfSome result (λ request. IfSome self.new.turn (λ asker. W.asks asker request)) }
        ensures none { result ≡ None → self.new ≡ self.old }
    {
        if self.turn.is_some() {
            return None;
        }
        let KeptRequest { request, asker } = self.held.next()?;
        self.turn = Some(asker);
        Some(request)
    }

    /// The kernels that are ending, and who waits for them.
    pub fn endings(&self) -> &Endings<Ender<W>> {
        &self.endings
    }

    /// A kernel ends, and nobody waits for it yet. One that is ending already stays as it is.
    ///
    /// # Errors
    /// Where there is no memory. Nothing has changed.
    pub fn begin_end(&mut self, alloc: Global, kernel: &str) -> Result<(), AllocError>
        ensures alone { self.new ≡ record self.old { ending = self.new.ending } }
        ensures err { OnErr result (self.new ≡ self.old) }
    {
        self.endings.begin(alloc, kernel)
    }

    /// Whoever is to be answered now, and asked for an end, waits for that of a kernel, from now on. It says whether it does; else
    /// nothing has changed: the kernel is not ending, there is no memory, or nobody is to be answered.
    pub fn join(&mut self, kernel: &str, now: Option<Instant>) -> bool
        requires { IfSome self.old.turn W.ends }
        ensures { MatchBool result (spec.WaitsForEnd kernel.now self.old self.new) (self.new ≡ self.old) }
    {
        let Some(asker) = self.turn.take() else {
            return false;
        };
        match self.endings.join(kernel, Ender::new(asker), now) {
            None => true,
            Some(back) => {
                self.turn = Some(back.into_asker());
                false
            }
        }
    }

    /// Those who wait for the kernel in a row are answered, and it is ending still.
    pub fn let_go<R: Wait>(&mut self, rt: &R, alloc: Global, place: usize)
        ensures { spec.MayBe (spec.AreLetGo place) self.old self.new }
    {
        let Some(waiters) = self.endings.let_go(alloc, place) else {
            return;
        };
        tell_ended(rt, waiters, &mut self.answered);
    }

    /// The kernel in a row has ended: those who wait for that are answered.
    pub fn end<R: Wait>(&mut self, rt: &R, place: usize)
        ensures { spec.MayBe (spec.HaveEnded place) self.old self.new }
    {
        let Some(waiters) = self.endings.end(place) else {
            return;
        };
        tell_ended(rt, waiters, &mut self.answered);
    }

    /// Those who wait to be looked at again are answered that the server stops.
    pub fn stop<R: Wait>(&mut self, rt: &R, alloc: Global)
        ensures { self.new ≡ spec.none_held self.old }
    {
        let held = self.held.take_all(alloc);
        tell_stopped(rt, held, &mut self.answered);
    }

    /// Answers all who wait that the server stops.
    pub fn close<R: Wait>(self, rt: &R, alloc: Global) {
        let mut askers = self;
        askers.settle(rt);
        askers.stop(rt, alloc);
        for _ in 0..askers.endings.len() {
            askers.end(rt, 0);
        }
        let Askers {
            turn: _,
            made,
            held: _,
            endings: _,
            asked: _,
            answered: _,
        } = askers;
        if let Some(kept) = made {
            let KeptMade { made: _, asker } = kept;
            asker.dismiss(rt, Cause::Stops);
        }
    }
}
