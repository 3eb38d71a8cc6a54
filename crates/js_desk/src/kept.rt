//! Who waits, and with what. What is kept with one who asked belongs to what that one asked, as the types say.

use crate::asker::Asker;
use std::marker::Model;

/// A request that is kept with who asked it.
#[derive(Drop)]
pub(crate) struct KeptRequest<W: Asker> {
    pub request: W::Request,
    pub asker: W,
}

impl<W: Asker> Model for KeptRequest<W> {
    ghost Value = { W };

    ghost view = { λ kept. kept.asker };

    ghost invariant = { λ kept. W.asks kept.asker kept.request };
}

/// What is made for one who asked, and of which a reply to that one comes.
#[derive(Drop)]
pub(crate) struct KeptMade<W: Asker> {
    pub made: W::Made,
    pub asker: W,
}

impl<W: Asker> Model for KeptMade<W> {
    ghost Value = { W };

    ghost view = { λ kept. kept.asker };

    ghost invariant = { λ kept. W.comes kept.asker kept.made };
}

/// One who asked that something ends.
#[derive(Drop)]
pub struct Ender<W: Asker> {
    asker: W,
}

impl<W: Asker> Model for Ender<W> {
    ghost Value = { W };

    ghost view = { λ kept. kept.asker };

    ghost invariant = { λ kept. W.ends kept.asker };
}

impl<W: Asker> Ender<W> {
    ghost use Rattle.std.specs.Prelude.{◌≡◌};

    /// One who asked that something ends.
    pub(crate) fn new(asker: W) -> Ender<W>
        requires { W.ends asker }
        ensures { result ≡ asker }
    {
        Ender { asker }
    }

    /// The one who asked.
    pub(crate) fn into_asker(self) -> W
        ensures asker { result ≡ self }
        ensures ends { W.ends result }
    {
        self.asker
    }
}
