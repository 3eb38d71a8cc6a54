//! Who asks the desk.
ghost use Rattle.std.specs.Prelude.{◌≡◌};
ghost use Rattle.js_desk.specs.declared.asker.Cause.TheVariants.{Ended};

use std::sync::Wait;

/// Why one is answered without a reply of its own.
#[derive(Clone, Copy)]
pub enum Cause {
    /// The kernel has ended for whose end it waited, or it has waited for that long enough.
    Ended,
    /// Memory was refused.
    Failed,
    /// The server stops.
    Stops,
}

/// One who asks, and waits for one reply.
pub trait Asker: Drop {
    /// What is asked.
    type Request: Drop;

    /// What is replied.
    type Reply: Drop;

    /// What the reply waits for, where a kernel is made first.
    type Made: Drop;

    /// This is what it asked.
    ghost asks: { Self → Self.Request → Type 0 };

    /// This is a reply to what it asked.
    ghost replies: { Self → Self.Reply → Type 0 };

    /// What comes of this is a reply to what it asked.
    ghost comes: { Self → Self.Made → Type 0 };

    /// It asked that something ends.
    ghost ends: { Self → Type 0 };

    /// Sends the reply.
    fn reply<R: Wait>(self, rt: &R, reply: Self::Reply)
        requires { replies self reply };

    /// Sends the reply for a cause. Only who asked for an end is told of one.
    fn dismiss<R: Wait>(self, rt: &R, cause: Cause)
        requires { cause ≡ Ended → ends self };
}
