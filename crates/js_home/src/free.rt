//! A seat with its follower.
ghost use Rattle.std.specs.Prelude.{◌≡◌};
ghost use Rattle.jk_board.specs.Ends.{board_of};
ghost use Rattle.jk_queues.specs.Ends.{seat_inbox};

use jk_board::Follower;
use jk_language::Language;
use jk_queues::Seat;
use js_lend::Comes;

/// A seat of a kernel's inbox, and a follower of that kernel's board.
#[derive(Drop)]
pub struct Free<L: Language> {
    pub seat: Seat,
    pub follower: Follower<L>,
    ghost own: { board_of follower ≡ seat_inbox seat },
}

impl<L: Language> Comes for Free<L> {
    ghost use Rattle.js_home.specs.Served.{HasServed};

    ghost comes = { HasServed };
}

impl<L: Language> Free<L> {
    ghost use Rattle.js_home.specs.Served.{HasPassed};

    /// It has passed all that was shown before, and says whether that was possible: it is not where the kernel's board has ended.
    pub fn pass(self) -> (Free<L>, bool)
        ensures seat { result.0.seat ≡ self.seat }
        ensures passed { HasPassed self result.0 }
    {
        let Free { seat, follower } = self;
        let (follower, passed) = follower.pass();
        (Free { seat, follower }, passed.is_ok())
    }
}
