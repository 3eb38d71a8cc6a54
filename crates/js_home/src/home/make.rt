//! How a home is made.
ghost use Rattle.std.specs.Prelude.{◌≡◌, [], All, IfOk};
ghost use Rattle.jk_board.specs.Ends.{board_of};
ghost use Rattle.jk_queues.specs.Ends.{seat_inbox, AreAllOf};
ghost use Rattle.js_home.specs.Homes.{lent_of};

use super::Home;
use crate::free::Free;
use jk_board::Follower;
use jk_language::Language;
use jk_queues::Seats;
use std::alloc::{AllocError, Global};

impl<L: Language> Home<L> {
    /// A home with all seats of a kernel's inbox, each but seat 0 with a follower of its own of that kernel's board; place 1 is
    /// lent first.
    ///
    /// # Errors
    /// Where memory is refused.
    pub fn new(
        alloc: Global,
        seats: Seats,
        followers: [Follower<L>; 7],
    ) -> Result<Home<L>, AllocError>
        requires seats { AreAllOf (seat_inbox seats.zero) seats }
        requires followers { All (λ f. board_of f ≡ seat_inbox seats.zero) followers }
        ensures { IfOk result (λ home. (home.zero ≡ seats.zero) × (lent_of home ≡ [])) }
    {
        let Seats {
            zero,
            one,
            two,
            three,
            four,
            five,
            six,
            seven,
        } = seats;
        let [first, second, third, fourth, fifth, sixth, seventh] = followers;
        let free = [
            Free {
                seat: seven,
                follower: seventh,
            },
            Free {
                seat: six,
                follower: sixth,
            },
            Free {
                seat: five,
                follower: fifth,
            },
            Free {
                seat: four,
                follower: fourth,
            },
            Free {
                seat: three,
                follower: third,
            },
            Free {
                seat: two,
                follower: second,
            },
            Free {
                seat: one,
                follower: first,
            },
        ];
        let free = Vec::from_array(alloc, free)?;
        Ok(Home {
            zero,
            free,
            lent: Vec::new(alloc),
        })
    }
}
