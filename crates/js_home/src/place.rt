//! A place that is lent.
ghost use Rattle.std.specs.Prelude.{◌≡◌};
ghost use Rattle.jk_board.specs.Ends.{read_by};
ghost use Rattle.jk_queues.specs.Ends.{seat_inbox, sent_by};
ghost use Rattle.js_lend.specs.Ends.{lent_by};
ghost use Rattle.js_home.specs.Served.{HasPassed};
ghost use Rattle.js_home.specs.Sets.{same_arrivals, same_entries};

use crate::free::Free;
use jk_language::Language;
use js_lend::Lease;

/// A seat and its follower, as they were lent, with the end by which they go back to the home that lent them.
#[derive(Drop)]
pub struct Place<L: Language> {
    lease: Lease<Free<L>>,
    ghost inbox: { seat_inbox lease.value.seat ≡ seat_inbox (lent_by lease.back).seat },
    ghost place: { lease.value.seat.place ≡ (lent_by lease.back).seat.place },
    ghost sent: { sent_by lease.value.seat ≡ sent_by (lent_by lease.back).seat } by { same_arrivals _ _ },
    ghost read: { read_by lease.value.follower ≡ read_by (lent_by lease.back).follower } by { same_entries _ _ },
}

impl<L: Language> Place<L> {
    pub(crate) fn new(lease: Lease<Free<L>>) -> Place<L>
        requires { lent_by lease.back ≡ lease.value }
        ensures { result.lease ≡ lease }
    {
        Place { lease }
    }

    /// The seat and the follower, and the end by which they go back. They are what was lent.
    pub fn into_lease(self) -> Lease<Free<L>>
        ensures same { result ≡ self.lease }
        ensures lent { HasPassed (lent_by result.back) result.value }
    {
        self.lease
    }
}
