//! What the publisher tells of what it has published.
ghost use Rattle.std.specs.Prelude.{◌≡◌, ◌∷◌, [], IfOk};
ghost use Rattle.jk_board.specs.Ends.{published, publisher_board, publisher_of, follower_board, board_of, found_by, told_to, read_by, news_from, news_of};
ghost use Rattle.jk_board.specs.Boards.{IsBoard, StartsWith};

use super::Publisher;
use crate::follower::Follower;
use crate::marks::SEATS;
use crate::news::News;
use crate::rule::{Finds, Notes};
use jk_language::Language;
use std::alloc::AllocError;

impl<L: Language> Publisher<L> {
    /// Tells a new follower of all that was published: from now on it finds no less.
    pub fn inform(&mut self, follower: &mut Follower<L>)
        requires { follower_board follower.old ≡ publisher_board self.old }
        ensures owner { (publisher_of self.new ≡ publisher_of self.old) × (board_of follower.new ≡ board_of follower.old) }
        ensures told { told_to follower.new ≡ published self.old ∷ told_to follower.old }
        ensures same { published self.new ≡ published self.old }
        ensures kept { (found_by follower.new ≡ found_by follower.old) × (read_by follower.new ≡ read_by follower.old) }
    {
        follower.reader.learn::<Notes>(self.copies.tell::<Notes>());
    }

    /// A follower that finds at least what was published up to now. It is never lent, and holds nothing back.
    ///
    /// # Errors
    /// Where memory is refused, and where no place at the board is free. What was published stays as it was.
    pub fn late_follower(&mut self) -> Result<Follower<L>, AllocError>
        ensures same { published self.new ≡ published self.old }
        ensures owner { publisher_of self.new ≡ publisher_of self.old }
        ensures board { IfOk result (λ f. board_of f ≡ publisher_of self.old) }
        ensures told { IfOk result (λ f. told_to f ≡ published self.old ∷ []) }
    {
        let mut follower = self.follower(SEATS)?;
        self.inform(&mut follower);
        Ok(follower)
    }

    /// All that was published up to now, for a follower to learn. Nine may be in hand at a time.
    ///
    /// # Errors
    /// Where memory is refused, and where no place at the board is free. What was published stays as it was.
    pub fn news(&mut self) -> Result<News<L>, AllocError>
        ensures same { published self.new ≡ published self.old }
        ensures owner { publisher_of self.new ≡ publisher_of self.old }
        ensures from { IfOk result (λ n. news_from n ≡ publisher_of self.old) }
        ensures all { IfOk result (λ n. StartsWith (news_of n) (published self.old)) }
        ensures board { IfOk result (λ n. IsBoard L.spoken (news_of n)) }
    {
        let Follower { reader, owner, .. } = self.late_follower()?;
        match reader.enter_as::<Finds<L>>() {
            Ok(reading) => {
                let reader = reading.leave();
                Ok(News { reader, owner })
            }
            Err(_) => Err(AllocError),
        }
    }
}
