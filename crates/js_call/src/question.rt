//! What a connection asks the desk, and how its reply comes.
ghost use Rattle.std.specs.Prelude.{◌≡◌, [], ◌∷◌};
ghost use Rattle.js_lend.specs.Ends.{lent_by};
ghost use Rattle.js_call.specs.Sets.{same_requests};

use crate::client::Client;
use jk_language::Language;
use js_rest::ReadRequest;

/// A request that was read, and one who asks just that.
#[derive(Drop)]
pub struct Question<L: Language> {
    pub(crate) request: ReadRequest,
    pub(crate) client: Client<L>,
    ghost asked: { (lent_by client.lease.back).asked.items ≡ request ∷ [] } by { same_requests _ _ },
}
