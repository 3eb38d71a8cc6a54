//! What threads tell the desk, and what it answers.

use crate::crowd::Guest;
use crate::question::Question;
use jk_language::Language;
use js_drive::Place;
use js_http::Response;
use js_paced::Selector;
use js_shelf::Opening;
use js_tables::About;
use js_ws::Names;

/// What a connection is given that switches to a WebSocket.
#[derive(Drop)]
pub struct Upgrade<L: Language> {
    pub place: Place<L>,
    pub names: Names,
    /// What the channel's stream rests by. Where there is none, the channel looks for something new by itself.
    pub selector: Option<Selector>,
}

/// What the desk answers to a request.
#[derive(Drop)]
pub enum Reply<L: Language> {
    Response(Response),
    /// A file that was opened. The thread of the connection reads it and makes the response.
    Shown(About, Opening),
    /// The last response before the server stops. Whoever has written it tells the desk so.
    Last(Response),
    /// The switch to a WebSocket, and what its channel is given.
    Channel(Response, Upgrade<L>),
    /// The page for a browser.
    Page,
}

/// What threads tell the desk.
#[derive(Drop)]
pub enum Call<L: Language> {
    /// A connection was accepted.
    Accepted(Guest),
    /// A request was read, and is asked.
    Asked(Question<L>),
    /// A channel was closed, and has given its place back.
    Back,
    /// The last response was written.
    Written,
    /// The pause between two reads for recorders is over.
    Pulse,
}
