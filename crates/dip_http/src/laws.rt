//! What holds of every connection, whoever serves it.
ghost use Rattle.dip_map.specs.Charts.{Chart};
ghost use Rattle.dip_http.specs.Laws.{AreTurns, HasOneAnswer, IsAnsweredFromPublic, IsPostSettled};

use dip_desk_machine::{answered_from_what_is_seen, histories_are_one};

/// The bytes of a connection have one answer over a content, and leave one content.
pub fn answers_are_one()
    ensures { (m : Chart) → HasOneAnswer m }
{
    histories_are_one();
}

/// GET and HEAD are answered from what everybody is told: over contents in which each game has the same public part and the same papers they get
/// the same bytes, whatever was ordered, voted and written there, and they change nothing.
pub fn gets_are_public()
    ensures { (m : Chart) → IsAnsweredFromPublic m }
{}

/// Settled by view, over HTTP: a letter of a seat that is posted gets the same bytes over all contents that the seat sees alike, and leaves
/// them alike for it.
pub fn posts_are_settled()
    ensures { (m : Chart) → IsPostSettled m }
{
    answered_from_what_is_seen();
}

/// A connection that posts a letter is the turn of that letter in a history, and its answer carries the turn's reply with the status of its
/// kind; any other is no turn, and leaves what was there. So whatever is told of histories of letters holds of connections, one after the other.
pub fn connections_are_turns()
    ensures { (m : Chart) → AreTurns m }
{}
