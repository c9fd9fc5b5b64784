//! Rows of many columns, as they are handed over.

/// A game but for its board's units and owners: its season as a number, its status and its standoffs as texts.
#[derive(Drop)]
pub struct GameRow<'a> {
    pub name: &'a str,
    pub year: u32,
    pub phase: u32,
    pub status: &'a str,
    pub due: u64,
    pub period: u32,
    pub grey: bool,
    pub papers: u32,
    pub standoff: &'a str,
}

/// A unit of a game: kind 0 is an army, 1 a fleet.
#[derive(Drop)]
pub struct UnitRow<'a> {
    pub game: &'a str,
    pub province: &'a str,
    pub dislodged: bool,
    pub power: &'a str,
    pub kind: u32,
    pub coast: &'a str,
    pub origin: &'a str,
}

/// A standing order of a seat: its unit's province, and its line.
#[derive(Drop)]
pub struct OrderRow<'a> {
    pub province: &'a str,
    pub line: &'a str,
}

/// An item of a seat's inbox.
#[derive(Drop)]
pub struct ItemRow<'a> {
    pub game: &'a str,
    pub power: &'a str,
    pub number: u32,
    pub grey: bool,
    pub writer: &'a str,
    pub addressees: &'a str,
    pub body: &'a str,
}

/// A seat's row but for its keys and its vote: the digest of its secret, its last letter by its number, the SHA-256 of its bytes and its
/// reply, how many press letters it has sent, and how many items its inbox has.
#[derive(Drop)]
pub struct SeatRow<'a> {
    pub digest: &'a [u8],
    pub number: u32,
    pub sum: &'a [u8],
    pub reply: &'a str,
    pub sent: u32,
    pub items: u32,
}

/// The master's last letter: its number, the SHA-256 of its bytes, and its reply.
#[derive(Drop)]
pub struct LastLetter<'a> {
    pub number: u32,
    pub sum: &'a [u8],
    pub reply: &'a str,
}
