//! What a long check tells while it goes on.

/// Hears how far a check has come.
pub trait Progress {
    /// So many papers were read so far, and each is right.
    fn hear(&self, papers: u32);
}
