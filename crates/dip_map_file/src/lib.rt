//! A map's file: TOML read into provinces and powers by their codes and names.
//!
//! What is wrong with the text itself or with one of its fields is found here; what the codes stand for is looked up by the map.
#![tactic(auto)]

mod drafts;
mod fields;
mod files;
mod places;

pub use drafts::{Draft, PowerDraft, ProvinceDraft, ShoreDraft, Site, UnitDraft};
pub use files::{draft_of, tables_of};
