//! One connection over HTTP: a request in, an answer out, over any reader, writer and keeper; and clients over a socket, one after the other.
#![tactic(auto)]

mod answering;
mod client;
mod endings;
mod faults;
mod laws;
mod serving;
mod showing;
mod taking;
mod timed;

pub use answering::answer_one;
pub use client::{MOST_DROPPED, serve_one};
pub use dip_http_messages::Routes;
pub use faults::HttpFault;
pub use laws::{answers_are_one, connections_are_turns, gets_are_public, posts_are_settled};
pub use serving::serve_all;
pub use timed::{MOST_DROPPING_MILLIS, MOST_SECONDS, MOST_SILENT_SECONDS, Timed, TimedAnswer};
