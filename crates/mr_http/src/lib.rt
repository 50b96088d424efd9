//! What a server and a client of HTTP share, over any reader and writer: heads, the length of a body, a body read to its end, bytes written.
//! It stands on `httparse`; `mr_web` and `mr_peer` stand above. README.md has lines of use, and what is proved.
#![tactic(auto)]

mod bodies;
mod faults;
mod fields;
mod heads;
mod limits;
mod pieces;
mod sending;

pub use bodies::fill_to;
pub use faults::{ReadFault, WebFault};
pub use fields::body_length;
pub use heads::{read_reply_head, read_request_head};
pub use limits::{GREATEST_BODY, lines_over_http};
pub use sending::send;
