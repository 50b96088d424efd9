//! HTTP for a replica: one request is read from any reader and served, and its reply written to any writer.
//! It stands on `mr_http` and `mr_service`; `mr_net`, which has the sockets, stands above. README.md has lines of use, and what is proved.
#![tactic(auto)]

mod cancellations;
mod checks;
mod json_bodies;
mod json_texts;
mod laws;
mod rejections;
mod replies;
mod routes;
mod serving;
mod submissions;

pub use laws::reading_law;
pub use mr_http::WebFault;
pub use serving::serve_one;
