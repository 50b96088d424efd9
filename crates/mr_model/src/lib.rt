//! The definitions, and laws about them: what the crates above speak of in their contracts. No program code; it stands on std alone.
//! README.md has an order in which to read specs/, and what each law says.
#![tactic(auto)]

pub mod replicas;
pub mod rooms;
pub mod scopes;
pub mod tables;
pub mod texts;
pub mod worlds;
