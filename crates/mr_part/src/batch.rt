//! A batch that is received: its items are judged and taken, what they move is executed anew, and what that changes in the tables is handed out.

mod candidate;
mod changed;
mod judge;
mod kept_writes;
mod movable;
mod moved;
mod receive;
mod targets;
