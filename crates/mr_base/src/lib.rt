//! The base types: days, slots, names, stamps, writes, batches, positions and refusals, each within its limits.
//! It stands on `mr_model`; all other crates with program code, but `mr_disk`, stand on it. README.md has lines of use, and what is proved.
#![tactic(auto)]

mod actions;
mod alternatives;
mod batches;
mod commits;
mod days;
mod digits;
mod ids;
mod limits;
mod line_counts;
mod meetings;
mod numbers;
mod positions;
mod refusals;
mod requests;
mod room_names;
mod slots;
mod stamps;
mod times;
mod titles;
mod versions;
mod writes;

pub use actions::Action;
pub use alternatives::Alternatives;
pub use batches::{Batch, Ending, Header, Item};
pub use commits::CommitNumber;
pub use days::{Day, weekday_name};
pub use jiff::civil::Weekday;
pub use limits::{
    GREATEST_COMMIT, GREATEST_COUNT, GREATEST_SERVER, GREATEST_TIME, LONGEST_ROOM_NAME,
    LONGEST_TITLE, MINUTES_OF_A_DAY, MOST_ALTERNATIVES, MOST_ALTERNATIVES_IN_FIRST, MOST_LINES,
};
pub use line_counts::LineCount;
pub use meetings::Meeting;
pub use numbers::read_number;
pub use positions::Position;
pub use refusals::Refusal;
pub use requests::Request;
pub use room_names::{RoomName, is_room_text};
pub use slots::{Slot, overlaps};
pub use stamps::{ServerId, Stamp, WriteId};
pub use times::{TimeOfDay, read_minute};
pub use titles::{Title, is_title_text};
pub use versions::Version;
pub use writes::{Write, stamp_before};
