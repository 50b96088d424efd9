//! The two files of a database, as disks that are synced only if something was written since the last sync; and a copy of them in memory.
//! It stands on the kit's `sqlite_disk` and `sqlite_std_file`; `mr_sql` opens a database over them. README.md has lines of use, and what is proved.
#![tactic(auto)]

mod copies;
mod files;
mod questioned;
mod record;
mod shared;
mod sparing;

pub use copies::{Copied, copy_of};
pub use files::{SparingFile, open};
pub use questioned::{LogIndex, SharedFile, open_to_read};
pub use shared::Shared;
pub use sparing::Sparing;
