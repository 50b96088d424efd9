/// The greatest number of a server; the least is 1.
pub const GREATEST_SERVER: u32 = 99;

/// The greatest count of a server's writes; the first write of a server has count 1.
pub const GREATEST_COUNT: u32 = 999_999_999;

/// The greatest logical time of a stamp; the least is 1.
pub const GREATEST_TIME: u64 = 999_999_999_999;

/// The greatest number of a commit, and so how many commits there are at most: they are numbered from 1.
pub const GREATEST_COMMIT: u64 = 999_999_999_999;

/// The minutes of a day. A meeting is at least one minute long, and at most so many.
pub const MINUTES_OF_A_DAY: u32 = 1440;

/// How many alternatives a booking has at most.
pub const MOST_ALTERNATIVES: usize = 16;

/// How many alternatives a booking has at most that the first version of the exchange text can say.
pub const MOST_ALTERNATIVES_IN_FIRST: usize = 8;

/// How many item lines a batch may be asked for at most.
pub const MOST_LINES: u32 = 100_000;

/// The bytes of the longest room name.
pub const LONGEST_ROOM_NAME: usize = 16;

/// The bytes of the longest title.
pub const LONGEST_TITLE: usize = 60;
