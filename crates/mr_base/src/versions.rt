/// A version of the exchange text. The first has batches `mr1` and positions `mp1`, and can say bookings of at most 8
/// alternatives, and no cancels; the second has `mr2` and `mp2`, and can say every write. A position asks for batches of its own
/// version.
#[derive(Clone, Copy, Debug, PartialEq, Eq)]
pub enum Version {
    First,
    Second,
}
