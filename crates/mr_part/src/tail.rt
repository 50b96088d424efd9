ghost use Rattle.std.specs.Prelude.{◌≡◌, ◌||◌, ℕ, not, map};
ghost use Rattle.mr_model.specs.Scopes.{time_before};
ghost use Rattle.mr_base.specs.Batches.{item_of};
ghost use Rattle.mr_part.specs.Tails.{has_place, brings, IsTail};

use mr_base::{Item, ServerId};

/// The places in the order of stamps whose tentative writes a batch may move. It is made once for a batch, so that each write is
/// asked in constant time.
#[derive(Clone, Copy, Debug)]
pub enum Tail {
    /// All of them: the batch has a new commit.
    Everything,
    /// Those at or behind this time and server: the least stamp of the batch's writes.
    From(u64, ServerId),
    /// None: the batch has neither.
    Nothing,
}

/// The tail of these items, if so many commits are known.
pub fn tail_of(items: &[Item], commits: u64) -> Tail
    ensures { IsTail result commits (map item_of items.now) }
{
    let mut tail = Tail::Nothing;
    for item in items {
        tail = tail.with_item(item, commits);
    }
    tail
}

impl Tail {
    /// Whether this place is in the tail.
    pub fn has_place(&self, time: u64, server: ServerId) -> bool
        ensures { result ≡ has_place self.now time server }
    {
        match self {
            Tail::Everything => true,
            Tail::From(first_time, first_server) => {
                !is_before(time, server, *first_time, *first_server)
            }
            Tail::Nothing => false,
        }
    }

    /// The tail with what an item brings into it.
    fn with_item(self, item: &Item, commits: u64) -> Tail
        ensures { (time server : ℕ) → has_place result time server ≡ (has_place self time server || brings commits (item_of item.now) time server) }
    {
        match item {
            Item::W(write) => {
                let stamp = write.stamp;
                self.with_place(stamp.time, stamp.server)
            }
            Item::C { seq, .. } => {
                if seq.number() > commits {
                    Tail::Everything
                } else {
                    self
                }
            }
        }
    }

    /// The tail with the places at or behind this one.
    fn with_place(self, time: u64, server: ServerId) -> Tail
        ensures { (t s : ℕ) → has_place result t s ≡ (has_place self t s || not (time_before t s time server)) }
    {
        match self {
            Tail::Everything => Tail::Everything,
            Tail::From(first_time, first_server) => {
                if is_before(time, server, first_time, first_server) {
                    Tail::From(time, server)
                } else {
                    self
                }
            }
            Tail::Nothing => Tail::From(time, server),
        }
    }
}

/// Whether a place stands before another one in the order of stamps.
fn is_before(time: u64, server: ServerId, other_time: u64, other_server: ServerId) -> bool
    ensures { result ≡ time_before time server other_time other_server }
{
    time < other_time || (time == other_time && server < other_server)
}
