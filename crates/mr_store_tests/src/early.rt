// A keeper receives one early write of one of three rooms, whose tentative writes behind it are executed anew. It copies the rows of that
// room alone, and has in the end the rows of plain lists that take the changes of a desk.

use crate::builders::{Ask, MONDAY, add, booking, header, server, stamp};
use crate::keepers::told;
use crate::plain::{change_tables, opening_tables};
use crate::same::same;
use mr_base::{Batch, Ending, Item, Refusal, ServerId, Version};
use mr_part::Scope;
use mr_replica::Desk;
use mr_store::{Keeper, ListKeeper};
use mr_tables::{BookingRow, Tables};
use std::alloc::Global;

/// A write: its room, server, count and time, and the minute of its wish. Its other choice is 15:00.
type Asked = (&'static str, u32, u32, u64, u32);

/// Tentative writes of three rooms, and one that comes before all of them: it takes the hour that 2-2 has, which moves to 15:00; so 2-5
/// finds no slot.
static BATCHES: [&[Asked]; 2] = [
    &[
        ("oak", 2, 1, 5, 600),
        ("elm", 2, 2, 6, 600),
        ("ash", 2, 3, 7, 600),
        ("oak", 2, 4, 8, 600),
        ("elm", 2, 5, 9, 600),
        ("ash", 2, 6, 10, 600),
    ],
    &[("elm", 4, 1, 2, 600)],
];

/// The server, count and start of each booking then.
const BOOKED: [(u32, u32, u32); 6] = [
    (2, 1, 600),
    (2, 2, 900),
    (2, 3, 600),
    (2, 4, 900),
    (2, 6, 900),
    (4, 1, 600),
];

fn item(alloc: Global, (room, number, n, time, wish): Asked) -> Result<Item, Refusal> {
    let ask = Ask {
        title: "Audit",
        length: 60,
        wish,
        others: &[900],
    };
    let stamp = stamp(number, n, time)?;
    Ok(Item::W(booking(alloc, stamp, (room, MONDAY), ask)?))
}

fn batch(alloc: Global, of: &[Asked]) -> Result<Batch, Refusal> {
    let mut items = Vec::new(alloc);
    for asked in of {
        add(&mut items, item(alloc, *asked))?;
    }
    Batch::new(Version::First, header(1, 1)?, items, Ending::Complete)
}

fn keep(keeper: &mut ListKeeper, batch: &Batch) -> Result<(), Refusal> {
    let part = told(keeper.load_part(&Scope::Items(&batch.items)))?;
    let (_, _, change) = part.receive(batch)?;
    told(keeper.apply(&change))
}

fn list(alloc: Global, desk: &mut Desk, tables: &mut Tables, batch: &Batch) -> Result<(), Refusal> {
    let (_, _, change) = desk.receive(batch)?;
    Ok(change_tables(alloc, tables, &change)?)
}

/// The rows of the keeper behind both batches.
fn kept(alloc: Global, own: ServerId, primary: ServerId) -> Result<Tables, Refusal> {
    let mut keeper = ListKeeper::new(alloc, own, primary);
    for of in BATCHES {
        keep(&mut keeper, &batch(alloc, of)?)?;
    }
    told(keeper.read())
}

/// Those of plain lists.
fn listed(alloc: Global, own: ServerId, primary: ServerId) -> Result<Tables, Refusal> {
    let mut desk = Desk::new(alloc, own, primary);
    let mut tables = opening_tables(alloc, own, primary);
    for of in BATCHES {
        list(alloc, &mut desk, &mut tables, &batch(alloc, of)?)?;
    }
    Ok(tables)
}

fn see(alloc: Global, rows: &[BookingRow]) -> Result<Vec<(u32, u32, u32)>, Refusal> {
    let mut seen = Vec::new(alloc);
    for row in rows {
        seen.push((row.server.number(), row.n, row.start))?;
    }
    Ok(seen)
}

/// Whether both have the same rows, and these bookings.
fn are_alike(alloc: Global, kept: &Tables, listed: &Tables) -> Result<bool, Refusal> {
    let seen = see(alloc, &kept.booking)?;
    let one = format!(in alloc; "{kept:?}")?;
    let other = format!(in alloc; "{listed:?}")?;
    Ok(one.as_str() == other.as_str() && seen.as_slice() == BOOKED.as_slice())
}

fn is_received(alloc: Global) -> Result<bool, Refusal> {
    let (own, primary) = (server(3)?, server(1)?);
    let kept = kept(alloc, own, primary)?;
    let listed = listed(alloc, own, primary)?;
    are_alike(alloc, &kept, &listed)
}

#[test]
fn an_early_write_moves_its_room_alone(rt: HostRuntime) {
    same(&rt, &is_received(rt.alloc()), &Ok(true), "early");
}
