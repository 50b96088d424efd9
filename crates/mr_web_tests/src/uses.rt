// Uses of the crates by programs of others: short functions whose contracts say what follows for their callers from those of the crates. The
// tests here compare what comes of them with what was worked by hand.
//
// - `asking`, `booking`: a replica that is asked, with refusals as errors; the sheet behind a booking (`mr_service` over the lists
//   of `mr_store`);
// - `exchange`: two replicas that exchange texts, a commit, a truncation;
// - `board`: bookings executed and undone without a replica (`mr_replay`);
// - `texts`: exchange and position texts, written and read (`mr_wire`).
//
// What a call needs and promises stands at the call's own contract, the words of that in the `specs/` of its crate and of `mr_model`.
// A function that takes memory takes the allocator first; a service, a world or a board has its own. If there is no memory, they refuse with
// `OutOfMemory`.

mod asking;
mod board;
mod booking;
mod exchange;
mod texts;

use crate::same::same_text;
pub(crate) use asking::add_text;
use board::board_told;
use booking::bookings_told;
pub(crate) use booking::opened;
use exchange::{commits_told, meet};
use mr_base::{LineCount, Refusal};
use mr_service::Service;
use mr_store::ListKeeper;
use std::alloc::Global;
use texts::texts_told;

fn one_office(alloc: Global) -> Result<Vec<u8>, Refusal> {
    bookings_told(alloc, &mut opened(alloc, 1)?)
}

const OF_ONE_OFFICE: &str =
    "1-1 T 1995-12-18 13:30-14:30\n1-2 T logged\nrefused 3 BadLength\noak 1995-12-18 Monday\n13:30-14:30 T 1-1 Review\n16:00-16:45 T 1-3 Review\n";

#[test]
fn one_office_books(rt: HostRuntime) {
    same_text(&rt, &one_office(rt.alloc()), OF_ONE_OFFICE);
}

fn offices_told(
    alloc: Global,
    west: &mut Service<ListKeeper>,
    east: &mut Service<ListKeeper>,
) -> Result<Vec<u8>, Refusal> {
    let lines = LineCount::new(100).ok_or(Refusal::BadPosition)?;
    meet(alloc, west, east, lines)?;
    commits_told(alloc, west, east, lines)
}

fn two_offices(alloc: Global) -> Result<Vec<u8>, Refusal> {
    let mut west = opened(alloc, 1)?;
    let mut east = opened(alloc, 2)?;
    offices_told(alloc, &mut west, &mut east)
}

const OF_TWO_OFFICES: &str =
    "committed 2\ndropped 2\noak 1995-12-18 Monday\n14:00-15:00 C 1-1 Review\noak 1995-12-18 Monday\n14:00-15:00 C 1-1 Review\n";

#[test]
fn two_offices_meet(rt: HostRuntime) {
    same_text(&rt, &two_offices(rt.alloc()), OF_TWO_OFFICES);
}

const OF_A_BOARD: &str = "2-1 Logged\nfree: false\nrows: 1\n";

const OF_TEXTS: &str = "writes: 2, of the cut batch: 1\nservers: 1\n";

#[test]
fn boards_and_texts_stand_alone(rt: HostRuntime) {
    same_text(&rt, &board_told(rt.alloc()), OF_A_BOARD);
    same_text(&rt, &texts_told(rt.alloc()), OF_TEXTS);
}
