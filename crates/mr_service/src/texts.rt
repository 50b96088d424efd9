ghost use Rattle.std.specs.Prelude.{◌≡◌, [], ◌∷◌, ◌++◌, map, codes, OnOk, IfOk, IfErr};
ghost use Rattle.std.specs.String.{string_bytes};
ghost use Rattle.mr_model.specs.Texts.{line, lines_text, words};
ghost use Rattle.mr_model.specs.Texts as shown;
ghost use Rattle.mr_model.specs.Calendar.{date_text};
ghost use Rattle.mr_model.specs.Writes.{id_text};
ghost use Rattle.mr_model.specs.Queries.{row_entry, row_logging, line_logging, OfVoid};
ghost use Rattle.mr_model.specs.Replies.{sheet_line, calendar_line, logging_line, lines_or};
ghost use Rattle.mr_model.specs.Replies as replies;
ghost use Rattle.mr_model.specs.Refusals as refusals;
ghost use Rattle.mr_base.specs.RefusalViews.{refusal_of};
ghost use Rattle.mr_service.specs.Asked.{part_seen, log_line_seen, outcome_seen, reply_of};

use crate::commands::CalendarPart;
use crate::replies::{LogLine, Outcome, Reply};
use mr_base::{Day, Refusal, RoomName, TimeOfDay, WriteId, weekday_name};
use mr_tables::{BookingRow, CancelRow, ErrorRow};
use mr_wire::{write_batch, write_position};
use std::alloc::{AllocError, Global};
use std::fmt;

/// The reply as it is shown: its lines, each with its LF. It is refused for lack of memory alone.
pub fn reply_text(alloc: Global, reply: &Reply) -> Result<Vec<u8>, Refusal>
    ensures text { IfOk result (λ bytes. bytes.items ≡ replies.reply_text (reply_of reply.now)) }
    ensures memory { IfErr result (λ e. e ≡ Refusal.OutOfMemory) }
{
    match reply {
        Reply::RoomAdded => room_added_text(alloc),
        Reply::Outcome(outcome) => outcome_text(alloc, outcome),
        Reply::Took { writes, commits } => took_text(alloc, *writes, *commits),
        Reply::Committed(number) => committed_text(alloc, *number),
        Reply::Dropped(number) => dropped_text(alloc, *number),
        Reply::Position(position) => write_position(alloc, position),
        Reply::Batch(batch) => write_batch(alloc, batch),
        Reply::Sheet { room, day, rows } => sheet_text(alloc, room, *day, rows.as_slice()),
        Reply::Calendar { room, part, rows } => {
            calendar_text(alloc, room, *part, rows.as_slice())
        }
        Reply::Errors { room, lines } => errors_text(alloc, room, lines.as_slice()),
        Reply::Refused(refusal) => refusal_text(alloc, refusal),
    }
}

/// The refusal as it is shown: one line, with its LF. It is refused for lack of memory alone.
pub fn refusal_text(alloc: Global, refusal: &Refusal) -> Result<Vec<u8>, Refusal>
    ensures text { IfOk result (λ bytes. bytes.items ≡ line (refusals.refusal_text (refusal_of refusal.now))) }
    ensures memory { IfErr result (λ e. e ≡ Refusal.OutOfMemory) }
{
    let (number, name) = (refusal.number(), refusal.name());
    let text = match refusal.line() {
        Some(at) => format!(in alloc; "refused {number} {name} {at}\n")?,
        None => format!(in alloc; "refused {number} {name}\n")?,
    };
    Ok(text.into_bytes())
}

/// The sheet of a room on a day with these rows, as it is shown. It is refused for lack of memory alone.
pub fn sheet_text(
    alloc: Global,
    room: &RoomName,
    day: Day,
    rows: &[BookingRow],
) -> Result<Vec<u8>, Refusal>
    ensures text { IfOk result (λ bytes. bytes.items ≡ replies.sheet_text room.now day (map row_entry rows.now)) }
    ensures memory { IfErr result (λ e. e ≡ Refusal.OutOfMemory) }
{
    let mut text = String::new(alloc);
    push_sheet_head(&mut text, room.as_str(), day, weekday_name(&day))?;
    push_sheet_rows(&mut text, rows)?;
    Ok(text.into_bytes())
}

fn calendar_text(
    alloc: Global,
    room: &RoomName,
    part: CalendarPart,
    rows: &[BookingRow],
) -> Result<Vec<u8>, Refusal>
    ensures text { IfOk result (λ bytes. bytes.items ≡ replies.reply_text (replies.Calendar room.now (part_seen part) (map row_entry rows.now))) }
    ensures memory { IfErr result (λ e. e ≡ Refusal.OutOfMemory) }
{
    let mut text = String::new(alloc);
    push_head(&mut text, room.as_str(), part_name(part))?;
    push_calendar_rows(&mut text, rows)?;
    Ok(text.into_bytes())
}

fn errors_text(alloc: Global, room: &RoomName, lines: &[LogLine]) -> Result<Vec<u8>, Refusal>
    ensures text { IfOk result (λ bytes. bytes.items ≡ replies.reply_text (replies.Errors room.now (map line_logging (map log_line_seen lines.now)))) }
    ensures memory { IfErr result (λ e. e ≡ Refusal.OutOfMemory) }
{
    let mut text = String::new(alloc);
    push_head(&mut text, room.as_str(), "errors")?;
    push_log_lines(&mut text, lines)?;
    Ok(text.into_bytes())
}

fn room_added_text(alloc: Global) -> Result<Vec<u8>, Refusal>
    ensures text { IfOk result (λ bytes. bytes.items ≡ replies.reply_text replies.RoomAdded) }
    ensures memory { IfErr result (λ e. e ≡ Refusal.OutOfMemory) }
{
    let text = String::from_str(alloc, "ok\n")?;
    Ok(text.into_bytes())
}

fn took_text(alloc: Global, writes: u64, commits: u64) -> Result<Vec<u8>, Refusal>
    ensures text { IfOk result (λ bytes. bytes.items ≡ replies.reply_text (replies.Took writes commits)) }
    ensures memory { IfErr result (λ e. e ≡ Refusal.OutOfMemory) }
{
    let text = format!(in alloc; "took {writes} writes {commits} commits\n")?;
    Ok(text.into_bytes())
}

fn committed_text(alloc: Global, number: u64) -> Result<Vec<u8>, Refusal>
    ensures text { IfOk result (λ bytes. bytes.items ≡ replies.reply_text (replies.CommittedIs number)) }
    ensures memory { IfErr result (λ e. e ≡ Refusal.OutOfMemory) }
{
    let text = format!(in alloc; "committed {number}\n")?;
    Ok(text.into_bytes())
}

fn dropped_text(alloc: Global, number: u64) -> Result<Vec<u8>, Refusal>
    ensures text { IfOk result (λ bytes. bytes.items ≡ replies.reply_text (replies.DroppedIs number)) }
    ensures memory { IfErr result (λ e. e ≡ Refusal.OutOfMemory) }
{
    let text = format!(in alloc; "dropped {number}\n")?;
    Ok(text.into_bytes())
}

fn outcome_text(alloc: Global, outcome: &Outcome) -> Result<Vec<u8>, Refusal>
    ensures text { IfOk result (λ bytes. bytes.items ≡ line (replies.outcome_line (outcome_seen outcome.now))) }
    ensures memory { IfErr result (λ e. e ≡ Refusal.OutOfMemory) }
{
    let mut text = String::new(alloc);
    push_outcome(&mut text, outcome)?;
    Ok(text.into_bytes())
}

fn push_outcome(text: &mut String, outcome: &Outcome) -> Result<(), AllocError>
    ensures { OnOk result (string_bytes text.new ≡ string_bytes text.old ++ line (replies.outcome_line (outcome_seen outcome.now))) }
{
    match outcome {
        Outcome::Booked(booking) => {
            let mark = CommitMark {
                is_committed: booking.is_committed,
            };
            let (id, day) = (booking.id, booking.day);
            let (start, stop) = (booking.start, booking.stop);
            write!(text, "{id} {mark} {day} {start}-{stop}\n")
        }
        Outcome::Logged { id, is_committed } => {
            let mark = CommitMark {
                is_committed: *is_committed,
            };
            write!(text, "{id} {mark} logged\n")
        }
        Outcome::Cancelled {
            id,
            is_committed,
            by,
            by_committed,
        } => push_cancel(
            text,
            *id,
            *is_committed,
            cancelled_words(*by_committed),
            *by,
        ),
        Outcome::Cancels {
            id,
            is_committed,
            target,
        } => push_cancel(text, *id, *is_committed, "cancels", *target),
        Outcome::Void {
            id,
            is_committed,
            target,
        } => push_cancel(text, *id, *is_committed, "void", *target),
    }
}

/// That a booking was taken back, and the mark of the cancel.
fn cancelled_words(by_committed: bool) -> &'static str
    ensures { result.now ≡ codes "cancelled" ++ 32 ∷ replies.mark by_committed }
{
    if by_committed {
        "cancelled C"
    } else {
        "cancelled T"
    }
}

/// What a write and a cancel have to do with one another, as these words say.
fn push_cancel(
    text: &mut String,
    id: WriteId,
    is_committed: bool,
    word: &str,
    target: WriteId,
) -> Result<(), AllocError>
    ensures { OnOk result (string_bytes text.new ≡ string_bytes text.old
        ++ line (words (id_text id ∷ replies.mark is_committed ∷ word.now ∷ id_text target ∷ []))) }
{
    let mark = CommitMark { is_committed };
    write!(text, "{id} {mark} {word} {target}\n")
}

fn push_sheet_head(text: &mut String, room: &str, day: Day, weekday: &str) -> Result<(), AllocError>
    ensures { OnOk result (string_bytes text.new ≡ string_bytes text.old ++ line (words (room.now ∷ date_text day ∷ weekday.now ∷ []))) }
{
    write!(text, "{room} {day} {weekday}\n")
}

fn push_head(text: &mut String, room: &str, what: &str) -> Result<(), AllocError>
    ensures { OnOk result (string_bytes text.new ≡ string_bytes text.old ++ line (words (room.now ∷ what.now ∷ []))) }
{
    write!(text, "{room} {what}\n")
}

fn push_sheet_rows(text: &mut String, rows: &[BookingRow]) -> Result<(), AllocError>
    ensures { OnOk result (string_bytes text.new ≡ string_bytes text.old
        ++ lines_text (lines_or (codes "(no bookings)") (map sheet_line (map row_entry rows.now)))) }
{
    if rows.is_empty() {
        return text.push_str("(no bookings)\n");
    }
    for row in rows {
        push_sheet_row(text, row)?;
    }
    Ok(())
}

fn push_calendar_rows(text: &mut String, rows: &[BookingRow]) -> Result<(), AllocError>
    ensures { OnOk result (string_bytes text.new ≡ string_bytes text.old
        ++ lines_text (lines_or (codes "(no bookings)") (map calendar_line (map row_entry rows.now)))) }
{
    if rows.is_empty() {
        return text.push_str("(no bookings)\n");
    }
    for row in rows {
        push_calendar_row(text, row)?;
    }
    Ok(())
}

fn push_log_lines(text: &mut String, lines: &[LogLine]) -> Result<(), AllocError>
    ensures { OnOk result (string_bytes text.new ≡ string_bytes text.old
        ++ lines_text (lines_or (codes "(no errors)") (map logging_line (map line_logging (map log_line_seen lines.now))))) }
{
    if lines.is_empty() {
        return text.push_str("(no errors)\n");
    }
    for line in lines {
        push_log_line(text, line)?;
    }
    Ok(())
}

fn push_sheet_row(text: &mut String, row: &BookingRow) -> Result<(), AllocError>
    ensures { OnOk result (string_bytes text.new ≡ string_bytes text.old ++ line (sheet_line (row_entry row.now))) }
{
    let (start, stop) = (TimeOfDay::new(row.start), TimeOfDay::new(row.stop));
    let mark = CommitMark {
        is_committed: row.committed,
    };
    let (id, title) = (row.id(), row.title.as_str());
    write!(text, "{start}-{stop} {mark} {id} {title}\n")
}

fn push_calendar_row(text: &mut String, row: &BookingRow) -> Result<(), AllocError>
    ensures { OnOk result (string_bytes text.new ≡ string_bytes text.old ++ line (calendar_line (row_entry row.now))) }
{
    let day = row.day;
    write!(text, "{day} ")?;
    push_sheet_row(text, row)
}

fn push_log_line(text: &mut String, line: &LogLine) -> Result<(), AllocError>
    ensures { OnOk result (string_bytes text.new ≡ string_bytes text.old ++ shown.line (logging_line (line_logging (log_line_seen line.now)))) }
{
    match line {
        LogLine::Request(row) => push_error_row(text, row),
        LogLine::VoidCancel(row) => push_void_row(text, row),
    }
}

fn push_void_row(text: &mut String, row: &CancelRow) -> Result<(), AllocError>
    ensures { OnOk result (string_bytes text.new ≡ string_bytes text.old ++ line (logging_line (line_logging (OfVoid row.now)))) }
{
    let mark = CommitMark {
        is_committed: row.seq != 0,
    };
    let (id, target) = (row.id(), row.target);
    write!(text, "{mark} {id} cancel {target}\n")
}

fn push_error_row(text: &mut String, row: &ErrorRow) -> Result<(), AllocError>
    ensures { OnOk result (string_bytes text.new ≡ string_bytes text.old ++ line (logging_line (row_logging row.now))) }
{
    let mark = CommitMark {
        is_committed: row.seq != 0,
    };
    let day = row.day;
    let (start, stop) = (TimeOfDay::new(row.start), TimeOfDay::new(row.stop));
    let (id, title) = (row.id(), row.title.as_str());
    write!(text, "{mark} {id} {day} {start}-{stop} {title}\n")
}

fn part_name(part: CalendarPart) -> &'static str
    ensures { result.now ≡ replies.part_text (part_seen part) }
{
    match part {
        CalendarPart::Full => "full",
        CalendarPart::Committed => "committed",
    }
}

// Whether a write is committed, as it is shown.
#[derive(Clone, Copy)]
struct CommitMark {
    is_committed: bool,
}

impl fmt::Display for CommitMark {
    ghost use Rattle.std.specs.Prelude.{Some};
    ghost use Rattle.mr_model.specs.Replies as replies;

    ghost output = { λ m. Some (replies.mark m.is_committed) };

    fn fmt<W: fmt::Write>(&self, f: &mut fmt::Formatter<W>) -> fmt::Result {
        if self.is_committed {
            write!(f, "C")
        } else {
            write!(f, "T")
        }
    }
}
