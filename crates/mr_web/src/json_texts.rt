ghost use Rattle.std.specs.Prelude.{◌≡◌, [], ◌∷◌, codes, decimal, IfOk, string_bytes};
ghost use Rattle.mr_base.specs.RefusalViews.{refusal_of};
ghost use Rattle.mr_model.specs.Http as model;
ghost use Rattle.mr_model.specs.Replies.{mark, NotBooked, Cancelled};
ghost use Rattle.mr_service.specs.Asked.{outcome_seen};
ghost use Rattle.mr_model.specs.Refusals.{name_of};
ghost use Rattle.mr_model.specs.Calendar.{date_text, time_text as text_of_time};
ghost use Rattle.mr_model.specs.Writes.{id_text as text_of_id};
ghost use Rattle.serde_json.specs.Data.{string, number as number_data, unsigned, object, member, no_members};
ghost use Rattle.serde_json.specs.View.{view};
ghost use Rattle.mr_web.specs.Plain.{IsPlain};

use mr_base::{Day, Refusal, TimeOfDay, WriteId};
use mr_service::{Outcome, ShownBooking};
use serde_json::{Value, json};
use std::alloc::{AllocError, Global};

fn mark_text(is_committed: bool) -> &'static str
    ensures text { result.now ≡ mark is_committed }
    ensures plain { IsPlain result.now }
{
    if is_committed { "C" } else { "T" }
}

fn logged_value(alloc: Global, id: &str, mark: &str) -> Result<Value, AllocError>
    ensures { IfOk result (λ v. view v ≡ object (member (codes "id") (string id.now) (member (codes "mark") (string mark.now)
        (member (codes "state") (string (codes "logged")) no_members)))) }
{
    json!(in alloc; {"id": id, "mark": mark, "state": "logged"})
}

fn logged_text(alloc: Global, id: &str, mark: &str) -> Result<String, AllocError>
    requires id { IsPlain id.now }
    requires mark { IsPlain mark.now }
    ensures { IfOk result (λ s. string_bytes s ≡ model.object (
        model.member (codes "id") (model.quoted id.now) ∷ model.member (codes "mark") (model.quoted mark.now)
        ∷ model.member (codes "state") (model.quoted (codes "logged")) ∷ [])) }
{
    let value = logged_value(alloc, id, mark)?;
    value.to_string(alloc)
}

fn booked_value(
    alloc: Global,
    day: &str,
    id: &str,
    mark: &str,
    start: &str,
    stop: &str,
) -> Result<Value, AllocError>
    ensures { IfOk result (λ v. view v ≡ object (
        member (codes "day") (string day.now) (member (codes "id") (string id.now) (member (codes "mark") (string mark.now)
        (member (codes "start") (string start.now) (member (codes "state") (string (codes "booked"))
        (member (codes "stop") (string stop.now) no_members))))))) }
{
    json!(in alloc; {
        "day": day,
        "id": id,
        "mark": mark,
        "start": start,
        "state": "booked",
        "stop": stop,
    })
}

fn booked_text(
    alloc: Global,
    day: &str,
    id: &str,
    mark: &str,
    start: &str,
    stop: &str,
) -> Result<String, AllocError>
    requires day { IsPlain day.now }
    requires id { IsPlain id.now }
    requires mark { IsPlain mark.now }
    requires start { IsPlain start.now }
    requires stop { IsPlain stop.now }
    ensures { IfOk result (λ s. string_bytes s ≡ model.object (
        model.member (codes "day") (model.quoted day.now) ∷ model.member (codes "id") (model.quoted id.now)
        ∷ model.member (codes "mark") (model.quoted mark.now) ∷ model.member (codes "start") (model.quoted start.now)
        ∷ model.member (codes "state") (model.quoted (codes "booked")) ∷ model.member (codes "stop") (model.quoted stop.now) ∷ [])) }
{
    let value = booked_value(alloc, day, id, mark, start, stop)?;
    value.to_string(alloc)
}

fn cancelled_value(
    alloc: Global,
    by: &str,
    by_mark: &str,
    id: &str,
    mark: &str,
) -> Result<Value, AllocError>
    ensures { IfOk result (λ v. view v ≡ object (
        member (codes "by") (string by.now) (member (codes "bymark") (string by_mark.now) (member (codes "id") (string id.now)
        (member (codes "mark") (string mark.now) (member (codes "state") (string (codes "cancelled")) no_members)))))) }
{
    json!(in alloc; {
        "by": by,
        "bymark": by_mark,
        "id": id,
        "mark": mark,
        "state": "cancelled",
    })
}

fn cancelled_text(
    alloc: Global,
    by: &str,
    by_mark: &str,
    id: &str,
    mark: &str,
) -> Result<String, AllocError>
    requires by { IsPlain by.now }
    requires by_mark { IsPlain by_mark.now }
    requires id { IsPlain id.now }
    requires mark { IsPlain mark.now }
    ensures { IfOk result (λ s. string_bytes s ≡ model.object (
        model.member (codes "by") (model.quoted by.now) ∷ model.member (codes "bymark") (model.quoted by_mark.now)
        ∷ model.member (codes "id") (model.quoted id.now) ∷ model.member (codes "mark") (model.quoted mark.now)
        ∷ model.member (codes "state") (model.quoted (codes "cancelled")) ∷ [])) }
{
    let value = cancelled_value(alloc, by, by_mark, id, mark)?;
    value.to_string(alloc)
}

fn cancel_value(
    alloc: Global,
    id: &str,
    mark: &str,
    state: &str,
    target: &str,
) -> Result<Value, AllocError>
    ensures { IfOk result (λ v. view v ≡ object (
        member (codes "id") (string id.now) (member (codes "mark") (string mark.now)
        (member (codes "state") (string state.now) (member (codes "target") (string target.now) no_members))))) }
{
    json!(in alloc; {"id": id, "mark": mark, "state": state, "target": target})
}

fn cancel_text(
    alloc: Global,
    id: &str,
    mark: &str,
    state: &str,
    target: &str,
) -> Result<String, AllocError>
    requires id { IsPlain id.now }
    requires mark { IsPlain mark.now }
    requires state { IsPlain state.now }
    requires target { IsPlain target.now }
    ensures { IfOk result (λ s. string_bytes s ≡ model.object (
        model.member (codes "id") (model.quoted id.now) ∷ model.member (codes "mark") (model.quoted mark.now)
        ∷ model.member (codes "state") (model.quoted state.now) ∷ model.member (codes "target") (model.quoted target.now) ∷ [])) }
{
    let value = cancel_value(alloc, id, mark, state, target)?;
    value.to_string(alloc)
}

fn day_text(alloc: Global, day: Day) -> Result<String, AllocError>
    ensures text { IfOk result (λ s. string_bytes s ≡ date_text day) }
    ensures plain { IfOk result (λ s. IsPlain (string_bytes s)) }
{
    // For the prover alone: the day is within the calendar.
    day.is_within_calendar();
    format!(in alloc; "{day}")
}

fn time_text(alloc: Global, time: TimeOfDay) -> Result<String, AllocError>
    ensures text { IfOk result (λ s. string_bytes s ≡ text_of_time time) }
    ensures plain { IfOk result (λ s. IsPlain (string_bytes s)) }
{
    format!(in alloc; "{time}")
}

fn id_text(alloc: Global, id: WriteId) -> Result<String, AllocError>
    ensures text { IfOk result (λ s. string_bytes s ≡ text_of_id id) }
    ensures plain { IfOk result (λ s. IsPlain (string_bytes s)) }
{
    let (server, count) = (id.server, id.n);
    // For the prover alone: a server is from 1 to 99.
    server.number();
    u64::from(count);
    format!(in alloc; "{id}")
}

fn logged_json(alloc: Global, id: WriteId, is_committed: bool) -> Result<String, AllocError>
    ensures { IfOk result (λ s. string_bytes s ≡ model.outcome_json (NotBooked id is_committed)) }
{
    let id = id_text(alloc, id)?;
    logged_text(alloc, id.as_str(), mark_text(is_committed))
}

fn booked_json(alloc: Global, booking: &ShownBooking) -> Result<String, AllocError>
    ensures { IfOk result (λ s. string_bytes s ≡ model.outcome_json (outcome_seen (Outcome.Booked booking.now))) }
{
    let day = day_text(alloc, booking.day)?;
    let id = id_text(alloc, booking.id)?;
    let mark = mark_text(booking.is_committed);
    let start = time_text(alloc, booking.start)?;
    let stop = time_text(alloc, booking.stop)?;
    booked_text(
        alloc,
        day.as_str(),
        id.as_str(),
        mark,
        start.as_str(),
        stop.as_str(),
    )
}

fn cancelled_json(
    alloc: Global,
    id: WriteId,
    is_committed: bool,
    by: WriteId,
    by_committed: bool,
) -> Result<String, AllocError>
    ensures { IfOk result (λ s. string_bytes s ≡ model.outcome_json (Cancelled id is_committed by_committed by)) }
{
    let by = id_text(alloc, by)?;
    let by_mark = mark_text(by_committed);
    let id = id_text(alloc, id)?;
    let mark = mark_text(is_committed);
    cancelled_text(alloc, by.as_str(), by_mark, id.as_str(), mark)
}

/// The JSON of a cancel with this state.
fn cancel_json(
    alloc: Global,
    id: WriteId,
    is_committed: bool,
    state: &str,
    target: WriteId,
) -> Result<String, AllocError>
    requires { IsPlain state.now }
    ensures { IfOk result (λ s. string_bytes s ≡ model.cancel_json state.now id is_committed target) }
{
    let id = id_text(alloc, id)?;
    let mark = mark_text(is_committed);
    let target = id_text(alloc, target)?;
    cancel_text(alloc, id.as_str(), mark, state, target.as_str())
}

/// The JSON for what became of a request or a cancel.
pub(crate) fn outcome_json(alloc: Global, outcome: &Outcome) -> Result<String, AllocError>
    ensures { IfOk result (λ s. string_bytes s ≡ model.outcome_json (outcome_seen outcome.now)) }
{
    match outcome {
        Outcome::Booked(booking) => booked_json(alloc, booking),
        Outcome::Logged { id, is_committed } => logged_json(alloc, *id, *is_committed),
        Outcome::Cancelled {
            id,
            is_committed,
            by,
            by_committed,
        } => cancelled_json(alloc, *id, *is_committed, *by, *by_committed),
        Outcome::Cancels {
            id,
            is_committed,
            target,
        } => cancel_json(alloc, *id, *is_committed, "cancels", *target),
        Outcome::Void {
            id,
            is_committed,
            target,
        } => cancel_json(alloc, *id, *is_committed, "void", *target),
    }
}

fn refusal_value(alloc: Global, name: &str, number: u32) -> Result<Value, AllocError>
    ensures { IfOk result (λ v. view v ≡ object (member (codes "name") (string name.now)
        (member (codes "refusal") (number_data (unsigned number)) no_members))) }
{
    let number = u64::from(number);
    json!(in alloc; {"name": name, "refusal": number})
}

fn refusal_text(alloc: Global, name: &str, number: u32) -> Result<String, AllocError>
    requires { IsPlain name.now }
    ensures { IfOk result (λ s. string_bytes s ≡ model.object (
        model.member (codes "name") (model.quoted name.now) ∷ model.member (codes "refusal") (decimal number) ∷ [])) }
{
    let value = refusal_value(alloc, name, number)?;
    value.to_string(alloc)
}

fn line_value(alloc: Global, line: u64, name: &str, number: u32) -> Result<Value, AllocError>
    ensures { IfOk result (λ v. view v ≡ object (member (codes "line") (number_data (unsigned line))
        (member (codes "name") (string name.now) (member (codes "refusal") (number_data (unsigned number)) no_members)))) }
{
    let number = u64::from(number);
    json!(in alloc; {"line": line, "name": name, "refusal": number})
}

fn line_text(alloc: Global, line: u64, name: &str, number: u32) -> Result<String, AllocError>
    requires { IsPlain name.now }
    ensures { IfOk result (λ s. string_bytes s ≡ model.object (
        model.member (codes "line") (decimal line) ∷ model.member (codes "name") (model.quoted name.now)
        ∷ model.member (codes "refusal") (decimal number) ∷ [])) }
{
    let value = line_value(alloc, line, name, number)?;
    value.to_string(alloc)
}

fn name_text(refusal: &Refusal) -> &'static str
    ensures text { result.now ≡ name_of (refusal_of refusal.now) }
    ensures plain { IsPlain result.now }
{
    refusal.name()
}

/// The JSON for a refusal.
pub(crate) fn refusal_json(alloc: Global, refusal: &Refusal) -> Result<String, AllocError>
    ensures { IfOk result (λ s. string_bytes s ≡ model.refusal_json (refusal_of refusal.now)) }
{
    match refusal.line() {
        Some(line) => line_text(alloc, line, name_text(refusal), refusal.number()),
        None => refusal_text(alloc, name_text(refusal), refusal.number()),
    }
}
