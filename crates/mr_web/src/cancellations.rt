ghost use Rattle.std.specs.Prelude.{◌≡◌, Option, ok_or, IfOk, option_map};
ghost use Rattle.serde_json.specs.View.{view};
ghost use Rattle.mr_model.specs.Http.{bad_request};
ghost use Rattle.mr_web.specs.Cancellations as spec;
ghost use Rattle.mr_web.specs.Views.{GivesView, cancellation_view};

use crate::json_bodies::{BAD_REQUEST, json_in, member_count, text_at};
use crate::rejections::Stop;
use serde_json::Value;
use std::alloc::{AllocError, Global};

/// A room, and the id of the booking of it that is to be taken back.
#[derive(Drop)]
pub(crate) struct CancelWords {
    pub room: String,
    pub id: String,
}

// The words of a cancellation, as they stand in the value.
#[derive(Clone, Copy)]
struct CancelTexts<'v> {
    room: &'v str,
    id: &'v str,
}

fn texts_of<'v>(value: &'v Value) -> Option<CancelTexts<'v>>
    ensures { option_map (λ t. (t.room.now, t.id.now)) result ≡ spec.cancellation_in (view value.now) }
{
    if member_count(value) != 2 {
        return None;
    }
    let room = text_at(value, "room")?;
    let id = text_at(value, "id")?;
    Some(CancelTexts { room, id })
}

fn cancellation_with(alloc: Global, texts: CancelTexts<'_>) -> Result<CancelWords, AllocError>
    ensures { IfOk result (λ c. cancellation_view c ≡ (texts.entry.room.now, texts.entry.id.now)) }
{
    Ok(CancelWords {
        room: String::from_str(alloc, texts.room)?,
        id: String::from_str(alloc, texts.id)?,
    })
}

fn cancellation_in(alloc: Global, value: &Value) -> Result<CancelWords, Stop>
    ensures { GivesView cancellation_view result (ok_or (spec.cancellation_in (view value.now)) bad_request) }
{
    let Some(texts) = texts_of(value) else {
        return Err(BAD_REQUEST);
    };
    Ok(cancellation_with(alloc, texts)?)
}

/// The cancellation that a body is. A body that is none is a bad request; out of memory is a fault.
pub(crate) fn cancellation(alloc: Global, body: &[u8]) -> Result<CancelWords, Stop>
    ensures { GivesView cancellation_view result (ok_or (spec.cancellation_of body.now) bad_request) }
{
    let value = json_in(alloc, body)?;
    cancellation_in(alloc, &value)
}
