ghost use Rattle.std.specs.Prelude.{◌≡◌, Option, ok_or, option_map};
ghost use Rattle.serde_json.specs.View.{view};
ghost use Rattle.mr_model.specs.Http.{bad_request};
ghost use Rattle.mr_web.specs.JsonBodies as spec;
ghost use Rattle.mr_web.specs.Views.{GivesView};

use crate::rejections::{Rejection, Stop};
use mr_http::ReadFault;
use serde_json::Value;
use std::alloc::Global;

/// What comes of a body that is not what its route takes.
pub(crate) const BAD_REQUEST: Stop = Stop::Rejected(Rejection::BadRequest);

/// The JSON that a body is. A body that is none is a bad request; out of memory is a fault.
pub(crate) fn json_in(alloc: Global, body: &[u8]) -> Result<Value, Stop>
    ensures { GivesView view result (ok_or (spec.json_of body.now) bad_request) }
{
    match Value::from_slice(alloc, body) {
        Ok(value) => Ok(value),
        Err(error) => {
            if error.is_memory() {
                Err(Stop::Fault(ReadFault::Memory))
            } else {
                Err(BAD_REQUEST)
            }
        }
    }
}

/// How many members an object has; any other value has 0.
pub(crate) fn member_count(value: &Value) -> usize
    ensures { result ≡ spec.members_in (view value.now) }
{
    match value.as_object() {
        Some(members) => members.len(),
        None => 0,
    }
}

/// The text of this member, if it is one.
pub(crate) fn text_at<'v>(value: &'v Value, key: &str) -> Option<&'v str>
    ensures { option_map (λ s. s.now) result ≡ spec.text_at key.now (view value.now) }
{
    value.get(key).and_then(Value::as_str)
}
