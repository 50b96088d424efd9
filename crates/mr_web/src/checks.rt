ghost use Rattle.std.specs.Prelude.{◌≡◌, ◌≤◌, ℕ, List, Some, IfOk, length};
ghost use Rattle.httparse.specs.Grammar.{RequestHead, ReadsRequest};
ghost use Rattle.matchit.specs.Params.{AllText};
ghost use Rattle.mr_model.specs.Texts.{Text};
ghost use Rattle.mr_model.specs.Http.{is_post, method_name as name_of_method};
ghost use Rattle.mr_http.specs.HeaderFields.{header_fields};
ghost use Rattle.mr_web.specs.RequestAsks as spec;
ghost use Rattle.mr_web.specs.Routes.{route_at, route_of};
ghost use Rattle.mr_web.specs.Views.{GivesView, asked_view};
ghost use Rattle.mr_web.specs.RouteViews.{path_words};

use crate::rejections::{Rejection, Stop};
use crate::routes::{Resource, Route, table, with_words};
use httparse::{EMPTY_HEADER, Header, Request, Status};
use matchit::Params;
use mr_http::{GREATEST_BODY, ReadFault, body_length};
use std::alloc::Global;

/// What a head asks: a route, and how long the body is.
#[derive(Drop)]
pub(crate) struct CheckedHead {
    pub route: Route,
    pub length: usize,
}

fn takes_post(resource: Resource) -> bool
    ensures { (words : List (Text × Text)) → result ≡ is_post (route_at resource words) }
{
    match resource {
        Resource::Submissions | Resource::Cancellations | Resource::Pull | Resource::Push => true,
        Resource::Day | Resource::Request | Resource::ErrorLog | Resource::Position => false,
    }
}

fn method_name(post: bool) -> &'static str
    ensures { result.now ≡ name_of_method post }
{
    if post { "POST" } else { "GET" }
}

// The length of the body, if method, fields and length are as they are to be.
fn checked_length(post: bool, method: &str, fields: &[Header<'_>]) -> Result<usize, Stop>
    ensures gives { GivesView (λ n. n) result (spec.checked post method.now (header_fields fields.now)) }
    ensures small { IfOk result (λ n. n ≤ 1048576) }
{
    if method != method_name(post) {
        return Err(Stop::Rejected(Rejection::NotAllowed { takes_post: post }));
    }
    match body_length(post, fields) {
        None => Err(Stop::Rejected(Rejection::BadRequest)),
        Some(length) if length > GREATEST_BODY => Err(Stop::Rejected(Rejection::TooLarge)),
        Some(length) => Ok(length as usize),
    }
}

fn asked_at(
    alloc: Global,
    resource: Resource,
    params: &Params<'_, '_>,
    method: &str,
    fields: &[Header<'_>],
) -> Result<CheckedHead, Stop>
    requires { AllText (path_words params.now) }
    ensures gives { GivesView asked_view result
        (spec.head_asks (Some (route_at resource (path_words params.now))) method.now (header_fields fields.now)) }
    ensures small { IfOk result (λ a. a.length ≤ 1048576) }
{
    let length = checked_length(takes_post(resource), method, fields)?;
    let route = with_words(alloc, resource, params)?;
    Ok(CheckedHead { route, length })
}

fn asked_of(
    alloc: Global,
    method: &str,
    target: &str,
    fields: &[Header<'_>],
) -> Result<CheckedHead, Stop>
    ensures gives { GivesView asked_view result (spec.head_asks (route_of target.now) method.now (header_fields fields.now)) }
    ensures small { IfOk result (λ a. a.length ≤ 1048576) }
{
    let Ok(table) = table(alloc) else {
        return Err(Stop::Fault(ReadFault::Memory));
    };
    match table.at(target) {
        Ok(found) => asked_at(alloc, *found.value, &found.params, method, fields),
        Err(_) => Err(Stop::Rejected(Rejection::NotFound)),
    }
}

/// What the head at the front of the bytes asks.
pub(crate) fn asked_by(alloc: Global, bytes: &[u8]) -> Result<CheckedHead, Stop>
    ensures gives { (h : RequestHead) → (rest : List ℕ) → ReadsRequest bytes.now h rest → length h.fields ≤ 64
        → GivesView asked_view result (spec.asked_by h) }
    ensures small { IfOk result (λ a. a.length ≤ 1048576) }
{
    let mut headers = [EMPTY_HEADER; 64];
    let mut request = Request::new(&mut headers);
    let Ok(Status::Complete(_)) = request.parse(bytes) else {
        return Err(Stop::Rejected(Rejection::BadRequest));
    };
    let (Some(method), Some(target)) = (request.method, request.path) else {
        return Err(Stop::Rejected(Rejection::BadRequest));
    };
    asked_of(alloc, method, target, request.headers)
}
