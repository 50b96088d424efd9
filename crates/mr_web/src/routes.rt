ghost use Rattle.std.specs.Prelude.{◌≡◌, [], IfOk, string_bytes};
ghost use Rattle.matchit.specs.Params.{AllText};
ghost use Rattle.mr_web.specs.Routes as spec;
ghost use Rattle.mr_web.specs.RouteViews.{path_words, route_view};

use matchit::{InsertError, Params, Router};
use std::alloc::{AllocError, Global};

/// What a path of the table names.
#[derive(Clone, Copy)]
pub(crate) enum Resource {
    Submissions,
    Cancellations,
    Day,
    Request,
    ErrorLog,
    Position,
    Pull,
    Push,
}

/// What a target names, with the words of its parameters.
#[derive(Drop)]
pub(crate) enum Route {
    Submissions,
    Cancellations,
    Day { room: String, day: String },
    Request { room: String, id: String },
    ErrorLog { room: String },
    Position,
    Pull,
    Push,
}

/// The table of the resources.
pub(crate) fn table(alloc: Global) -> Result<Router<Resource>, InsertError>
    ensures { IfOk result (λ r. r ≡ spec.route_table) }
{
    let mut router = Router::new(alloc);
    add_routes(&mut router)?;
    Ok(router)
}

// The router is the caller's, so that no path of this function has it to drop.
fn add_routes(router: &mut Router<Resource>) -> Result<(), InsertError>
    requires { router.old ≡ [] }
    ensures { IfOk result (λ _. router.new ≡ spec.route_table) }
{
    router.insert("/submit", Resource::Submissions)?;
    router.insert("/cancel", Resource::Cancellations)?;
    router.insert("/rooms/{room}/days/{day}", Resource::Day)?;
    router.insert("/rooms/{room}/requests/{id}", Resource::Request)?;
    router.insert("/rooms/{room}/errors", Resource::ErrorLog)?;
    router.insert("/position", Resource::Position)?;
    router.insert("/pull", Resource::Pull)?;
    router.insert("/push", Resource::Push)?;
    Ok(())
}

fn word(alloc: Global, params: &Params<'_, '_>, name: &str) -> Result<String, AllocError>
    requires { AllText (path_words params.now) }
    ensures { IfOk result (λ s. string_bytes s ≡ spec.word_of name.now (path_words params.now)) }
{
    String::from_str(alloc, params.get(name).unwrap_or(""))
}

/// The resource with the words that its path has.
pub(crate) fn with_words(
    alloc: Global,
    resource: Resource,
    params: &Params<'_, '_>,
) -> Result<Route, AllocError>
    requires { AllText (path_words params.now) }
    ensures { IfOk result (λ r. route_view r ≡ spec.route_at resource (path_words params.now)) }
{
    match resource {
        Resource::Submissions => Ok(Route::Submissions),
        Resource::Cancellations => Ok(Route::Cancellations),
        Resource::Day => Ok(Route::Day {
            room: word(alloc, params, "room")?,
            day: word(alloc, params, "day")?,
        }),
        Resource::Request => Ok(Route::Request {
            room: word(alloc, params, "room")?,
            id: word(alloc, params, "id")?,
        }),
        Resource::ErrorLog => Ok(Route::ErrorLog {
            room: word(alloc, params, "room")?,
        }),
        Resource::Position => Ok(Route::Position),
        Resource::Pull => Ok(Route::Pull),
        Resource::Push => Ok(Route::Push),
    }
}
