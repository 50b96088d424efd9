ghost use Rattle.std.specs.Prelude.{◌≡◌};
ghost use Rattle.mr_model.specs.Http.{lines_over_http};

use mr_base::LineCount;

/// The greatest length of a body, in bytes.
pub const GREATEST_BODY: u64 = 1_048_576;

/// How many lines a batch has at most that goes over HTTP.
pub fn lines_over_http() -> LineCount
    ensures { result ≡ lines_over_http }
{
    LineCount::new(64).unwrap()
}
