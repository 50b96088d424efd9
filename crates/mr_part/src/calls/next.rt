ghost use Rattle.std.specs.Prelude.{◌≡◌};
ghost use Rattle.mr_part.specs.NextId.{id_given, next_own_id};
ghost use Rattle.mr_part.specs.ScopeOf.{scope_of};

use crate::{Part, Scope};
use mr_base::WriteId;

impl Part {
    /// The id that a submission or a cancel would get, if the scope is that of one and neither the own server's count nor the clock
    /// is at its limit.
    pub fn id_given(&self, scope: &Scope<'_>) -> Option<WriteId>
        ensures { result ≡ id_given (scope_of scope.now) self.now.summary }
    {
        match *scope {
            Scope::InRoom(_) => self.next_id(),
            Scope::OfTarget(_) => self.next_id(),
            Scope::Nothing
            | Scope::NextCommits(_)
            | Scope::UpTo(_)
            | Scope::Above(_)
            | Scope::Items(_) => None,
        }
    }

    fn next_id(&self) -> Option<WriteId>
        ensures { result ≡ next_own_id self.now.summary }
    {
        match self.summary.next_stamp() {
            Ok(stamp) => Some(stamp.id()),
            Err(_) => None,
        }
    }
}
