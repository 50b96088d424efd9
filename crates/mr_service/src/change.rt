//! A command over a keeper: the part that it needs is loaded, a call of the part does the step, and what that changes is made in the
//! tables.

ghost use Rattle.mr_part.specs.ScopeOf.{scope_of};
ghost use Rattle.mr_service.specs.Asked.{reply_in};
ghost use Rattle.mr_service.specs.Turns.{IsLoaded, IsMadeFor};

use crate::replies::Reply;
use mr_base::Refusal;
use mr_part::{Part, Scope};
use mr_store::Keeper;
use mr_tables::Change;

/// The part of the tables that a command of this scope needs.
pub(crate) fn load<K: Keeper>(keeper: &mut K, scope: &Scope<'_>) -> Result<Part, Refusal>
    ensures { IsLoaded K.Keeper keeper.old keeper.new (scope_of scope.now) result }
{
    let part = keeper.load_part(scope)?;
    Ok(part)
}

/// Makes the change that a call of the part answered, last of all, and replies.
pub(crate) fn change<K: Keeper>(
    keeper: &mut K,
    answer: Result<(Reply, Change), Refusal>,
) -> Result<Reply, Refusal>
    ensures { IsMadeFor K.Keeper keeper.old keeper.new answer (reply_in result) }
{
    let (reply, change) = answer?;
    keeper.apply(&change)?;
    Ok(reply)
}
