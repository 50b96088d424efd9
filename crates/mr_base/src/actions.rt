ghost use Rattle.std.specs.Prelude.{◌≡◌, IsTrue, IfOk, IfErr};
ghost use Rattle.mr_model.specs.Writes.{is_action, is_first_action, same_action};
ghost use Rattle.mr_base.specs.Actions.{action_of};

use crate::{MOST_ALTERNATIVES_IN_FIRST, Meeting, Refusal, WriteId};
use std::alloc::Global;

/// What a write asks for: a meeting in its room, or that the booking with this id be taken back.
#[derive(Debug, Drop)]
pub enum Action {
    Books(Meeting),
    Cancels(WriteId),
}

/// An equal action.
pub(crate) fn copy_of(action: &Action, alloc: Global) -> Result<Action, Refusal>
    ensures ok { IfOk result (λ copied. action_of copied ≡ action_of action.now) }
    ensures only { IfErr result (λ e. e ≡ Refusal.OutOfMemory) }
{
    match action {
        Action::Books(meeting) => Ok(Action::Books(meeting.copy(alloc)?)),
        Action::Cancels(target) => Ok(Action::Cancels(*target)),
    }
}

/// Says to proofs that every action is within the limits. It does nothing.
pub(crate) fn is_within_limits(action: &Action)
    ensures { IsTrue (is_action (action_of action.now)) }
{
    match action {
        Action::Books(meeting) => meeting.is_within_limits(),
        Action::Cancels(target) => {
            let _count = target.n;
        }
    }
}

/// Whether it is a booking of few enough alternatives for the first version of the exchange text.
pub(crate) fn is_first(action: &Action) -> bool
    ensures { result ≡ is_first_action (action_of action.now) }
{
    match action {
        Action::Books(meeting) => {
            meeting.alternatives.as_slice().len() <= MOST_ALTERNATIVES_IN_FIRST
        }
        Action::Cancels(_) => false,
    }
}

/// Whether the two are of one kind, and equal in all parts.
pub(crate) fn are_same(a: &Action, b: &Action) -> bool
    ensures { result ≡ same_action (action_of a.now) (action_of b.now) }
{
    match (a, b) {
        (Action::Books(a), Action::Books(b)) => a.is_same(b),
        (Action::Cancels(a), Action::Cancels(b)) => *a == *b,
        _ => false,
    }
}
