//! The texts of replies to the steps of a script.

ghost use Rattle.std.specs.Prelude.{◌≡◌, IfOk, IfErr};
ghost use Rattle.mr_model.specs.World.{Made};
ghost use Rattle.mr_service.specs.Stepping.{step_reply_of};
ghost use Rattle.mr_tasks.specs.Rehearsed.{step_reply_text};

use mr_base::Refusal;
use mr_service::{StepReply, reply_text};
use std::alloc::Global;

/// The text of a reply to a step.
pub(crate) fn step_reply_text(alloc: Global, reply: &StepReply) -> Result<Vec<u8>, Refusal>
    ensures text { IfOk result (λ text. text.items ≡ step_reply_text (step_reply_of reply.now)) }
    ensures memory { IfErr result (λ e. e ≡ Refusal.OutOfMemory) }
{
    let line = match reply {
        StepReply::Said(reply) => return reply_text(alloc, reply),
        StepReply::Made { number, bytes } => return made_text(alloc, *number, *bytes),
        StepReply::Added => "ok\n",
        StepReply::There => "there\n",
        StepReply::NoReplica => "no replica\n",
        StepReply::NoBatch => "no batch\n",
    };
    Ok(line.as_bytes().to_vec(alloc)?)
}

/// The text of a batch that was made.
fn made_text(alloc: Global, number: u64, bytes: u64) -> Result<Vec<u8>, Refusal>
    ensures text { IfOk result (λ text. text.items ≡ step_reply_text (Made number bytes)) }
    ensures memory { IfErr result (λ e. e ≡ Refusal.OutOfMemory) }
{
    match format!(in alloc; "batch {number} {bytes} bytes\n") {
        Ok(text) => Ok(text.into_bytes()),
        Err(_) => Err(Refusal::OutOfMemory),
    }
}
