ghost use Rattle.std.specs.Prelude.{◌≡◌, map, IfOk, IfErr, OnErr};
ghost use Rattle.mr_model.specs.World as model;
ghost use Rattle.mr_model.specs.Honest.{IsHonest, IsWorldRun};
ghost use Rattle.mr_service.specs.LawfulRuns.{IsLawfulRun};
ghost use Rattle.mr_service.specs.Stepping.{step_of, step_reply_of};
ghost use Rattle.mr_service.specs.Worlds.{StandsForWorld, TakesWorldStep};

use crate::members::Member;
use crate::runs::put;
use crate::steps::{Step, StepReply};
use crate::world_batches::make;
use crate::world_steps::{add, ask, deliver};
use mr_base::Refusal;
use std::alloc::{AllocError, Global};
use std::marker::Model;

/// Replicas that exchange batches: one keeper of lists each, the first one added being the primary, and the bytes of the batches
/// that were made.
#[derive(Drop)]
pub struct World {
    alloc: Global,
    members: Vec<Member>,
    pool: Vec<Vec<u8>>,
}

impl Model for World {
    ghost use Rattle.std.specs.Prelude.{map};
    ghost use Rattle.mr_service.specs.Worlds.{WorldView};

    ghost Value = { WorldView };

    ghost view = { λ w. record { members = w.members.items; pool = map (λ bytes. bytes.items) w.pool.items } };
}

impl World {
    /// A world of no replicas. It takes its memory from this allocator later, as it grows.
    pub fn new(alloc: Global) -> World
        ensures { StandsForWorld result model.empty_world }
    {
        World {
            alloc,
            members: Vec::new(alloc),
            pool: Vec::new(alloc),
        }
    }

    /// Takes the steps one after the other, and answers the reply to each. Room for the replies is made first: no memory for
    /// it is the only refusal, and then nothing was done.
    pub fn run(&mut self, steps: &[Step]) -> Result<Vec<StepReply>, Refusal>
        ensures runs { (w : model.World) → StandsForWorld self.old w
            → IfOk result (λ replies. (end : model.World) × IsWorldRun w (map step_of steps.now) (map step_reply_of replies.items) end
            × StandsForWorld self.new end) }
        ensures lawful { (w : model.World) → IsHonest w → StandsForWorld self.old w
            → IfOk result (λ replies. (end : model.World) × IsLawfulRun w (map step_of steps.now) (map step_reply_of replies.items) end
            × StandsForWorld self.new end) }
        ensures cause { IfErr result (λ e. e ≡ Refusal.OutOfMemory) }
        ensures refused { OnErr result (self.new ≡ self.old) }
    {
        let mut replies = match Vec::with_capacity(self.alloc, steps.len()) {
            Ok(replies) => replies,
            Err(AllocError) => return Err(Refusal::OutOfMemory),
        };
        for step in steps {
            let reply = self.step(step);
            put(&mut replies, reply);
        }
        Ok(replies)
    }

    fn step(&mut self, step: &Step) -> StepReply
        ensures { TakesWorldStep self.old (step_of step.now) (step_reply_of result) self.new }
    {
        match step {
            Step::Add(server) => add(&mut self.members, self.alloc, *server),
            Step::Do(server, command) => ask(&mut self.members, self.alloc, *server, command),
            Step::Make {
                from,
                to,
                max_lines,
            } => make(
                &mut self.members,
                &mut self.pool,
                self.alloc,
                *from,
                *to,
                *max_lines,
            ),
            Step::Deliver { batch, to, bytes } => deliver(
                &mut self.members,
                self.alloc,
                self.pool.as_slice(),
                *batch,
                *to,
                *bytes,
            ),
        }
    }
}
