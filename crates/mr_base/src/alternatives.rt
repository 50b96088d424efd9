ghost use Rattle.std.specs.Prelude.{◌≡◌, List, Ok};
ghost use Rattle.mr_model.specs.Slots.{Slot as SlotOfDay};
ghost use Rattle.mr_base.specs.Answers.{OrOutOfMemory};

use crate::{Refusal, Slot};
use std::alloc::Global;
use std::marker::Model;

/// The other slots that a request would take, in its order. How many there may be `Meeting::new` tests.
#[derive(Debug, Drop)]
pub struct Alternatives {
    slots: Vec<Slot>,
}

impl Model for Alternatives {
    ghost Value = { List SlotOfDay };

    ghost view = { λ a. a.slots.items };
}

impl Alternatives {
    /// The alternatives of this list.
    pub fn from_vec(list: Vec<Slot>) -> Alternatives
        ensures { result ≡ list.items }
    {
        Alternatives { slots: list }
    }

    /// The slots, the one that is to be tried first in front.
    pub fn as_slice(&self) -> &[Slot]
        ensures { result.now ≡ self.now }
    {
        self.slots.as_slice()
    }

    /// An equal list.
    pub fn copy(&self, alloc: Global) -> Result<Alternatives, Refusal>
        ensures { OrOutOfMemory result (Ok self.now) }
    {
        let slots = Vec::from_slice(alloc, self.as_slice())?;
        Ok(Alternatives { slots })
    }
}
