ghost use Rattle.std.specs.Prelude.{◌≡◌, true, bytes_eq, Err};
ghost use Rattle.std.specs.List.{list_any};
ghost use Rattle.mr_model.specs.Replies.{RoomAdded};
ghost use Rattle.mr_model.specs.Scopes.{Nothing};
ghost use Rattle.mr_model.specs.Step.{add_room};
ghost use Rattle.mr_part.specs.Answering.{NeverStore};
ghost use Rattle.mr_part.specs.Parts.{TakesPart};

use crate::Part;
use crate::calls::changes::room_change;
use mr_base::{Refusal, RoomName};
use mr_tables::Change;
use mr_tables::rooms::is_known;

impl Part {
    /// Adds a room that isn't known, and answers what that changes in the tables.
    pub fn add_room(&self, room: &RoomName) -> Result<Change, Refusal>
        ensures step { TakesPart Nothing (λ a. add_room a room.now) (λ _ _. RoomAdded) (λ change. change) self.now result }
        // A refusal that is due is returned without memory.
        ensures due { list_any (bytes_eq room.now) self.now.rooms ≡ true → result ≡ Err Refusal.RoomThere }
        ensures own { NeverStore result }
    {
        room.as_str();
        if is_known(&self.rooms, room) {
            return Err(Refusal::RoomThere);
        }
        room_change(self.alloc, &self.summary, room)
    }
}
