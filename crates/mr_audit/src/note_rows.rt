ghost use Rattle.std.specs.Prelude.{◌≡◌, refl};
ghost use Rattle.mr_agree.specs.Agreeing.{Note as NoteOfRow, log_note, error_note, cancel_note};

use mr_base::WriteId;
use mr_tables::{CancelRow, ErrorRow, IdRow, LogRow};
use std::marker::Model;

/// What rows of the log, of errors and of cancels have of a write: its id, its time, and its commit number or 0.
#[derive(Clone, Copy, Debug)]
pub(crate) struct Note {
    pub(crate) id: WriteId,
    pub(crate) time: u64,
    pub(crate) seq: u64,
}

impl Model for Note {
    ghost Value = { NoteOfRow };

    ghost view = { λ a. record { id = a.id; time = a.time; seq = a.seq } };

    ghost inverse = { λ v. record { id = v.id; time = v.time; seq = v.seq } };
}

/// A row with the time and the commit number of its write.
pub(crate) trait NoteRow: IdRow {
    ghost note: { Self → NoteOfRow };

    fn note(&self) -> Note
        ensures { result ≡ note self.now };

    ghost of_id: { (row : Self) → (note row).id ≡ Self.id row };
}

impl NoteRow for LogRow {
    ghost note = { log_note };

    ghost of_id = { λ row. refl };

    fn note(&self) -> Note {
        Note {
            id: self.id(),
            time: self.time,
            seq: self.seq,
        }
    }
}

impl NoteRow for ErrorRow {
    ghost note = { error_note };

    ghost of_id = { λ row. refl };

    fn note(&self) -> Note {
        Note {
            id: self.id(),
            time: self.time,
            seq: self.seq,
        }
    }
}

impl NoteRow for CancelRow {
    ghost note = { cancel_note };

    ghost of_id = { λ row. refl };

    fn note(&self) -> Note {
        Note {
            id: self.id(),
            time: self.time,
            seq: self.seq,
        }
    }
}
