ghost use Rattle.std.specs.Prelude.{◌≡◌};
ghost use Rattle.std.specs.Option.{option_copied};
ghost use Rattle.mr_replay.specs.Rows.{Rows as RowsSeen, row_at};

use mr_base::WriteId;
use mr_replay::{Overlay, Row, SeenBoard};

/// Rows by the ids of their writes: those of a part's board, or of what a batch makes of it.
pub(crate) trait BoardRows {
    ghost rows: { Self → RowsSeen };

    /// The row of the write with this id.
    fn row(&self, id: WriteId) -> Option<&Row>
        ensures { option_copied result ≡ row_at (rows self.now) id };
}

impl BoardRows for SeenBoard {
    ghost rows = { λ b. b };

    fn row(&self, id: WriteId) -> Option<&Row> {
        self.row(id)
    }
}

impl BoardRows for Overlay {
    ghost rows = { λ b. b };

    fn row(&self, id: WriteId) -> Option<&Row> {
        self.row(id)
    }
}
