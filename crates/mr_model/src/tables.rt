//! Laws of the tables that stand for a replica: what they tell of it, what commands change in them, and answers read off them.

ghost use Rattle.mr_model.specs.Laws.{TablesKeepAllButDropped, EqualTablesEqualReplies, EqualTablesStayEqual, EqualTablesEqualRuns, TablesStandInKeyOrder, TablesHaveRowsOfKnown, SameRowsSameTables, LogsKeepTheOrder};
ghost use Rattle.mr_model.specs.Laws.{SubmissionsComeLast, CommitsMoveNothing, CommitsChangeNoFate, TruncationsTakeRows, WritesAreInserted, CommitsMoveOne};
ghost use Rattle.mr_model.specs.Laws.{EachWriteHasOneRow, RowsAreOfKnown, CalendarsAreBookingRows, CommittedCalendarsAreMarkedRows, ErrorLogsAreErrorRows, NoRowNoSuchRequest};
ghost use Rattle.mr_model.specs.Laws.{OutcomesAreRows, OutcomesOfBookedAreRows, OutcomesOfLoggedAreRows, OutcomesOfCancelledAreRows, OutcomesOfCancelsAreRows, RepliesToSubmissionsAreRows, AcceptedSubmissionsAreNext, AcceptedCancelsAreNext};
ghost use Rattle.mr_model.specs.Laws.{MovedTablesStand, FirstTablesHavePlaces};

/// Replicas with equal tables reply alike, now and after every command.
pub fn table_law()
    ensures kept { TablesKeepAllButDropped }
    ensures replies { EqualTablesEqualReplies }
    ensures after { EqualTablesStayEqual }
    ensures runs { EqualTablesEqualRuns }
    ensures keys { TablesStandInKeyOrder }
    ensures rows { TablesHaveRowsOfKnown }
    ensures same { SameRowsSameTables }
    ensures log { LogsKeepTheOrder }
{}

/// What a submission or a cancel, a commit, a truncation, and a received write or commit change of places and rows.
pub fn change_law()
    ensures submit { SubmissionsComeLast }
    ensures commit { CommitsMoveNothing }
    ensures fates { CommitsChangeNoFate }
    ensures truncate { TruncationsTakeRows }
    ensures write { WritesAreInserted }
    ensures commit_one { CommitsMoveOne }
{}

/// The answers to questions about a room are read off its rows in booking, errorlog, cancelled and cancels.
pub fn query_law()
    ensures one_row { EachWriteHasOneRow }
    ensures rows { RowsAreOfKnown }
    ensures calendar { CalendarsAreBookingRows }
    ensures committed { CommittedCalendarsAreMarkedRows }
    ensures errors { ErrorLogsAreErrorRows }
    ensures absent { NoRowNoSuchRequest }
{}

/// The outcome of a write is read off its row; so is the reply to a submission or a cancel, which makes the next write.
pub fn outcome_law()
    ensures outcome { OutcomesAreRows }
    ensures booked { OutcomesOfBookedAreRows }
    ensures logged { OutcomesOfLoggedAreRows }
    ensures cancelled { OutcomesOfCancelledAreRows }
    ensures cancels { OutcomesOfCancelsAreRows }
    ensures submission { RepliesToSubmissionsAreRows }
    ensures accepted { AcceptedSubmissionsAreNext }
    ensures accepted_cancel { AcceptedCancelsAreNext }
{}

/// Tables of the first schema move up to tables that stand for the same replicas.
pub fn moving_up_law()
    ensures moved { MovedTablesStand }
    ensures places { FirstTablesHavePlaces }
{}
