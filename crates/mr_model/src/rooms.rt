//! Laws of slots, days and writes, and of the replay of a room's writes: by itself, and on one board with those of other rooms.

ghost use Rattle.mr_model.specs.Laws.{OverlapIsTested};
ghost use Rattle.mr_model.specs.Laws.{DaysAreNumbered};
ghost use Rattle.mr_model.specs.Laws.{SameWriteIsTested};
ghost use Rattle.mr_model.specs.Laws.{OneReplay, FrontsReplayToFronts, CommittedPlacesStandAlone};
ghost use Rattle.mr_model.specs.Laws.{StandingIsBooked, StandingIsTold, StandingIsToldOfCommitted, StandingAreApart};
ghost use Rattle.mr_model.specs.Laws.{CalendarsShowStanding, CommittedListIsAPart, CancelsComeLater, FatesFollowTheOrder};
ghost use Rattle.mr_model.specs.Laws.{RoomsReplayApart, RoomsAreBookedApart, RoomsReplayApartOnBoards, PlacesAreTheBoards};
ghost use Rattle.mr_model.specs.Laws.{OneWriteMore, OneMoreOnTheBoard, MoreOnTheBoard, FrontsOnTheBoard};

/// The test of an overlap says what an overlap is.
pub fn overlap_is_tested()
    ensures { OverlapIsTested }
{}

/// The days are numbered one after the other, from a Monday on.
pub fn calendar_law()
    ensures { DaysAreNumbered }
{}

/// The test of equal writes says that they are equal.
pub fn same_write_is_tested()
    ensures { SameWriteIsTested }
{}

/// A list of writes has one replay, and a prefix of it a prefix of that; so committed writes have the places of their own replay.
pub fn replay_law()
    ensures one { OneReplay }
    ensures fronts { FrontsReplayToFronts }
    ensures committed { CommittedPlacesStandAlone }
{}

/// The bookings that stand at the end of a list are those that it tells as booked and not cancelled.
pub fn standing_law()
    ensures booked { StandingIsBooked }
    ensures told { StandingIsTold }
    ensures told_of_committed { StandingIsToldOfCommitted }
    ensures apart { StandingAreApart }
{}

/// Calendars show just the bookings that stand; and what becomes of writes follows from their order alone.
pub fn telling_law()
    ensures calendars { CalendarsShowStanding }
    ensures committed { CommittedListIsAPart }
    ensures later { CancelsComeLater }
    ensures fates { FatesFollowTheOrder }
{}

/// On a board of all rooms each room's part is its own replay, and a replica's places are those of its order.
pub fn board_law()
    ensures apart { RoomsReplayApart }
    ensures booked { RoomsAreBookedApart }
    ensures boards { RoomsReplayApartOnBoards }
    ensures places { PlacesAreTheBoards }
{}

/// One write more, more of them, and the last ones undone.
pub fn next_write_law()
    ensures one { OneWriteMore }
    ensures one_on_board { OneMoreOnTheBoard }
    ensures more_on_board { MoreOnTheBoard }
    ensures fronts { FrontsOnTheBoard }
{}
