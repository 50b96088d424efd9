//! What a keeper answers a question by: `meta` and `vector` are tested together before the rows of the answer are read. Each row is tested by
//! itself as it is read.

ghost use Rattle.std.specs.Prelude.{◌≡◌, true, IfOk, OnOk};
ghost use Rattle.sqlite.specs.State.{HasCleanDisk};
ghost use Rattle.sqlite.specs.Held.{state};
ghost use Rattle.mr_store.specs.Answers.{IsAnswerTo, IsNamedAs};
ghost use Rattle.mr_rows.specs.Database.{IsKept, tables_in};
ghost use Rattle.mr_rows.specs.Reads.{ReadsKept};
ghost use Rattle.mr_sql.specs.FailedReads.{FailsByStoreAlone};
ghost use Rattle.mr_sql.specs.Numbers.{do_numbers_agree};

use crate::answers::{bookings_of, place_of, rooms_of};
use crate::numbers::check_numbers;
use mr_rows::Idle;
use mr_rows::asked_rows::rows_in;
use mr_store::{Answer, Question};
use sqlite::{Alter, Error};
use std::alloc::Global;

/// What the tables of this database answer to the question, if their numbers agree.
pub(crate) fn query<S: Alter>(
    conn: &mut Idle<S>,
    alloc: Global,
    question: &Question<'_>,
) -> Result<Answer, Error>
    ensures reads { ReadsKept (state S.Store conn.old) (state S.Store conn.new) result
        (IsAnswerTo question.now (tables_in (state S.Store conn.old).now.trees)) }
    ensures named { IfOk result (IsNamedAs question.now) }
    ensures numbers { HasCleanDisk (state S.Store conn.new) → IsKept (state S.Store conn.old)
        → OnOk result (do_numbers_agree (tables_in (state S.Store conn.old).now.trees) ≡ true) }
    ensures failed { FailsByStoreAlone (state S.Store conn.old) (state S.Store conn.new) result }
{
    check_numbers(conn, alloc)?;
    answer(conn, alloc, question)
}

/// What the tables of this database answer to the question.
fn answer<S: Alter>(
    conn: &mut Idle<S>,
    alloc: Global,
    question: &Question<'_>,
) -> Result<Answer, Error>
    ensures reads { ReadsKept (state S.Store conn.old) (state S.Store conn.new) result
        (IsAnswerTo question.now (tables_in (state S.Store conn.old).now.trees)) }
    ensures named { IfOk result (IsNamedAs question.now) }
    ensures failed { FailsByStoreAlone (state S.Store conn.old) (state S.Store conn.new) result }
{
    match *question {
        Question::Rooms => Ok(Answer::Rooms(rooms_of(conn, alloc)?)),
        Question::Bookings(room, day) => {
            Ok(Answer::Bookings(bookings_of(conn, alloc, room, day)?))
        }
        Question::PlaceOf(room, id) => Ok(Answer::PlaceOf(place_of(conn, alloc, room, id)?)),
        Question::Errors(room) => Ok(Answer::Errors(rows_in(conn, alloc, room)?)),
        Question::Cancelled(room) => Ok(Answer::Cancelled(rows_in(conn, alloc, room)?)),
        Question::Cancels(room) => Ok(Answer::Cancels(rows_in(conn, alloc, room)?)),
    }
}
