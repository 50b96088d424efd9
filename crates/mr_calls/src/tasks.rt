//! The laws of what commands without a socket ask of the databases of offices.

ghost use Rattle.mr_calls.specs.TaskCalls.{ExportsAreGiven, InitsFound, OpeningsReopen, QuestionsAreCalls, TasksAreAsked, TasksAreCalls, TasksHappen};

use mr_store::Keeper;

/// What a task (an import, an export, a question, a booking and the others) asks of a database, as its function over any keeper tells of it, is one call of an
/// office's database, or none. At an office such a call happens, if what an import reads is a prefix of what some office gave; behind an export so is
/// each prefix of its file.
pub fn tasks_law<K: Keeper>()
    ensures calls { TasksAreCalls K.Keeper }
    ensures opens { OpeningsReopen K.Keeper }
    ensures happen { TasksHappen K.Keeper }
    ensures asked { TasksAreAsked }
    ensures given { ExportsAreGiven K.Keeper }
{}

/// A question that is asked of a copy of a database is a call of the database itself, which leaves that as it is.
pub fn questions_law<K: Keeper, C: Keeper>()
    ensures { QuestionsAreCalls K.Keeper C.Keeper }
{}

/// A database that `init` made is that of a new office.
pub fn founding_law<K: Keeper>()
    ensures { InitsFound K.Keeper }
{}
