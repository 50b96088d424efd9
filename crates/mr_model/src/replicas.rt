//! Laws of one replica: what its steps keep, what it answers, and how commands are served from its tables.

ghost use Rattle.mr_model.specs.Laws.{OpeningsAreReplicas, StepsKeepReplicas, RunsKeepReplicas};
ghost use Rattle.mr_model.specs.Laws.{RepliesAreAnswers, EqualViewsAnswerAlike, RunsAnswer};
ghost use Rattle.mr_model.specs.Laws.{NoCommandsTakeNothing, TakenRunsGrow, TakenRunsServe, OneStepIsEachs, OneAfterIsEachs, ReachingIsAStep, FailuresAreSteps};

/// What holds of every replica holds of an opening one, and each step keeps it.
pub fn replica_law()
    ensures opening { OpeningsAreReplicas }
    ensures step { StepsKeepReplicas }
    ensures run { RunsKeepReplicas }
{}

/// Replies about a room are the answers of its view, so that equal views answer alike.
pub fn headline()
    ensures answers { RepliesAreAnswers }
    ensures alike { EqualViewsAnswerAlike }
    ensures runs { RunsAnswer }
{}

/// Commands served from tables: runs grow by steps, a run answers its questions, and one replica speaks for each.
pub fn serving_law()
    ensures nothing { NoCommandsTakeNothing }
    ensures grow { TakenRunsGrow }
    ensures serve { TakenRunsServe }
    ensures one_step { OneStepIsEachs }
    ensures one_after { OneAfterIsEachs }
    ensures reaching { ReachingIsAStep }
    ensures failures { FailuresAreSteps }
{}
