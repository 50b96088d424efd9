//! Tables whose rows agree with each other: a definition, and the law that tables which stand for a replica agree. No program code.
//! It stands on `mr_model` alone; `mr_audit`, above it, tests what it defines. README.md says what is where.
#![tactic(auto)]

ghost use Rattle.mr_agree.specs.Agreeing.{StandingTablesAgree};
ghost use Rattle.mr_agree.specs.Ids.{NextIdsAreFree};

/// The rows of tables that stand for a replica agree with each other, and none has an id that is still to be given out.
pub fn agreement_of_rows_law()
    ensures agree { StandingTablesAgree }
    ensures free { NextIdsAreFree }
{}
