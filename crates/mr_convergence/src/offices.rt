//! What comes of exchanges between replicas once none of them accepts anything new.

ghost use Rattle.mr_convergence.specs.Convergence.{HandedOnReaches, ByOneReplica, ReachedKnowsAll, AllConverge, ExchangesConverge, KnowingAllStays};
ghost use Rattle.mr_convergence.specs.Convergence.{AllSettle, SettledAreAlike, SettledStay};
ghost use Rattle.mr_convergence.specs.Convergence.{GivenUnlessTruncated, PrimaryGivesAndIsGiven, BatchesWithThePrimaryAreMade, ConvergenceIsPossible, SettlementIsPossible};

/// When what each replica knows has reached each other, and nothing is accepted or committed meanwhile, all know the same and answer alike
/// about each room that both know. (A room without requests isn't exchanged.)
pub fn convergence_law()
    ensures handed { HandedOnReaches }
    ensures hub { ByOneReplica }
    ensures all { ReachedKnowsAll }
    ensures alike { AllConverge }
    ensures exchanges { ExchangesConverge }
    ensures stays { KnowingAllStays }
{}

/// When all has reached the primary, it has committed all, and that has reached each, nothing is tentative anywhere; and so it stays until
/// something is accepted.
pub fn settlement_law()
    ensures settled { AllSettle }
    ensures alike { SettledAreAlike }
    ensures stay { SettledStay }
{}

/// A batch is refused only if its maker has dropped what the other lacks, so never to or from the primary; and so all can converge and
/// settle, from each honest world, with batches of at most so many lines, however few.
pub fn meeting_law()
    ensures given { GivenUnlessTruncated }
    ensures primary { PrimaryGivesAndIsGiven }
    ensures made { BatchesWithThePrimaryAreMade }
    ensures converging { ConvergenceIsPossible }
    ensures settling { SettlementIsPossible }
{}
