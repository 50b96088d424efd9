//! Laws of what offices do, over every list of their acts.

ghost use Rattle.mr_offices.specs.OfficeLaws.{OfficeRunsKeepHonesty, OfficeRunsAreOfActs, WorldRunsAreOfficeRuns, OfficeRunsAreWorldRuns, GivingIsMaking};
ghost use Rattle.mr_offices.specs.OfficeLaws.{OfficesKeepHistory, OfficesKeepPlaces, FrontsCountOrGap, CarriedFrontsAreTaken, CarriedBatchesBringAll, MutualKnowledgeIsAlike, PrimaryOfficeNeverTruncated};
ghost use Rattle.mr_offices.specs.OfficeLaws.{ReachedStays, CarriedBatchesHandOn, OfficesConverge, OfficesSettle, SettledOfficesAreAlike, SettledOfficesStay};

/// Runs of offices stay in honest worlds. Those of the definitions' world are such runs, and where each batch is made for the position that another
/// has at that moment, they are runs of the definitions' world of which some replies were not heard.
pub fn office_run_law()
    ensures honest { OfficeRunsKeepHonesty }
    ensures each { OfficeRunsAreOfActs }
    ensures heard { WorldRunsAreOfficeRuns }
    ensures world { OfficeRunsAreWorldRuns }
    ensures making { GivingIsMaking }
{}

/// (1), (5) and (6) of the world law: history and places are kept, and the primary has dropped nothing.
pub fn office_history_law()
    ensures history { OfficesKeepHistory }
    ensures places { OfficesKeepPlaces }
    ensures primary { PrimaryOfficeNeverTruncated }
{}

/// (2) to (4): a prefix of a batch is answered by a count or by a gap; by a count if the batch was made for a position that the receiver had any
/// time before, and then a whole batch brings all that its maker had.
pub fn office_delivery_law()
    ensures replies { FrontsCountOrGap }
    ensures fronts { CarriedFrontsAreTaken }
    ensures whole { CarriedBatchesBringAll }
    ensures alike { MutualKnowledgeIsAlike }
{}

/// (7): what reaches each leaves all alike, and settles.
pub fn office_convergence_law()
    ensures stays { ReachedStays }
    ensures hands_on { CarriedBatchesHandOn }
    ensures alike { OfficesConverge }
    ensures settled { OfficesSettle }
    ensures settled_alike { SettledOfficesAreAlike }
    ensures settled_stay { SettledOfficesStay }
{}
