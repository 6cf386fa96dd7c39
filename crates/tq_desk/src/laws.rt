//! Functions without a body: their contracts are the laws of a desk's journal.

ghost use Rattle.tq_desk.specs.DeskJournal.{DeskBounds, DeskLaws};
ghost use Rattle.tq_desk.specs.DecisionLog.{AreWritten, EndsAreTold, EndsStay, KeepsJournals, LegalIsLog, LogIsLegal};

/// The journals of a desk, as the desk's step has them, are the decision logs: each reply is what the entries before
/// it say. After each the desk keeps what the journal says, and an end once recorded stays and is told.
pub fn decision_log()
    ensures log { LegalIsLog }
    ensures legal { LogIsLegal }
    ensures keeps { KeepsJournals }
    ensures files { AreWritten }
    ensures ends_stay { EndsStay }
    ensures ends_are_told { (bounds : DeskBounds) → EndsAreTold bounds }
{}

/// The laws of a desk's journal: what it tells is final, and what it commits is fresh and rests on good evidence.
pub fn desk_laws()
    ensures { (bounds : DeskBounds) → DeskLaws bounds }
{}
