//! What follows from the definitions of what records do, for whoever is told of them. These functions do nothing:
//! each states a law.
#![tactic(auto)]

ghost use Rattle.record_laws.specs.Laws.{HearersStandOnce, NoLineOpensABatch, RecordsOpenNoOthers};

/// No line of an answer is a BATCH: only an answer under a label is made into one (IRCv3 batch).
pub fn no_line_opens_a_batch()
    ensures { NoLineOpensABatch }
{}

/// A line of a record is shown to each of its hearers once.
pub fn hearers_stand_once()
    ensures { HearersStandOnce }
{}

/// No record but that of an opening opens a session.
pub fn records_open_no_others()
    ensures { RecordsOpenNoOthers }
{}
