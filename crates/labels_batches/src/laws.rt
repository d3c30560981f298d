//! What follows for whoever labels a line. These functions do nothing: each states a law.
ghost use Rattle.labels_batches.specs.Whole.{LabelFirst, LoneOpensNone, SeveralAreClosed};

/// The answer to a labelled line has the label on its first line, and on no other.
pub fn label_stands_first()
    ensures { LabelFirst }
{}

/// An answer of one line at most is one line with the label, which opens no batch where the answer's own line is no
/// BATCH; what the session sent to itself follows.
pub fn lone_line_opens_no_batch()
    ensures { LoneOpensNone }
{}

/// An answer of several lines is a batch that is closed, whose reference is the record's number at both ends; what
/// the session sent to itself follows.
pub fn several_lines_are_a_closed_batch()
    ensures { SeveralAreClosed }
{}
