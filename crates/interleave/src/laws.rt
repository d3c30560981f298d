//! What follows for a user. These functions do nothing: each states a law.
ghost use Rattle.interleave.specs.Laws.{OnceInOrder, TakenInOrder, AcceptedIsPrefixOfSent, ErrorAtMostAfterTheClose};
ghost use Rattle.interleave.specs.Laws.{LabelledOnce, LabelledFirst, LoneUnbatched, BatchClosed, HeardOnce};
ghost use Rattle.interleave.specs.Whole.{AnsweredOnceAndWhole};

use answer_octets::{
    lone_line_is_whole, one_item_counts, one_line_has_the_label, several_lines_are_whole,
};
use clean_records::answers_are_clean;
use labels_batches::{
    label_stands_first, lone_line_opens_no_batch, several_lines_are_a_closed_batch,
};
use record_laws::{hearers_stand_once, no_line_opens_a_batch, records_open_no_others};

/// A history owes a session at most one delivery of each record, and the deliveries stand in the order of the records.
pub fn once_in_order()
    ensures { OnceInOrder }
{}

/// What was ever taken of a session is at most one delivery of each record, in the order of the records, and no
/// delivery that it is owed before the last of them was left out.
pub fn taken_in_order()
    ensures { TakenInOrder }
{}

/// The accepted lines of a session are the first of the lines of all octets that were ever read of it.
pub fn accepted_is_prefix_of_sent()
    ensures { AcceptedIsPrefixOfSent }
{}

/// The record after which a session is shut owes it the ERROR line at most, and no later record owes it anything.
pub fn error_at_most_after_the_close()
    ensures { ErrorAtMostAfterTheClose }
{}

/// A line with a label that counts by the capabilities that its session had before it, other than QUIT, is answered
/// once where its record doesn't miss the session: one delivery is the answer under the label, with what the session
/// sent to itself, and no other line.
pub fn labelled_once()
    ensures { LabelledOnce }
{
    label_stands_first();
}

/// The answer to such a line has the label on its first line, and on no other.
pub fn labelled_first()
    ensures { LabelledFirst }
{
    label_stands_first();
}

/// Where the answer to such a line is one line at most it is one line with the label, which opens no batch.
pub fn lone_line_unbatched()
    ensures { LoneUnbatched }
{
    lone_line_opens_no_batch();
    no_line_opens_a_batch();
    records_open_no_others();
}

/// Where the answer to such a line is several lines it is a batch that is closed, with the record's number for its
/// reference at both ends.
pub fn batch_closed()
    ensures { BatchClosed }
{
    several_lines_are_a_closed_batch();
}

/// As octets: among all lines of the deliveries of such a line's record one has a label, and its answer is whole: one
/// line that opens no batch, or a batch that is closed.
pub fn answered_once_and_whole()
    ensures { AnsweredOnceAndWhole }
{
    once_in_order();
    labelled_once();
    one_item_counts();
    one_line_has_the_label();
    lone_line_is_whole();
    several_lines_are_whole();
    answers_are_clean();
    no_line_opens_a_batch();
    records_open_no_others();
}

/// A line of any record is shown to each of its hearers once.
pub fn heard_once()
    ensures { HeardOnce }
{
    hearers_stand_once();
    records_open_no_others();
}
