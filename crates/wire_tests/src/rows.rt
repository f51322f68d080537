//! The rows of the tests, by what is asked of their inputs.
use crate::{codes, events, gaps, hearing, line_parts, messages, parts, plans, reading, screens};
use std::alloc::Global;
use std::test::Fail;
use test_rows::Question;

/// What is asked of an input, each as its module says.
#[derive(Drop)]
pub enum Kind {
    Encoded,
    Decoded,
    BackAgain,
    BoundOf,
    ToldOfWords,
    ToldOfBoth,
    EventCallsOf,
    ToldByScript,
    ToldByTable,
    LineParts,
    GapOf,
    Shown,
    Sent,
    ReadByScript,
    ReadByTable,
    WrittenOfLetters,
    PartsOf,
    PartCallsOf,
    PieceOf,
    Heard,
    AtHand,
    Repeated,
    PlannedSent,
    PlannedByScript,
    PlannedByTable,
}

impl Question for Kind {
    fn put_answer(&self, alloc: Global, input: &str, out: &mut String) -> Result<(), Fail> {
        match self {
            Self::Encoded => codes::put_encoded(alloc, input, out),
            Self::Decoded => codes::put_decoded(alloc, input, out),
            Self::BackAgain => codes::put_back_again(alloc, input, out),
            Self::BoundOf => codes::put_bound_of(input, out),
            Self::ToldOfWords => events::put_told_of_words(alloc, input, out),
            Self::ToldOfBoth => events::put_told_of_both(alloc, input, out),
            Self::EventCallsOf => events::put_calls_of(alloc, input, out),
            Self::ToldByScript => events::put_told_by_script(alloc, input, out),
            Self::ToldByTable => events::put_told_by_table(alloc, input, out),
            Self::LineParts => line_parts::put_line_parts(alloc, input, out),
            Self::GapOf => gaps::put_gap_of(input, out),
            Self::Shown => screens::put_shown_of(alloc, input, out),
            Self::Sent => messages::put_sent(alloc, input, out),
            Self::ReadByScript => reading::put_read_by_script(alloc, input, out),
            Self::ReadByTable => reading::put_read_by_table(alloc, input, out),
            Self::WrittenOfLetters => messages::put_written_of_letters(alloc, input, out),
            Self::PartsOf => parts::put_parts_of(alloc, input, out),
            Self::PartCallsOf => parts::put_calls_of(alloc, input, out),
            Self::PieceOf => parts::put_piece_of(alloc, input, out),
            Self::Heard => hearing::put_heard(alloc, input, out),
            Self::AtHand => hearing::put_at_hand(alloc, input, out),
            Self::Repeated => hearing::put_repeated(alloc, input, out),
            Self::PlannedSent => plans::put_sent(alloc, input, out),
            Self::PlannedByScript => plans::put_by_script(alloc, input, out),
            Self::PlannedByTable => plans::put_by_table(alloc, input, out),
        }
    }
}
