//! The rows of the tests, by what is asked of their inputs.
use crate::eager::{put_length_for, put_line_in};
use crate::flat::{put_flat_in, put_flat_shown, put_flat_wide};
use crate::grammar::{put_pieces_text, put_slots, put_spelling, put_uses};
use crate::hints::put_filled;
use crate::intern::{put_answers, put_count_of_variants, put_parsed};
use crate::names::{put_name_text, put_written};
use crate::places::{put_placed, put_widths};
use crate::values::{put_verdict_in, put_verdict_of};
use crate::{eager, hints};
use std::alloc::Global;
use std::test::Fail;
use test_rows::Question;

/// What is asked of an input, each as its module says.
#[derive(Drop)]
pub enum Kind {
    EagerShown,
    LineIn,
    LengthFor,
    SpellingOf,
    PiecesText,
    SlotsText,
    UsesText,
    HintShown,
    Filled,
    Answers,
    ParsedText,
    CountOfVariants,
    Written,
    NameText,
    VerdictIn,
    VerdictOf,
    Placed,
    Widths,
    FlatIn,
    FlatShown,
    FlatWide,
}

impl Question for Kind {
    fn put_answer(&self, alloc: Global, input: &str, out: &mut String) -> Result<(), Fail> {
        match self {
            Self::EagerShown => eager::put_shown(alloc, input, out),
            Self::LineIn => put_line_in(alloc, input, out),
            Self::LengthFor => put_length_for(alloc, input, out),
            Self::SpellingOf => put_spelling(alloc, input, out),
            Self::PiecesText => put_pieces_text(alloc, input, out),
            Self::SlotsText => put_slots(alloc, input, out),
            Self::UsesText => put_uses(alloc, input, out),
            Self::HintShown => hints::put_shown(alloc, input, out),
            Self::Filled => put_filled(alloc, input, out),
            Self::Answers => put_answers(alloc, input, out),
            Self::ParsedText => put_parsed(alloc, input, out),
            Self::CountOfVariants => put_count_of_variants(alloc, input, out),
            Self::Written => put_written(alloc, input, out),
            Self::NameText => put_name_text(alloc, input, out),
            Self::VerdictIn => put_verdict_in(alloc, input, out),
            Self::VerdictOf => put_verdict_of(alloc, input, out),
            Self::Placed => put_placed(alloc, input, out),
            Self::Widths => put_widths(alloc, input, out),
            Self::FlatIn => put_flat_in(alloc, input, out),
            Self::FlatShown => put_flat_shown(alloc, input, out),
            Self::FlatWide => put_flat_wide(alloc, input, out),
        }
    }
}
