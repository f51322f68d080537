//! The rows of the tests, by what is asked of their inputs.
use crate::dumps::{put_cuts, put_dumps, put_segments};
use crate::headers::put_answer_to_header;
use crate::linked::put_answer_to_symbols;
use crate::markers::put_answer_to_markers;
use crate::places::put_places;
use crate::{symbols, tables};
use defmt_grammar::Language;
use std::alloc::Global;
use std::test::Fail;
use test_rows::Question;

/// What is asked of an input, each as its module says.
#[derive(Drop)]
pub enum Kind {
    AnswerToMarkers,
    AnswerToHeader,
    SymbolReadBack,
    SymbolAnswerToDamage,
    SymbolAnswerOfTwo,
    TableReadBack,
    TableAnswerToDamage,
    AnswerToSymbols,
    AnswerInFull,
    Segments,
    Dumps,
    Cuts,
    Places,
}

impl Question for Kind {
    fn put_answer(&self, alloc: Global, input: &str, out: &mut String) -> Result<(), Fail> {
        match self {
            Self::AnswerToMarkers => put_answer_to_markers(alloc, input, out),
            Self::AnswerToHeader => put_answer_to_header(alloc, input, out),
            Self::SymbolReadBack => symbols::put_read_back(alloc, input, out),
            Self::SymbolAnswerOfTwo => symbols::put_answer_of_two(alloc, input, out),
            Self::SymbolAnswerToDamage => symbols::put_answer_to_damage(alloc, input, out),
            Self::TableReadBack => tables::put_read_back(alloc, input, out),
            Self::TableAnswerToDamage => tables::put_answer_to_damage(alloc, input, out),
            Self::AnswerToSymbols => put_answer_to_symbols(alloc, input, Language::Base, out),
            Self::AnswerInFull => put_answer_to_symbols(alloc, input, Language::Full, out),
            Self::Segments => put_segments(alloc, input, out),
            Self::Dumps => put_dumps(alloc, input, out),
            Self::Cuts => put_cuts(alloc, input, out),
            Self::Places => put_places(alloc, input, out),
        }
    }
}
