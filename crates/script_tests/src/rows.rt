//! The rows of the tests, by what is asked of their inputs.
use crate::arguments::{put_answers_of, put_written_by_script, put_written_of_kind};
use crate::calls::{put_quick_call, put_quick_number};
use crate::content::{
    put_cut, put_name, put_said_by_bytes, put_said_by_text, put_setting, put_verdict,
};
use crate::forms::put_forms_behind;
use crate::readers::put_quick_value;
use crate::scripts::{put_refusal, put_refusal_at_limit};
use crate::shapes::{
    put_behind_calls, put_behind_spaces, put_bytes, put_item, put_meaning, put_value,
};
use std::alloc::Global;
use std::test::Fail;
use test_rows::Question;

/// What is asked of an input, each as its module says.
#[derive(Drop)]
pub enum Kind {
    WrittenOfKind,
    WrittenByScript,
    AnswersOf,
    CutOf,
    SaidByText,
    SaidByBytes,
    SettingOf,
    FormsBehind,
    VerdictOf,
    NameOf,
    RefusalOf,
    RefusalAtLimit,
    ValueOf,
    ItemOf,
    MeaningOf,
    BytesMeant,
    BehindSpaces,
    BehindCalls,
    QuickValue,
    QuickCall,
    QuickNumber,
}

impl Question for Kind {
    fn put_answer(&self, alloc: Global, input: &str, out: &mut String) -> Result<(), Fail> {
        match self {
            Self::WrittenOfKind => put_written_of_kind(alloc, input, out),
            Self::WrittenByScript => put_written_by_script(alloc, input, out),
            Self::AnswersOf => put_answers_of(alloc, input, out),
            Self::CutOf => put_cut(alloc, input, out),
            Self::SaidByText => put_said_by_text(input, out),
            Self::SaidByBytes => put_said_by_bytes(alloc, input, out),
            Self::SettingOf => put_setting(input, out),
            Self::FormsBehind => put_forms_behind(input, out),
            Self::VerdictOf => put_verdict(alloc, input, out),
            Self::NameOf => put_name(input, out),
            Self::RefusalOf => put_refusal(alloc, input, out),
            Self::RefusalAtLimit => put_refusal_at_limit(alloc, input, out),
            Self::ValueOf => put_value(alloc, input, out),
            Self::ItemOf => put_item(alloc, input, out),
            Self::MeaningOf => put_meaning(alloc, input, out),
            Self::BytesMeant => put_bytes(alloc, input, out),
            Self::BehindSpaces => put_behind_spaces(input, out),
            Self::BehindCalls => put_behind_calls(alloc, input, out),
            Self::QuickValue => put_quick_value(alloc, input, out),
            Self::QuickCall => put_quick_call(alloc, input, out),
            Self::QuickNumber => put_quick_number(alloc, input, out),
        }
    }
}
