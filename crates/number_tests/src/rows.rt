//! The rows of the tests, by what is asked of their inputs.
use crate::dates::{Form, put_time};
use crate::floats::{put_narrow, put_wide};
use std::alloc::Global;
use std::test::Fail;
use test_rows::Question;

/// What is asked of an input, each as its module says.
#[derive(Drop)]
pub enum Kind {
    Narrow,
    Wide,
    Time(Form),
}

impl Question for Kind {
    fn put_answer(&self, alloc: Global, input: &str, out: &mut String) -> Result<(), Fail> {
        let _ = alloc;
        match self {
            Self::Narrow => put_narrow(input, out),
            Self::Wide => put_wide(input, out),
            Self::Time(form) => put_time(*form, input, out),
        }
    }
}
