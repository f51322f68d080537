//! The rows of the tests, by what is asked of their inputs.
use crate::blocks::{put_blocks, put_ids, put_waiting, put_written};
use crate::lists::put_lists;
use crate::modes::put_frames;
use crate::rings::put_rings;
use crate::shelves::put_shelves;
use crate::sizes::put_sizes;
use crate::streams::{put_large, put_sinks, put_sources};
use std::alloc::Global;
use std::test::Fail;
use test_rows::Question;

/// What is asked of an input, each as its module says.
#[derive(Drop)]
pub enum Kind {
    Ids,
    Blocks,
    Waiting,
    Written,
    Frames,
    Sizes,
    Rings,
    Lists,
    Sources,
    Large,
    Sinks,
    Shelves,
}

impl Question for Kind {
    fn put_answer(&self, alloc: Global, input: &str, out: &mut String) -> Result<(), Fail> {
        match self {
            Self::Ids => put_ids(alloc, input, out),
            Self::Blocks => put_blocks(alloc, input, out),
            Self::Waiting => put_waiting(alloc, input, out),
            Self::Written => put_written(alloc, input, out),
            Self::Frames => put_frames(alloc, input, out),
            Self::Sizes => put_sizes(alloc, input, out),
            Self::Rings => put_rings(alloc, input, out),
            Self::Lists => put_lists(alloc, input, out),
            Self::Sources => put_sources(alloc, input, out),
            Self::Large => put_large(alloc, input, out),
            Self::Sinks => put_sinks(alloc, input, out),
            Self::Shelves => put_shelves(alloc, input, out),
        }
    }
}
