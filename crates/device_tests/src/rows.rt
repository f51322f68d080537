//! The rows of the tests, by what is asked of their inputs.
use crate::alone::put_alone;
use crate::arguments::put_form;
use crate::hooks::{put_packages, put_rank, put_rules, put_stamps};
use crate::hosted::put_hosted;
use crate::logger::{put_logged, put_logged_and_dropped};
use crate::macros::put_message;
use crate::sites::{put_list, put_site};
use crate::steering::{put_heard, put_steered};
use crate::talks::put_talk;
use crate::writers::{put_in_time, put_meeting, put_open, put_queued};
use std::alloc::Global;
use std::sync::Wait;
use std::test::Fail;
use std::thread::Threads;

// What is asked of an input, each as its module says.
#[derive(Drop)]
pub(crate) enum Kind {
    Form,
    Stamps,
    Rank,
    Rules,
    Packages,
    Site,
    List,
    Message,
    Logged,
    LoggedAndDropped,
    Heard,
    Steered,
    Meeting,
    Queued,
    InTime,
    Open,
    Alone,
    Talk,
    Hosted,
}

fn put_answer<R: Threads + Wait + Sync>(
    rt: &R,
    alloc: Global,
    kind: &Kind,
    input: &str,
    out: &mut String,
) -> Result<(), Fail> {
    match kind {
        Kind::Form => put_form(alloc, input, out),
        Kind::Stamps => put_stamps(input, out),
        Kind::Rank => put_rank(input, out),
        Kind::Rules => put_rules(alloc, input, out),
        Kind::Packages => put_packages(alloc, input, out),
        Kind::Site => put_site(alloc, input, out),
        Kind::List => put_list(alloc, input, out),
        Kind::Message => put_message(alloc, input, out),
        Kind::Logged => put_logged(rt, alloc, input, out),
        Kind::LoggedAndDropped => put_logged_and_dropped(rt, alloc, input, out),
        Kind::Heard => put_heard(input, out),
        Kind::Steered => put_steered(rt, alloc, input, out),
        Kind::Meeting => put_meeting(rt, alloc, input, out),
        Kind::Queued => put_queued(rt, alloc, input, out),
        Kind::InTime => put_in_time(rt, alloc, input, out),
        Kind::Open => put_open(rt, alloc, input, out),
        Kind::Alone => put_alone(rt, alloc, input, out),
        Kind::Talk => put_talk(rt, alloc, input, out),
        Kind::Hosted => put_hosted(rt, alloc, input, out),
    }
}

fn each_row<R: Threads + Wait + Sync>(
    rt: &R,
    alloc: Global,
    rows: &str,
    between: &str,
    mark: &str,
    count: usize,
    kind: &Kind,
) -> Result<(), Fail> {
    test_rows::each_row(alloc, rows, between, mark, count, |alloc, input, out| {
        put_answer(rt, alloc, kind, input, out)
    })
}

// Asks for the answers of lines, as `test_rows::each_line` does.
pub(crate) fn each_line<R: Threads + Wait + Sync>(
    rt: &R,
    alloc: Global,
    lines: &str,
    count: usize,
    kind: &Kind,
) -> Result<(), Fail> {
    each_row(rt, alloc, lines, "\n", " = ", count, kind)
}

// Asks for the answers of blocks, as `test_rows::each_block` does.
pub(crate) fn each_block<R: Threads + Wait + Sync>(
    rt: &R,
    alloc: Global,
    blocks: &str,
    count: usize,
    kind: &Kind,
) -> Result<(), Fail> {
    each_row(rt, alloc, blocks, "\n\n", "\n=\n", count, kind)
}
