//! What sessions tell whose calls fail, beside the one without a fault.
use crate::sessions::put_status;
use defmt_run::Outcome;
use std::alloc::Global;
use std::test::Fail;
use test_rows::{begins_with, is_same, parted, put, put_ended, put_number, put_once, text_of};

// Puts the status of an outcome, how many marks there are, and behind a bar what was written.
pub(crate) fn put_marked(
    alloc: Global,
    outcome: &Outcome,
    written: &[u8],
    out: &mut String,
) -> Result<(), Fail> {
    put_status(alloc, outcome, out)?;
    put(out, ", ");
    put_number(out, outcome.tape.len() as u64);
    put(out, " marks|");
    put(out, text_of(written));
    Ok(())
}

// How much of what is due was written.
fn share_of(written: &str, due: &str) -> &'static str {
    if is_same(written, "") {
        "nothing"
    } else if begins_with(due, written) {
        "a front"
    } else {
        "others"
    }
}

// Puts what is told of a session with a fault, where without a fault this is told, unless it stands there.
pub(crate) fn put_share(
    alloc: Global,
    told: &str,
    whole: &str,
    out: &mut String,
) -> Result<(), Fail> {
    let (front, written) = parted(told, '|');
    let (_, due) = parted(whole, '|');
    let mut line = String::new(alloc);
    put(&mut line, front);
    put(&mut line, ", ");
    put(&mut line, share_of(written, due));
    put_once(line.as_str(), out)
}

// Puts the status and the lines of a session without a fault.
pub(crate) fn put_whole(whole: &str, out: &mut String) {
    let (front, lines) = parted(whole, '|');
    let (status, _) = parted(front, ',');
    put(out, status);
    put_ended(lines, out);
}
