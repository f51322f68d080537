//! The lines of what is no statement, in each form.
ghost use Rattle.std.specs.Prelude.{◌≡◌, ◌++◌, codes, IfOk, OnOk};
ghost use Rattle.std.specs.Fmt.{decimal};
ghost use Rattle.defmt_encode.specs.Cause.{fault_name};
ghost use Rattle.defmt_recording.specs.Output.{ended};
ghost use Rattle.defmt_recording.specs.Styled.{fault_text, front_text, report_text, tail_text};

use crate::output::{add_count, add_ended, add_fault};
use defmt_encode::fault_name;
use defmt_forms::{
    add_alarm, add_json_fault, add_json_front, add_json_gap, add_json_tail, add_warning,
};
use defmt_words::Form;
use dl_io::{Bytes, Memory};
use std::alloc::Global;

/// Appends the line of a piece that gives no line, and a newline.
pub fn add_bad(alloc: Global, form: Form, cause: u8, out: &mut Bytes) -> Result<(), Memory>
    ensures { OnOk result (out.new.items ≡ out.old.items ++ ended (fault_text form cause)) }
{
    match form {
        Form::Plain => add_ended(fault_words(alloc, cause)?.as_slice(), out),
        Form::Color => add_alarm(fault_words(alloc, cause)?.as_slice(), out),
        Form::Json => add_json_fault(cause, fault_name(cause), out),
    }
}

fn fault_words(alloc: Global, cause: u8) -> Result<Bytes, Memory>
    ensures { IfOk result (λ words. words.items
        ≡ codes "-- E" ++ decimal cause ++ codes " " ++ fault_name cause) }
{
    let mut words = Bytes::new(alloc);
    add_fault(alloc, cause, &mut words)?;
    Ok(words)
}

/// Appends the line of so many bytes that are cut off in front, and a newline.
pub fn add_front(alloc: Global, form: Form, bytes: u64, out: &mut Bytes) -> Result<(), Memory>
    ensures { OnOk result (out.new.items ≡ out.old.items ++ ended (front_text form bytes)) }
{
    match form {
        Form::Plain => add_ended(words(alloc, b"-- front ", bytes)?.as_slice(), out),
        Form::Color => add_alarm(words(alloc, b"-- front ", bytes)?.as_slice(), out),
        Form::Json => add_json_front(bytes, out),
    }
}

/// Appends the line of so many bytes that are cut off at the end, and a newline.
pub fn add_tail(alloc: Global, form: Form, bytes: u64, out: &mut Bytes) -> Result<(), Memory>
    ensures { OnOk result (out.new.items ≡ out.old.items ++ ended (tail_text form bytes)) }
{
    match form {
        Form::Plain => add_ended(words(alloc, b"-- tail ", bytes)?.as_slice(), out),
        Form::Color => add_alarm(words(alloc, b"-- tail ", bytes)?.as_slice(), out),
        Form::Json => add_json_tail(bytes, out),
    }
}

/// Appends a report of so many missing frames, and a newline.
#[inline(never)]
pub fn add_report(alloc: Global, form: Form, count: u16, out: &mut Bytes) -> Result<(), Memory>
    ensures { OnOk result (out.new.items ≡ out.old.items ++ ended (report_text form count)) }
{
    let count = u64::from(count);
    match form {
        Form::Plain => add_ended(words(alloc, b"-- gap ", count)?.as_slice(), out),
        Form::Color => add_warning(words(alloc, b"-- gap ", count)?.as_slice(), out),
        Form::Json => add_json_gap(count, out),
    }
}

// A number behind its words.
fn words(alloc: Global, front: &[u8], count: u64) -> Result<Bytes, Memory>
    ensures { IfOk result (λ words. words.items ≡ front.now ++ decimal count) }
{
    let mut words = Bytes::new(alloc);
    add_count(alloc, front, count, &mut words)?;
    Ok(words)
}
