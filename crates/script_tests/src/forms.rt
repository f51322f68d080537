//! The order of a script's lines by their forms, and the numbers of the causes for which lines are refused.
use crate::content::name_of;
use crate::rows::Kind;
use crate::texts::inside_of;
use defmt_lines::{Cause, Form, Line, read_line};
use std::fmt::Write;
use std::test::Fail;
use test_rows::{each_line, put_str};

// A line, and the forms of which a line may stand behind it.
const ORDERS: &str = "\
<language full> = ring mode reader stamp profile order entry statement say
<ring 64> = mode reader stamp profile order entry statement say
<mode skip> = reader stamp profile order entry statement say
<reader late> = stamp profile order entry statement say
<stamp 1 2> = profile order entry statement say
<profile 2> = order entry statement say
<d 4 warn> = order entry statement say
<s a defmt_info> = entry statement say
<w 0 hi> = statement say
<t 0 A tick> = statement say";

fn form_of(line: &Line<'_>) -> Option<Form> {
    match line {
        Line::Head(form, _) => Some(*form),
        Line::Entry(_) => Some(Form::Entry),
        Line::Act(form, _) => Some(*form),
        Line::Blank | Line::Other => None,
    }
}

// Puts the forms of which a line may come where this one is the first that may.
fn put_forms_from(first: Form, out: &mut String) -> Result<(), Fail> {
    let mut gap = "";
    for form in [
        Form::Language,
        Form::Ring,
        Form::Mode,
        Form::Reader,
        Form::Stamp,
        Form::Profile,
        Form::Order,
        Form::Entry,
        Form::Statement,
        Form::Say,
    ] {
        if form.is_in_order(first) {
            write!(out, "{gap}{}", name_of(form))?;
            gap = " ";
        }
    }
    Ok(())
}

pub fn put_forms_behind(row: &str, out: &mut String) -> Result<(), Fail> {
    match form_of(&read_line(inside_of(row)?.as_bytes())) {
        Some(form) => put_forms_from(form.next(), out),
        None => put_str(out, "no form"),
    }
}

#[test]
fn forms_have_an_order(rt: HostRuntime) -> Result<(), Fail> {
    each_line(rt.alloc(), ORDERS, 10, &Kind::FormsBehind)
}

#[test]
fn causes_have_their_numbers(rt: HostRuntime) {
    let numbers = [
        Cause::Line.number(),
        Cause::Name.number(),
        Cause::Double.number(),
        Cause::Args(3).number(),
        Cause::Writer.number(),
        Cause::Ring.number(),
        Cause::Mode.number(),
        Cause::Late.number(),
        Cause::Long.number(),
        Cause::Text(6).number(),
        Cause::Many.number(),
        Cause::Wide.number(),
        Cause::Stamp.number(),
        Cause::Profile.number(),
        Cause::Terminal.number(),
        Cause::Words.number(),
        Cause::Level.number(),
    ];
    let due = [1u8, 2, 3, 4, 5, 6, 7, 8, 9, 10, 11, 12, 13, 15, 16, 17, 19];
    assert_eq!(rt; numbers.as_slice(), due.as_slice());
}

#[test]
fn causes_of_arguments_and_texts_have_an_inner_number(rt: HostRuntime) {
    let numbers = [
        Cause::Args(3).inner(),
        Cause::Text(6).inner(),
        Cause::Line.inner(),
    ];
    assert_eq!(rt; numbers.as_slice(), [3u8, 6, 0].as_slice());
}
