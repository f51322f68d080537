//! What fits a small table, and each cause for which a statement doesn't.
use crate::rows::Kind;
use crate::shared::{language_of, script_of, table_in, text_of};
use defmt_grammar::Language;
use defmt_intern::Table;
use defmt_script::Script;
use defmt_values::{Args, Item, Items, Node, Nodes, Seq, Statement, Value, check};
use dl_io::Bytes;
use std::alloc::Global;
use std::fmt::Write;
use std::test::Fail;
use test_rows::{bytes_of, each_block, each_line, put_str};

// The strings behind the first one.
const FURTHER: &str = "\
2 defmt_prim p
3 defmt_str word
4 defmt_prim {=f32}
5 defmt_prim a|b
6 defmt_prim k
7 defmt_prim {}";

// Those behind them in a table of the full language.
const FULL_FURTHER: &str = "\
0 defmt_prim first
8 defmt_derived {=__internal_FormatSequence}";

const SLOTS: &str = "\
{=u128}, uint 340282366920938463463374607431768211455 = fits
{=i128}, int -170141183460469231731687303715884105728 = fits
{=char}, char x = fits
{=bool}, bool true = fits
{=u8}, uint 255 = fits
{=u8}, uint 256 = cause 4
{=usize}, uint 4294967295 = fits
{=usize}, uint 4294967296 = cause 4
{=i8}, int -128 = fits
{=i8}, int -129 = cause 4
{=i16}, int 32768 = cause 4
{0=0..4} {0=8..12}, bits 0a05 = fits
{0=0..4} {0=8..12}, bits ffff = fits
{0=0..4} {0=8..12}, bits 10000 = cause 4
{=8..16}, bits 0100 = fits
{=8..16}, bits 0101 = cause 4
{=str}, str x = fits
{=[u8]}, bytes 61 62 63 = fits
{=[u8; 3]}, bytes 61 62 63 = fits
{=[u8; 3]}, bytes 61 62 = cause 4";

const CAUSES: &str = "\
{=u8} {=bool} = cause 2
{=u8} {=bool}, uint 1 = cause 2
{=u8} {=bool}, bool true = cause 3
{=u8} {=bool}, uint 256, uint 1 = cause 4
{=u8} {=bool}, uint 1, bool true, bool true = cause 2
{=?} {=istr}, node 2, istr 3 = fits
{=?} {=istr}, node 99, istr 3 = cause 5
{=?} {=istr}, node 3, istr 3 = cause 5
{=?} {=istr}, node 2, istr 2 = cause 5
{=?} {=istr}, node 4, istr 3 = cause 8
{=?} {=istr}, node 5, istr 3 = cause 4
{=?} {=istr}, variant 2 5, istr 3 = cause 4
{=?} {=istr}, variant 0 2, istr 3 = cause 4
99 = cause 5
5 = cause 4";

const LISTS: &str = "\
{}, nested 15 = fits
{}, nested 16 = cause 6
{=[?]}, list 8192 = fits
{=[?]}, list 8193 = cause 7
{0=[?]}{0=[?]}, list 4096 = fits
{0=[?]}{0=[?]}, list 4097 = cause 7
{=[?; 2]}, list 2 = fits
{=[?; 2]}, list 3 = cause 4
{=[?; 2]}, list 0 = cause 5
{=[?]}, empty list = fits";

// Of a table of the full language.
const FULL: &str = "\
full {=f32}, float 4294967295 = fits
full {=f32}, float 4294967296 = cause 4
full {=f64}, float 18446744073709551615 = fits
full {=u64}, float 1 = cause 3
full {=f32}, uint 1 = cause 3
full {=__internal_Debug}, str x = fits
full {=__internal_Display}, str x = fits
full {=__internal_Debug}, uint 1 = cause 3
full {=?}, node 4 = cause 2
full {=?}, node 0 = fits";

const SEQUENCES: &str = "\
full {=__internal_FormatSequence}, sequence 2 6 = fits
full {=__internal_FormatSequence}, sequence - = fits
full {=__internal_FormatSequence}, sequence 2 0 = cause 5
full {=__internal_FormatSequence}, sequence 2 3 = cause 5
full {=__internal_FormatSequence}, sequence 99 = cause 5
full {=__internal_FormatSequence}, sequence 5 = cause 4
full {=__internal_FormatSequence}, empty list = cause 3
full {=[?]}, sequence - = cause 3
full {=__internal_FormatSequence}, chain 16 = fits
full {=__internal_FormatSequence}, chain 17 = cause 6
full {=__internal_FormatSequence}, elements 8192 = fits
full {=__internal_FormatSequence}, elements 8193 = cause 7
full {0=__internal_FormatSequence}{0=__internal_FormatSequence}, elements 4097 = cause 7";

const NESTED: &str = "\
s v defmt_info at {} {:x}
s optional defmt_prim None|Some({=?})
s number defmt_prim {=u8}
s point defmt_derived Pt {{ x: {=?}, y: {=?} }}
w 0 v point(number(3) number(255)) optional:1(number(255))
=
fits with 2";

fn node_of(index: u16, variant: Option<u8>, args: Args) -> Node {
    Node {
        index,
        variant,
        args,
    }
}

// A value without arguments, of the variant where two numbers are given.
fn variant_of(alloc: Global, numbers: &str) -> Result<Value, Fail> {
    let (variant, index) = numbers.split_once(' ').ok_or("no index")?;
    let variant = variant.parse::<u8>()?;
    let index = index.parse::<u16>()?;
    Ok(Value::Format(node_of(index, Some(variant), Args::new(alloc))))
}

// A value in so many others.
fn nested_of(alloc: Global, levels: u16) -> Result<Value, Fail> {
    let mut node = node_of(6, None, Args::new(alloc));
    for _ in 0..levels {
        let mut args = Args::new(alloc);
        args.push(Value::Format(node))?;
        node = node_of(7, None, args);
    }
    Ok(Value::Format(node))
}

// A list of elements without arguments.
fn list_of(alloc: Global, count: u16) -> Result<Value, Fail> {
    let mut items = Items::new(alloc);
    for _ in 0..count {
        items.push(Item {
            variant: None,
            args: Args::new(alloc),
        })?;
    }
    Ok(Value::Seq(Seq {
        index: Some(6),
        items,
    }))
}

fn empty_list(alloc: Global) -> Value {
    Value::Seq(Seq {
        index: None,
        items: Items::new(alloc),
    })
}

// A sequence of elements without arguments, of each index.
fn sequence_of(alloc: Global, indexes: &str) -> Result<Value, Fail> {
    let mut nodes = Nodes::new(alloc);
    for index in indexes.split(' ') {
        if index != "-" {
            nodes.push(node_of(index.parse::<u16>()?, None, Args::new(alloc)))?;
        }
    }
    Ok(Value::Sequence(nodes))
}

// A sequence of so many elements without arguments.
fn elements_of(alloc: Global, count: u16) -> Result<Value, Fail> {
    let mut nodes = Nodes::new(alloc);
    for _ in 0..count {
        nodes.push(node_of(6, None, Args::new(alloc)))?;
    }
    Ok(Value::Sequence(nodes))
}

// An empty sequence in so many elements of sequences.
fn chain_of(alloc: Global, levels: u16) -> Result<Value, Fail> {
    let mut nodes = Nodes::new(alloc);
    for _ in 0..levels {
        let mut args = Args::new(alloc);
        args.push(Value::Sequence(nodes))?;
        nodes = Nodes::new(alloc);
        nodes.push(node_of(8, None, args))?;
    }
    Ok(Value::Sequence(nodes))
}

fn value_of(alloc: Global, spelled: &str) -> Result<Value, Fail> {
    let (kind, rest) = spelled.split_once(' ').ok_or("no value")?;
    match kind {
        "uint" => Ok(Value::Uint(rest.parse::<u128>()?)),
        "int" => Ok(Value::Int(rest.parse::<i128>()?)),
        "bits" => Ok(Value::Bits(u128::from_str_radix(rest, 16)?)),
        "char" => Ok(Value::Char(rest.chars().next().ok_or("no character")?)),
        "bool" => Ok(Value::Bool(rest == "true")),
        "str" => Ok(Value::Str(text_of(alloc, rest)?)),
        "bytes" => Ok(Value::Bytes(Bytes::from_vec(bytes_of(alloc, rest)?))),
        "istr" => Ok(Value::Istr(rest.parse::<u16>()?)),
        "node" => Ok(Value::Format(node_of(rest.parse::<u16>()?, None, Args::new(alloc)))),
        "variant" => variant_of(alloc, rest),
        "nested" => nested_of(alloc, rest.parse::<u16>()?),
        "list" => list_of(alloc, rest.parse::<u16>()?),
        "float" => Ok(Value::Float(rest.parse::<u64>()?)),
        "sequence" => sequence_of(alloc, rest),
        "elements" => elements_of(alloc, rest.parse::<u16>()?),
        "chain" => chain_of(alloc, rest.parse::<u16>()?),
        _ => Ok(empty_list(alloc)),
    }
}

fn args_of(alloc: Global, spelled: &str) -> Result<Args, Fail> {
    let mut args = Args::with_room(alloc, 2)?;
    for value in spelled.split(", ") {
        args.push(value_of(alloc, value)?)?;
    }
    Ok(args)
}

fn put_verdict(verdict: Result<(), u8>, out: &mut String) -> Result<(), Fail> {
    match verdict {
        Ok(()) => put_str(out, "fits"),
        Err(cause) => Ok(write!(out, "cause {cause}")?),
    }
}

// A table whose first string is logged, with the others behind it; of the full language where `full` stands in front.
fn table_with(alloc: Global, first: &str) -> Result<Table, Fail> {
    let (language, text) = language_of(first);
    let further = match language {
        Language::Base => "",
        Language::Full => FULL_FURTHER,
    };
    let lines = format!(in alloc; "1 defmt_info {text}\n{FURTHER}\n{further}")?;
    table_in(alloc, language, lines.as_str())
}

// Puts what is said of a statement without arguments, of a text or of the string at an index.
fn put_bare_verdict(alloc: Global, input: &str, out: &mut String) -> Result<(), Fail> {
    let index = input.parse::<u16>().unwrap_or(1);
    let table = table_with(alloc, input)?;
    let args = Args::new(alloc);
    put_verdict(check(&table, &Statement { index, args }), out)
}

/// Puts what is said of a statement of a text, behind which its arguments stand.
pub fn put_verdict_of(alloc: Global, input: &str, out: &mut String) -> Result<(), Fail> {
    let Some((text, spelled)) = input.split_once(", ") else {
        return put_bare_verdict(alloc, input, out);
    };
    let args = args_of(alloc, spelled)?;
    let table = table_with(alloc, text)?;
    put_verdict(check(&table, &Statement { index: 1, args }), out)
}

fn put_first_verdict(script: &Script, out: &mut String) -> Result<(), Fail> {
    let statement = script.statement(0, 0).ok_or("no statement")?;
    put_verdict(check(script.table(), statement), out)?;
    Ok(write!(out, " with {}", statement.args.len())?)
}

/// Puts what is said of a script's first statement, and how many arguments it has.
pub fn put_verdict_in(alloc: Global, text: &str, out: &mut String) -> Result<(), Fail> {
    let script = script_of(alloc, text)?;
    put_first_verdict(&script, out)
}

#[test]
fn values_are_tested_by_their_slots_and_nested_values_fit(rt: HostRuntime) -> Result<(), Fail> {
    each_line(rt.alloc(), SLOTS, 20, &Kind::VerdictOf)?;
    each_block(rt.alloc(), NESTED, 1, &Kind::VerdictIn)
}

#[test]
fn counts_kinds_and_entries_are_refused_from_left_to_right_and_lists_fit_up_to_their_limits(
    rt: HostRuntime,
) -> Result<(), Fail> {
    each_line(rt.alloc(), CAUSES, 15, &Kind::VerdictOf)?;
    each_line(rt.alloc(), LISTS, 10, &Kind::VerdictOf)
}

#[test]
fn floats_texts_and_sequences_fit_a_table_of_the_full_language(
    rt: HostRuntime,
) -> Result<(), Fail> {
    each_line(rt.alloc(), FULL, 10, &Kind::VerdictOf)?;
    each_line(rt.alloc(), SEQUENCES, 13, &Kind::VerdictOf)
}
