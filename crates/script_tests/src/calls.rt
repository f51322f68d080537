//! Arguments that are read by quick ways beside others of the same meaning, which are left to the general one.
use crate::arguments::put_written;
use crate::readers::put_both;
use crate::rows::Kind;
use crate::texts::{inside_of, script_of};
use defmt_intern::Table;
use defmt_shapes::{last_call, quick_decimal, skip_spaces};
use defmt_spelling::Names;
use std::alloc::Global;
use std::test::Fail;
use test_rows::each_line;

const STRINGS: &str = "\
s log defmt_info {=?}
s z defmt_prim z
s num defmt_prim {=u8}
s n defmt_prim {=?}
s opt defmt_prim None|Some({=?})
s pair defmt_prim {=str}{=?}
s list defmt_prim {=[?]}
s word defmt_str word
s a_1 defmt_prim a
s a234567890123456789012345678901_ defmt_prim b";

// A Format value, in which each `!` stands for nothing, and in a second text for a space, so that no value in it ends its text and
// each closing bracket is searched for. Whether it's read to the text's end at once or left to that search, and what both read.
const CALLS: &str = r#"<z(!)!> = quick <z()>
<num(255!)!> = quick <num(255)>
<  num( 7 !)!> = quick <num(7)>
<n(n(n(num(1!)!)!)!)!> = quick <n(n(n(num(1))))>
<n(n(n(n(n(n(n(n(n(n(n(n(n(n(n(z(!)!)!)!)!)!)!)!)!)!)!)!)!)!)!)!)!> = quick <n(n(n(n(n(n(n(n(n(n(n(n(n(n(n(z())))))))))))))))>
<n(n(n(n(n(n(n(n(n(n(n(n(n(n(n(n(z(!)!)!)!)!)!)!)!)!)!)!)!)!)!)!)!)!)!> = quick cause 6
<n(opt:1(num(7!)!)!)!> = quick <n(opt:1(num(7)))>
<opt:0(!)!> = left <opt:0()>
<pair(")" z(!)!)!> = left <pair(")" z())>
<pair("(" pair("a\"" z(!)!)!)!> = quick <pair("(" pair("a\"" z()))>
<list(z[() ()]!)!> = left <list(z[() ()])>
<list([]!)!> = quick <list([])>
<a_1(!)!> = quick <a_1()>
<a234567890123456789012345678901_(!)!> = quick <a234567890123456789012345678901_()>
<a2345678901234567890123456789012_(!)!> = left cause 1
<num(256!)!> = quick cause 4
<num(true!)!> = quick cause 3
<num(!)!> = quick cause 2
<z(1!)!> = quick cause 2
<n(num(1!)! z(!)!)!> = left cause 2
<num(1!) num(2!)!> = left cause 2
<num(1!)) num(2!)!> = left cause 1
<num(1!)! 2> = left cause 2
<num(1!> = left cause 1
<num 1)> = left cause 1
<num(x!)!> = quick cause 1
<n(num(256 x!)!)!> = quick cause 1
<nobody(!)!> = quick cause 5
<word(!)!> = quick cause 5
<_z(!)!> = left cause 1
<1z(!)!> = left cause 1
<(1!)!> = left cause 1
<z:(!)!> = left cause 1
<7> = left cause 3
<> = left cause 2"#;

// A format string, a number in decimal digits and the same in hexadecimal ones, which no quick reader reads; whether the quick one
// reads the first, and what both are as arguments.
const NUMBERS: &str = "\
{=u8} 255 0xff = quick <255>
{=u8} 256 0x100 = quick cause 4
{=u16} 65535 0xffff = quick <65535>
{=u16} 65536 0x10000 = quick cause 4
{=u32} 4294967295 0xffffffff = quick <4294967295>
{=u32} 4294967296 0x100000000 = quick cause 4
{=usize} 4294967295 0xffffffff = quick <4294967295>
{=usize} 4294967296 0x100000000 = quick cause 4
{=u64} 18446744073709551599 0xffffffffffffffef = quick <18446744073709551599>
{=u64} 18446744073709551600 0xfffffffffffffff0 = left <18446744073709551600>
{=u64} 18446744073709551615 0xffffffffffffffff = left <18446744073709551615>
{=u64} 18446744073709551616 0x10000000000000000 = left cause 4
{=u128} 0 0x0 = quick <0>
{=u128} 340282366920938463463374607431768211455 0xffffffffffffffffffffffffffffffff = left <340282366920938463463374607431768211455>
{=u128} 340282366920938463463374607431768211456 0x100000000000000000000000000000000 = left cause 4
{=0..8} 255 0xff = quick <255>
{=0..8} 256 0x100 = quick cause 4
{=4..12} 65535 0xffff = quick <65535>
{=8..16} 65280 0xff00 = quick <65280>
{=8..16} 65281 0xff01 = quick cause 4
{=0..24} 16777215 0xffffff = quick <16777215>";

// Puts what two rows are read as, where no quick way is taken for the second.
fn put_read_both(
    alloc: Global,
    names: &Names,
    table: &Table,
    quick: bool,
    rows: (&str, &str),
    out: &mut String,
) -> Result<(), Fail> {
    let mut near = String::new(alloc);
    put_written(alloc, names, table, rows.0, &mut near)?;
    let mut far = String::new(alloc);
    put_written(alloc, names, table, rows.1, &mut far)?;
    put_both(quick, near.as_str(), far.as_str(), out)
}

// Whether the value of a row is a call up to the row's end.
fn is_last_call(row: &str) -> Result<bool, Fail> {
    Ok(last_call(skip_spaces(inside_of(row)?)).is_some())
}

/// Puts what a Format value is read as that ends its text, and one that doesn't.
pub fn put_quick_call(alloc: Global, row: &str, out: &mut String) -> Result<(), Fail> {
    let near = row.replace(alloc, '!', "")?;
    let far = row.replace(alloc, '!', " ")?;
    if row.contains('!') && is_last_call(far.as_str())? {
        return Err(Fail::new("a call up to the end"));
    }
    let quick = is_last_call(near.as_str())?;
    let script = script_of(alloc, STRINGS)?;
    let rows = (near.as_str(), far.as_str());
    put_read_both(alloc, script.names(), script.table(), quick, rows, out)
}

fn put_number_by(
    alloc: Global,
    form: &str,
    near: &str,
    far: &str,
    out: &mut String,
) -> Result<(), Fail> {
    if quick_decimal(far).is_some() {
        return Err(Fail::new("a quick number"));
    }
    let strings = format!(in alloc; "s log defmt_info {form}")?;
    let script = script_of(alloc, strings.as_str())?;
    let quick = quick_decimal(near).is_some();
    let near = format!(in alloc; "<{near}>")?;
    let far = format!(in alloc; "<{far}>")?;
    let rows = (near.as_str(), far.as_str());
    put_read_both(alloc, script.names(), script.table(), quick, rows, out)
}

/// Puts what a number is read as that is spelled in both bases, behind the format string that it is read for.
pub fn put_quick_number(alloc: Global, row: &str, out: &mut String) -> Result<(), Fail> {
    let (form, numbers) = row.split_once(' ').unwrap_or((row, ""));
    let (near, far) = numbers.split_once(' ').unwrap_or((numbers, ""));
    put_number_by(alloc, form, near, far, out)
}

#[test]
fn calls_up_to_the_end_are_read_as_others(rt: HostRuntime) -> Result<(), Fail> {
    each_line(rt.alloc(), CALLS, 35, &Kind::QuickCall)
}

#[test]
fn decimal_numbers_are_read_as_hexadecimal_ones(rt: HostRuntime) -> Result<(), Fail> {
    each_line(rt.alloc(), NUMBERS, 21, &Kind::QuickNumber)
}
