//! The symbols of files, and those of written files and of damaged ones.
ghost use Rattle.std.specs.Prelude.{◌≤◌, ◌<◌, ◌^◌, ◌≢◌, length, All, IfOk};
ghost use Rattle.std.specs.Bool.{OnTrue};
ghost use Rattle.elf_section.specs.Symbol.{plain_all};
ghost use Rattle.elf_section.specs.Written.{IsWritable};

use crate::files::{REFUSED, damage};
use crate::rows::Kind;
use defmt_intern::Profile;
use dl_io::Bytes;
use elf_section::{ElfFault, Symbol, read_profile, read_symbols, write_symbols};
use std::alloc::Global;
use std::fmt::Write;
use std::test::Fail;
use test_rows::{bytes_of, each_block, each_line, expect, parted, put_digits, put_str};

fn put_symbol(symbol: &Symbol, out: &mut String) -> Result<(), Fail> {
    write!(out, "; {} ", symbol.value)?;
    put_str(out, str::from_utf8(symbol.name.as_slice())?)
}

// How many symbols there are, and the value and the name of each.
fn put_listing(symbols: &[Symbol], out: &mut String) -> Result<(), Fail> {
    write!(out, "{} symbols", symbols.len())?;
    for symbol in symbols {
        put_symbol(symbol, out)?;
    }
    Ok(())
}

fn put_refusal(fault: ElfFault, out: &mut String) -> Result<(), Fail> {
    match fault {
        ElfFault::Refused { cause, part, place } => {
            Ok(write!(out, "cause {cause} {part:?} {place}")?)
        }
        ElfFault::Memory => put_str(out, "memory"),
    }
}

// The profile of a file that has symbols, where it is the second.
fn put_profile(alloc: Global, file: &[u8], out: &mut String) -> Result<(), Fail>
    requires { length file.now < 2 ^ 32 }
{
    match read_profile(alloc, file) {
        Ok(Profile::One) => Ok(()),
        Ok(Profile::Two) => put_str(out, "; profile Two"),
        Err(_) => put_str(out, "; no profile"),
    }
}

/// Puts the symbols of a file and its profile, or its refusal.
pub fn put_symbols(alloc: Global, file: &[u8], out: &mut String) -> Result<(), Fail> {
    if file.len() >= 1 << 32 {
        return Err(Fail::new("the file is too long"));
    }
    match read_symbols(alloc, file) {
        Ok(symbols) => {
            put_listing(&symbols, out)?;
            put_profile(alloc, file, out)
        }
        Err(fault) => put_refusal(fault, out),
    }
}

// Whether no byte is zero.
fn is_text(name: &[u8]) -> bool
    ensures { OnTrue result (All (λ b. b ≢ 0) name.now) }
{
    name.iter().all(|b| *b != 0)
}

// Symbols of short names without a zero and of small values.
fn list_of(alloc: Global, lines: &[&str]) -> Result<Vec<Symbol>, Fail>
    requires { length lines.now ≤ 16 }
    ensures { IfOk result (λ v. IsWritable (plain_all v.items)) }
{
    let mut list = Vec::new(alloc);
    for line in lines {
        let (value, name) = parted(line, ' ');
        let value = value.parse::<u64>()?;
        let name = name.as_bytes();
        if name.len() > 1000 || value > 65535 || !is_text(name) {
            return Err(Fail::new("no symbol of this kind"));
        }
        let name = Bytes::from_slice(alloc, name)?;
        list.push(Symbol { name, value })?;
    }
    Ok(list)
}

// The lines of a text.
fn lines_of(alloc: Global, text: &str) -> Result<Vec<&str>, Fail> {
    let mut lines = Vec::new(alloc);
    for line in text.lines() {
        lines.push(line)?;
    }
    Ok(lines)
}

// The file of symbols, each with its value and name.
fn written(alloc: Global, profile: Profile, text: &str) -> Result<Bytes, Fail> {
    let lines = lines_of(alloc, text)?;
    if lines.len() > 16 {
        return Err(Fail::new("too many symbols"));
    }
    let list = list_of(alloc, &lines)?;
    Ok(write_symbols(alloc, &list, profile)?)
}

const HELLO: &str =
    r#"1 {"data":"hello","disambiguator":"1","package":"script","tag":"defmt_info"}"#;

// The file of that symbol in the first profile.
const FILE: &str = "\
7f 45 4c 46 01 01 01 00 00 00 00 00 00 00 00 00 \
02 00 28 00 01 00 00 00 00 00 00 00 00 00 00 00 10 01 00 00 00 00 00 00 34 00 00 00 00 00 28 00 05 00 04 00 \
00 00 00 00 00 00 00 00 00 00 00 00 00 00 00 00 \
01 00 00 00 01 00 00 00 00 00 00 00 10 00 f1 ff \
15 00 00 00 01 00 00 00 00 00 00 00 10 00 f1 ff \
2f 00 00 00 01 00 00 00 00 00 00 00 10 00 01 00 \
00 5f 64 65 66 6d 74 5f 76 65 72 73 69 6f 6e 5f 20 3d 20 34 00 5f 64 65 66 6d 74 5f 65 6e 63 6f 64 69 6e 67 5f 20 3d 20 72 7a 63 6f 62 73 00 \
7b 22 64 61 74 61 22 3a 22 68 65 6c 6c 6f 22 2c 22 64 69 73 61 6d 62 69 67 75 61 74 6f 72 22 3a 22 31 22 2c 22 70 61 63 6b 61 67 65 22 3a 22 73 63 72 69 70 74 22 2c 22 74 61 67 22 3a 22 64 65 66 6d 74 5f 69 6e 66 6f 22 7d 00 \
00 2e 64 65 66 6d 74 00 2e 73 79 6d 74 61 62 00 2e 73 74 72 74 61 62 00 2e 73 68 73 74 72 74 61 62 00 \
00 00 00 00 00 00 00 00 00 00 00 00 00 00 00 00 00 00 00 00 00 00 00 00 00 00 00 00 00 00 00 00 00 00 00 00 00 00 00 00 \
01 00 00 00 01 00 00 00 00 00 00 00 00 00 00 00 34 00 00 00 00 00 00 00 00 00 00 00 00 00 00 00 01 00 00 00 00 00 00 00 \
08 00 00 00 02 00 00 00 00 00 00 00 00 00 00 00 34 00 00 00 40 00 00 00 03 00 00 00 01 00 00 00 04 00 00 00 10 00 00 00 \
10 00 00 00 03 00 00 00 00 00 00 00 00 00 00 00 74 00 00 00 7a 00 00 00 00 00 00 00 00 00 00 00 01 00 00 00 00 00 00 00 \
18 00 00 00 03 00 00 00 00 00 00 00 00 00 00 00 ee 00 00 00 22 00 00 00 00 00 00 00 00 00 00 00 01 00 00 00 00 00 00 00";

// And in the second, whose marker stands behind the two.
const FILE_OF_TWO: &str = "\
7f 45 4c 46 01 01 01 00 00 00 00 00 00 00 00 00 \
02 00 28 00 01 00 00 00 00 00 00 00 00 00 00 00 34 01 00 00 00 00 00 00 34 00 00 00 00 00 28 00 05 00 04 00 \
00 00 00 00 00 00 00 00 00 00 00 00 00 00 00 00 \
01 00 00 00 01 00 00 00 00 00 00 00 10 00 f1 ff \
15 00 00 00 01 00 00 00 00 00 00 00 10 00 f1 ff \
2f 00 00 00 01 00 00 00 00 00 00 00 10 00 f1 ff \
43 00 00 00 01 00 00 00 00 00 00 00 10 00 01 00 \
00 5f 64 65 66 6d 74 5f 76 65 72 73 69 6f 6e 5f 20 3d 20 34 00 5f 64 65 66 6d 74 5f 65 6e 63 6f 64 69 6e 67 5f 20 3d 20 72 7a 63 6f 62 73 00 5f 64 65 66 6d 74 5f 70 72 6f 66 69 6c 65 5f 20 3d 20 32 00 \
7b 22 64 61 74 61 22 3a 22 68 65 6c 6c 6f 22 2c 22 64 69 73 61 6d 62 69 67 75 61 74 6f 72 22 3a 22 31 22 2c 22 70 61 63 6b 61 67 65 22 3a 22 73 63 72 69 70 74 22 2c 22 74 61 67 22 3a 22 64 65 66 6d 74 5f 69 6e 66 6f 22 7d 00 \
00 2e 64 65 66 6d 74 00 2e 73 79 6d 74 61 62 00 2e 73 74 72 74 61 62 00 2e 73 68 73 74 72 74 61 62 00 \
00 00 00 00 00 00 00 00 00 00 00 00 00 00 00 00 00 00 00 00 00 00 00 00 00 00 00 00 00 00 00 00 00 00 00 00 00 00 00 00 \
01 00 00 00 01 00 00 00 00 00 00 00 00 00 00 00 34 00 00 00 00 00 00 00 00 00 00 00 00 00 00 00 01 00 00 00 00 00 00 00 \
08 00 00 00 02 00 00 00 00 00 00 00 00 00 00 00 34 00 00 00 50 00 00 00 03 00 00 00 01 00 00 00 04 00 00 00 10 00 00 00 \
10 00 00 00 03 00 00 00 00 00 00 00 00 00 00 00 84 00 00 00 8e 00 00 00 00 00 00 00 00 00 00 00 01 00 00 00 00 00 00 00 \
18 00 00 00 03 00 00 00 00 00 00 00 00 00 00 00 12 01 00 00 22 00 00 00 00 00 00 00 00 00 00 00 01 00 00 00 00 00 00 00";

#[test]
fn one_symbol_makes_472_bytes(rt: HostRuntime) -> Result<(), Fail> {
    let file = written(rt.alloc(), Profile::One, HELLO)?;
    assert_eq!(rt; file.len(), 472);
    let mut digits = String::new(rt.alloc());
    put_digits(&mut digits, file.as_slice())?;
    expect(digits.as_str(), FILE)
}

#[test]
fn one_symbol_makes_508_bytes_in_the_second_profile(rt: HostRuntime) -> Result<(), Fail> {
    let file = written(rt.alloc(), Profile::Two, HELLO)?;
    assert_eq!(rt; file.len(), 508);
    let mut digits = String::new(rt.alloc());
    put_digits(&mut digits, file.as_slice())?;
    expect(digits.as_str(), FILE_OF_TWO)
}

// Symbols that are written, in the second profile where it is said first, and what is read back.
const WRITTEN: &str =
    r#"1 {"data":"hello","disambiguator":"1","package":"script","tag":"defmt_info"}
=
1 symbols; 1 {"data":"hello","disambiguator":"1","package":"script","tag":"defmt_info"}

7 {b}
3 plain
65535 {
1
=
2 symbols; 7 {b}; 65535 {

1 _defmt_version_ = 5
=
cause 7 Nothing 0

two
1 {"data":"hello","disambiguator":"1","package":"script","tag":"defmt_info"}
=
1 symbols; 1 {"data":"hello","disambiguator":"1","package":"script","tag":"defmt_info"}; profile Two

two
7 {b}
3 plain
65535 {
1
=
2 symbols; 7 {b}; 65535 {; profile Two

1 _defmt_profile_ = 9
=
cause 9 Nothing 0

1 _defmt_profile_ = 2
=
0 symbols; profile Two

two
1 _defmt_profile_ = 1
=
cause 9 Nothing 0"#;

pub fn put_read_back(alloc: Global, text: &str, out: &mut String) -> Result<(), Fail> {
    let (profile, lines) = match text.strip_prefix("two\n") {
        Some(lines) => (Profile::Two, lines),
        None => (Profile::One, text),
    };
    let file = written(alloc, profile, lines)?;
    put_symbols(alloc, file.as_slice(), out)
}

#[test]
fn of_written_symbols_those_with_a_brace_are_read_back(rt: HostRuntime) -> Result<(), Fail> {
    each_block(rt.alloc(), WRITTEN, 8, &Kind::SymbolReadBack)?;
    let mut none = String::new(rt.alloc());
    put_read_back(rt.alloc(), "", &mut none)?;
    expect(none.as_str(), "0 symbols")
}

// Damages of the file that leave it whole or change its one symbol; without its brace the name isn't listed.
const READ: &str = r#"cut 0 = cause 1 Nothing 0
cut 472 = 1 symbols; 1 {"data":"hello","disambiguator":"1","package":"script","tag":"defmt_info"}
at 163 78 = 0 symbols
at 164 20 = 1 symbols; 1 { data":"hello","disambiguator":"1","package":"script","tag":"defmt_info"}
at 106 01 = 1 symbols; 65537 {"data":"hello","disambiguator":"1","package":"script","tag":"defmt_info"}"#;

// The same of the file in the second profile: another profile, also of another version, and a marker of another name.
const READ_OF_TWO: &str =
    r#"cut 508 = 1 symbols; 1 {"data":"hello","disambiguator":"1","package":"script","tag":"defmt_info"}; profile Two
at 197 31 = 1 symbols; 1 {"data":"hello","disambiguator":"1","package":"script","tag":"defmt_info"}
at 180 78 = 1 symbols; 1 {"data":"hello","disambiguator":"1","package":"script","tag":"defmt_info"}
at 197 33 = cause 9 Nothing 0
at 151 33 = cause 7 Nothing 0"#;

fn put_answer(alloc: Global, digits: &str, text: &str, out: &mut String) -> Result<(), Fail> {
    let mut file = bytes_of(alloc, digits)?;
    damage(alloc, &mut file, text)?;
    put_symbols(alloc, &file, out)
}

pub fn put_answer_to_damage(alloc: Global, text: &str, out: &mut String) -> Result<(), Fail> {
    put_answer(alloc, FILE, text, out)
}

pub fn put_answer_of_two(alloc: Global, text: &str, out: &mut String) -> Result<(), Fail> {
    put_answer(alloc, FILE_OF_TWO, text, out)
}

#[test]
fn a_damaged_file_gives_its_refusal_or_its_symbol_as_it_stands(
    rt: HostRuntime,
) -> Result<(), Fail> {
    each_line(rt.alloc(), REFUSED, 16, &Kind::SymbolAnswerToDamage)?;
    each_line(rt.alloc(), READ, 5, &Kind::SymbolAnswerToDamage)?;
    each_line(rt.alloc(), READ_OF_TWO, 5, &Kind::SymbolAnswerOfTwo)
}
