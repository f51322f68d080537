//! Tables of linked files, in both languages, and refusals.
use crate::files::{Linked, put_unlike};
use crate::rows::Kind;
use crate::tables::put_table;
use defmt_grammar::Language;
use std::alloc::Global;
use std::fmt::Write;
use std::test::Fail;
use test_rows::{each_block, expect};

// The first symbols of each linked file: one of a section, one of a mapping, and the first marker.
const FRONT: &str = "3 0\n3 0 $d\n3 0 \"_defmt_version_ = 4\"\n";

// The other symbols of a linked file, each with its section, value and name, and what is read in files of both classes.
const LINKED: &str = r#"65521 0 _defmt_encoding_ = rzcobs
3 3 {"package":"app","tag":"defmt_info","data":"hello","disambiguator":"7","crate_name":"app","x":[1,{"y":null}]}
3 3 main
=
1 entries; 3 defmt_info app 7 hello

65521 0 "_defmt_encoding_ = rzcobs"
3 3 {"package":"app","tag":"defmt_info","data":"hello","disambiguator":"7","crate_name":"app","x":[1,{"y":null}]}
3 2 {"package":"app","tag":"defmt_timestamp","data":"{=u64}","disambiguator":"7"}
=
2 entries, stamp 2; 2 defmt_timestamp app 7 {=u64}; 3 defmt_info app 7 hello

65521 0 _defmt_encoding_ = rzcobs
3 3 {"package":"app","tag":"defmt_info","data":"hello","disambiguator":"7","crate_name":"app","x":[1,{"y":null}]}
3 3 {"package":"app","tag":"defmt_info","data":"hello","disambiguator":"7","crate_name":"app","x":[1,{"y":null}]}
=
cause 2 symbol 1

65521 0 _defmt_encoding_ = rzcobs
3 65536 {"package":"app","tag":"defmt_info","data":"hello","disambiguator":"7","crate_name":"app","x":[1,{"y":null}]}
3 3 {"package":"app","data":"hello","disambiguator":"7"}
=
cause 6 symbol 0

65521 0 _defmt_encoding_ = rzcobs
3 65535 {"package":"app","tag":"defmt_info","data":"hello","disambiguator":"7","crate_name":"app","x":[1,{"y":null}]}
3 65536 {"package":"app","data":"hello","disambiguator":"7"}
=
cause 3 symbol 1

65521 0 _defmt_encoding_ = rzcobs
3 1 {"package":"app","tag":"defmt_timestamp","data":"{=u64}","disambiguator":"7"}
3 2 {"package":"app","tag":"defmt_timestamp","data":"{=u64}","disambiguator":"7"}
=
cause 5 symbol 1

65521 0 _defmt_encoding_ = raw
3 1 {"package":"app","data":"hello","disambiguator":"7"}
3 2 {"package":"app","tag":"defmt_timestamp","data":"{=u64}","disambiguator":"7"}
=
cause 8 Nothing 0

65521 0 _defmt_encoding_ = rzcobs
65521 0 "_defmt_profile_ = 2"
3 3 {"package":"app","tag":"defmt_info","data":"hello","disambiguator":"7","crate_name":"app","x":[1,{"y":null}]}
=
1 entries of profile Two; 3 defmt_info app 7 hello

65521 0 _defmt_encoding_ = rzcobs
65521 0 _defmt_profile_ = 3
3 1 {"package":"app","data":"hello","disambiguator":"7"}
=
cause 9 Nothing 0

65521 0 _defmt_encoding_ = rzcobs
3 1 {"package":"app","tag":"defmt_warn","data":"first","disambiguator":"7","crate_name":"app"}
3 2 { "data" : "a\"b\u0041", "tag": "defmt_info", "tag": "defmt_error", "package": "\u00e9", "disambiguator": "8" }
3 4 {"data":"d","disambiguator":"1","package":"p","tag":"defmt_write"}
=
3 entries; 1 defmt_warn app 7 first; 2 defmt_error é 8 a"bA; 4 defmt_write p 1 d

65521 0 _defmt_encoding_ = rzcobs
3 1 {"data":"d","disambiguator":"1","package":"p","tag":"defmt_write"}}
=
cause 3 symbol 0"#;

fn push_linked(linked: &mut Linked, lines: &str) -> Result<(), Fail> {
    linked.begin(FRONT)?;
    linked.push_lines(lines)
}

fn put_linked(alloc: Global, wide: bool, lines: &str, file: &mut Vec<u8>) -> Result<(), Fail> {
    let mut linked = Linked::new(alloc, wide);
    push_linked(&mut linked, lines)?;
    linked.put_file(file)
}

fn put_table_in_linked(
    alloc: Global,
    wide: bool,
    lines: &str,
    language: Language,
    out: &mut String,
) -> Result<(), Fail> {
    let mut file = Vec::new(alloc);
    put_linked(alloc, wide, lines, &mut file)?;
    put_table(alloc, &file, language, out)
}

/// Puts the table of a language that a linked file names.
pub fn put_answer_to_symbols(
    alloc: Global,
    lines: &str,
    language: Language,
    out: &mut String,
) -> Result<(), Fail> {
    put_table_in_linked(alloc, false, lines, language, out)?;
    let mut wide = String::new(alloc);
    put_table_in_linked(alloc, true, lines, language, &mut wide)?;
    put_unlike(wide.as_str(), out)
}

#[test]
fn linked_files_of_both_classes_name_their_table(rt: HostRuntime) -> Result<(), Fail> {
    each_block(rt.alloc(), LINKED, 11, &Kind::AnswerToSymbols)
}

// The same in the full language, where a name that can't be read, as one that a linker cut at an `@`, refuses nothing.
const FULL: &str = r#"65521 0 _defmt_encoding_ = rzcobs
3 3 {"package":"app","tag":"defmt_info","data":"hello","disambiguator":"7","crate_name":"app","x":[1,{"y":null}]}
3 4 {"package":"app","tag":"defmt_info","data":"mail to a
3 5 {"package":"app","data":"hello","disambiguator":"7"}
3 2 {"package":"app","tag":"defmt_timestamp","data":"{=u64}","disambiguator":"7"}
=
4 entries, stamp 2; 2 defmt_timestamp app 7 {=u64}; 3 defmt_info app 7 hello; 4 unread; 5 unread

65521 0 _defmt_encoding_ = rzcobs
3 4 {"package":"app","tag":"defmt_info","data":"mail to a
3 65536 {"package":"app","tag":"defmt_info","data":"mail to b
=
cause 6 symbol 1

65521 0 _defmt_encoding_ = rzcobs
3 4 {"package":"app","tag":"defmt_info","data":"mail to a
3 4 {"package":"app","tag":"defmt_info","data":"mail to b
=
cause 2 symbol 1

65521 0 _defmt_encoding_ = rzcobs
3 4 {
3 1 {"package":"app","tag":"defmt_timestamp","data":"{=u64}","disambiguator":"7"}
3 4 {"package":"app","tag":"defmt_timestamp","data":"{=u64}","disambiguator":"7"}
=
cause 2 symbol 2

65521 0 _defmt_encoding_ = rzcobs
3 4 {
3 1 {"package":"app","tag":"defmt_timestamp","data":"{=u64}","disambiguator":"7"}
3 2 {"package":"app","tag":"defmt_timestamp","data":"{=u64}","disambiguator":"7"}
=
cause 5 symbol 2

65521 0 _defmt_encoding_ = raw
3 4 {
=
cause 8 Nothing 0"#;

#[test]
fn in_the_full_language_a_name_that_cant_be_read_refuses_no_table(
    rt: HostRuntime,
) -> Result<(), Fail> {
    each_block(rt.alloc(), FULL, 6, &Kind::AnswerInFull)
}

// The second symbol's text has 4,097 bytes.
fn put_long_text(alloc: Global, lines: &mut String) -> Result<(), Fail> {
    let text = "a".repeat(alloc, 4097)?;
    let first =
        r#"3 3 {"package":"app","tag":"defmt_info","data":"hello","disambiguator":"7","crate_name":"app","x":[1,{"y":null}]}"#;
    write!(
        lines,
        "65521 0 _defmt_encoding_ = rzcobs\n{first}\n3 9 {{\"package\":\"p\",\"tag\":\"defmt_str\",\"disambiguator\":\"d\",\"data\":\"{text}\"}}"
    )?;
    Ok(())
}

fn put_answer_to_long_text(
    alloc: Global,
    language: Language,
    out: &mut String,
) -> Result<(), Fail> {
    let mut lines = String::new(alloc);
    put_long_text(alloc, &mut lines)?;
    put_table_in_linked(alloc, false, lines.as_str(), language, out)
}

#[test]
fn a_text_of_4097_bytes_is_refused(rt: HostRuntime) -> Result<(), Fail> {
    let mut told = String::new(rt.alloc());
    put_answer_to_long_text(rt.alloc(), Language::Base, &mut told)?;
    expect(told.as_str(), "cause 4 symbol 1")?;
    let mut of_full = String::new(rt.alloc());
    put_answer_to_long_text(rt.alloc(), Language::Full, &mut of_full)?;
    expect(of_full.as_str(), "cause 4 symbol 1")
}
