//! Linked files with other bytes in their headers, and with many names in one text.
use crate::files::{Linked, put_over};
use crate::markers::push_marked;
use crate::rows::Kind;
use crate::symbols::put_symbols;
use std::alloc::Global;
use std::test::Fail;
use test_rows::{bytes_of, each_line, expect, parted};

// The class, the section whose header has other bytes or the file's own header, their place and the bytes. In their order: the
// place of the section headers; no number of sections, as in extended numbering, and the escape for the section of the names;
// the place, the size and the name of sections; a compressed symbol table, and compressed strings; strings that lie over the
// symbol table, where no name is a marker; strings that end in front of the last name's zero, or are empty; no names of sections.
const HEADERS: &str = "\
32 file 32 ff ff ff ff = cause 4 Sections 0
32 file 32 00 00 00 80 = cause 4 Sections 0
32 file 32 f0 ff ff ff = cause 4 Sections 0
64 file 40 ff ff ff ff ff ff ff ff = cause 4 Sections 0
64 file 40 00 00 00 00 00 00 00 80 = cause 4 Sections 0
64 file 40 40 fe ff ff ff ff ff ff = cause 4 Sections 0
32 file 48 00 00 = cause 5 Nothing 0
32 file 50 ff ff = cause 4 Names 65535
32 4 16 ff ff ff ff = cause 4 Names 4
64 4 32 ff ff ff ff ff ff ff ff = cause 4 Names 4
32 2 0 ff ff ff ff = cause 4 SectionName 2
64 6 0 ff ff ff ff = cause 4 SectionName 6
32 5 20 f0 ff ff ff = cause 4 Symbols 5
64 5 24 ff ff ff ff ff ff ff ff = cause 4 Symbols 5
64 5 32 f8 ff ff ff ff ff ff ff = cause 4 Symbols 5
32 5 24 ff ff ff ff = cause 4 Symbols 5
64 5 56 ff ff ff ff ff ff ff ff = cause 4 Symbols 5
32 6 16 ff ff ff ff = cause 4 Strings 6
64 6 24 ff ff ff ff ff ff ff ff = cause 4 Strings 6
32 5 9 08 = cause 6 Nothing 0
64 5 9 08 = cause 6 Nothing 0
32 6 9 08 = cause 6 Nothing 0
64 6 9 08 = cause 6 Nothing 0
32 6 16 1f 01 00 00 = cause 7 Nothing 0
64 6 24 2b 01 00 00 = cause 7 Nothing 0
32 6 20 ba = cause 4 SymbolName 8
32 6 20 00 00 00 00 = cause 4 SymbolName 1
32 4 20 00 00 00 00 = cause 4 SectionName 0";

const SOUND: &str = "_defmt_version_ = 4\n_defmt_encoding_ = rzcobs";

fn put_other_bytes(
    alloc: Global,
    linked: &Linked,
    change: &str,
    file: &mut Vec<u8>,
) -> Result<(), Fail> {
    let (section, rest) = parted(change, ' ');
    let (field, digits) = parted(rest, ' ');
    let at = linked
        .header_at(section)?
        .wrapping_add(field.parse::<u64>()?);
    put_over(file, at as usize, &bytes_of(alloc, digits)?)
}

fn put_changed(alloc: Global, change: &str, file: &mut Vec<u8>) -> Result<(), Fail> {
    let (class, change) = parted(change, ' ');
    let mut linked = Linked::new(alloc, class == "64");
    push_marked(&mut linked, SOUND)?;
    linked.put_file(file)?;
    put_other_bytes(alloc, &linked, change, file)
}

pub fn put_answer_to_header(alloc: Global, change: &str, out: &mut String) -> Result<(), Fail> {
    let mut file = Vec::new(alloc);
    put_changed(alloc, change, &mut file)?;
    put_symbols(alloc, &file, out)
}

#[test]
fn headers_with_other_bytes_are_refused(rt: HostRuntime) -> Result<(), Fail> {
    each_line(rt.alloc(), HEADERS, 28, &Kind::AnswerToHeader)
}

// 65,536 symbols more, whose names begin like quoted markers and all end at the end of one text of 4 MB. To read each to its end
// would be to read more than 200 GB.
fn push_crowd(alloc: Global, linked: &mut Linked) -> Result<(), Fail> {
    const FRONT: &str = "\"_defmt_version_ = ";
    push_marked(linked, SOUND)?;
    for _ in 0..65536 {
        linked.push_symbol(3, 0)?;
        linked.push_bytes(FRONT.as_bytes())?;
    }
    linked.push_bytes(FRONT.repeat(alloc, 150000)?.as_bytes())?;
    linked.push_bytes(b"x\0")
}

fn put_crowded(alloc: Global, file: &mut Vec<u8>) -> Result<(), Fail> {
    let mut linked = Linked::new(alloc, false);
    push_crowd(alloc, &mut linked)?;
    linked.put_file(file)
}

fn put_answer_to_crowd(alloc: Global, out: &mut String) -> Result<(), Fail> {
    let mut file = Vec::new(alloc);
    put_crowded(alloc, &mut file)?;
    put_symbols(alloc, &file, out)
}

// What is read then: the symbols that stand there without the crowd.
const CROWDED: &str =
    r#"2 symbols; 3 {"package":"app","tag":"defmt_info","data":"hello","disambiguator":"7","crate_name":"app","x":[1,{"y":null}]}; 0 {"zero":0}"#;

#[test]
fn of_many_names_that_end_in_one_long_text_none_is_a_symbol(rt: HostRuntime) -> Result<(), Fail> {
    let mut told = String::new(rt.alloc());
    put_answer_to_crowd(rt.alloc(), &mut told)?;
    expect(told.as_str(), CROWDED)
}
