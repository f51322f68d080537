//! Writing the file.

ghost use Rattle.std.specs.Prelude.{◌≡◌, ◌≤◌, ◌<◌, ◌+◌, ◌*◌, ◌^◌, ◌++◌, length, replicate, IfOk, OnOk};
ghost use Rattle.elf_section.specs.Written.{half, word, symbol_bytes, section_bytes, header_bytes, listed_all, markers, rows, entries, symbol_table, string_table, section_names, headers_for, names, written, IsWritable, AreBraced, braced, KeepsMarkers};
ghost use Rattle.elf_section.specs.Listed.{Carries};
ghost use Rattle.elf_section.specs.Symbol.{plain_all};

use crate::symbols::Symbol;
use byteorder::{ByteOrder, LittleEndian};
use defmt_intern::Profile;
use dl_io::{Bytes, Memory};
use std::alloc::Global;

#[tactic(auto, unfolding(crate::specs::Written::half))]
fn push_half(out: &mut Bytes, number: u16) -> Result<(), Memory>
    ensures { OnOk result (out.new.items ≡ out.old.items ++ half number) }
{
    let mut bytes = [0; 2];
    LittleEndian::write_u16(&mut bytes, number);
    out.extend_from_slice(&bytes)
}

#[tactic(auto, unfolding(crate::specs::Written::word))]
fn push_word(out: &mut Bytes, number: u32) -> Result<(), Memory>
    ensures { OnOk result (out.new.items ≡ out.old.items ++ word number) }
{
    let mut bytes = [0; 4];
    LittleEndian::write_u32(&mut bytes, number);
    out.extend_from_slice(&bytes)
}

// Two numbers of four bytes.
fn push_words(out: &mut Bytes, numbers: (u32, u32)) -> Result<(), Memory>
    ensures { OnOk result (out.new.items ≡ (out.old.items ++ word numbers.0) ++ word numbers.1) }
{
    push_word(out, numbers.0)?;
    push_word(out, numbers.1)?;
    Ok(())
}

// The ELF header, with the place of the section headers.
#[tactic(auto, unfolding(crate::specs::Written::half, crate::specs::Written::word))]
fn push_header(out: &mut Bytes, shoff: u32) -> Result<(), Memory>
    ensures { OnOk result (out.new.items ≡ out.old.items ++ header_bytes shoff) }
{
    // `e_ident`; the type 2, the machine 40 and the version 1; no entry and no program headers
    out.extend_from_slice(
        b"\x7fELF\x01\x01\x01\0\0\0\0\0\0\0\0\0\x02\0\x28\0\x01\0\0\0\0\0\0\0\0\0\0\0",
    )?;
    push_word(out, shoff)?;
    // no flags; the header's size 52; no program headers; section headers of 40 bytes, five, the last with the names
    out.extend_from_slice(b"\0\0\0\0\x34\0\0\0\0\0\x28\0\x05\0\x04\0")?;
    Ok(())
}

// An entry of the symbol table: the place of the name, the value, `st_info` and the section.
fn push_symbol(out: &mut Bytes, name: u32, value: u32, info: u8, section: u16) -> Result<(), Memory>
    ensures { OnOk result (out.new.items ≡ out.old.items ++ symbol_bytes name value info section) }
{
    push_words(out, (name, value))?;
    push_word(out, 0)?;
    out.extend_from_slice(&[info, 0])?;
    push_half(out, section)?;
    Ok(())
}

// A section header: the place of the name and the type, the section's place and size, `sh_link` and
// `sh_info`, the alignment and the size of an entry.
fn push_section(
    out: &mut Bytes,
    name: (u32, u32),
    part: (u32, u32),
    links: (u32, u32),
    units: (u32, u32),
) -> Result<(), Memory>
    ensures { OnOk result (out.new.items ≡ out.old.items
        ++ section_bytes name.0 name.1 part.0 part.1 links.0 links.1 units.0 units.1) }
{
    push_words(out, name)?;
    push_words(out, (0, 0))?;
    push_words(out, part)?;
    push_words(out, links)?;
    push_words(out, units)?;
    Ok(())
}

// The names of the markers, each with its zero.
fn marker_names(profile: Profile) -> &'static [u8]
    ensures { result.now ≡ names (markers profile) }
{
    match profile {
        Profile::One => b"_defmt_version_ = 4\0_defmt_encoding_ = rzcobs\0",
        Profile::Two => b"_defmt_version_ = 4\0_defmt_encoding_ = rzcobs\0_defmt_profile_ = 2\0",
    }
}

// How many bytes these are.
fn markers_len(profile: Profile) -> u32
    ensures value { result ≡ length (names (markers profile)) }
    ensures small { result ≤ 66 }
{
    match profile {
        Profile::One => 46,
        Profile::Two => 66,
    }
}

// How many markers there are.
fn marker_count(profile: Profile) -> u32
    ensures value { result ≡ length (markers profile) }
    ensures small { result ≤ 3 }
{
    match profile {
        Profile::One => 2,
        Profile::Two => 3,
    }
}

// How many symbols stand behind the null symbol.
fn count_of(list: &[Symbol], profile: Profile) -> u32
    requires { IsWritable (plain_all list.now) }
    ensures value { result ≡ length (rows profile (plain_all list.now)) }
    ensures small { result ≤ 65539 }
{
    let count = marker_count(profile);
    count + list.len() as u32
}

// How many bytes the names of the list have, each with its zero.
fn names_len(symbols: &[Symbol]) -> u32
    requires { IsWritable (plain_all symbols.now) }
    ensures { result ≡ length (names (listed_all (plain_all symbols.now))) }
{
    let mut len = 0;
    for symbol in symbols {
        len += symbol.name.as_slice().len() as u32 + 1;
    }
    len
}

// The symbols that are markers.
fn push_markers(out: &mut Bytes, profile: Profile) -> Result<(), Memory>
    ensures { OnOk result (out.new.items ≡ out.old.items ++ entries 1 (markers profile)) }
{
    push_symbol(out, 1, 1, 16, 0xfff1)?;
    push_symbol(out, 21, 1, 16, 0xfff1)?;
    match profile {
        Profile::One => Ok(()),
        Profile::Two => {
            push_symbol(out, 47, 1, 16, 0xfff1)?;
            Ok(())
        }
    }
}

// The symbols of the list, of which the first name stands at this place of the strings.
fn push_list(out: &mut Bytes, symbols: &[Symbol], first: u32) -> Result<(), Memory>
    requires writable { IsWritable (plain_all symbols.now) }
    requires first { first ≤ 67 }
    ensures { OnOk result (out.new.items
        ≡ out.old.items ++ entries first (listed_all (plain_all symbols.now))) }
{
    let mut at = first;
    for symbol in symbols {
        push_symbol(out, at, symbol.value as u32, 16, 1)?;
        at += symbol.name.as_slice().len() as u32 + 1;
    }
    Ok(())
}

// The symbol table: the null symbol, the markers and the list.
fn push_symbols(out: &mut Bytes, symbols: &[Symbol], profile: Profile) -> Result<(), Memory>
    requires { IsWritable (plain_all symbols.now) }
    ensures { OnOk result (out.new.items
        ≡ out.old.items ++ symbol_table (rows profile (plain_all symbols.now))) }
{
    push_symbol(out, 0, 0, 0, 0)?;
    push_markers(out, profile)?;
    let len = markers_len(profile);
    push_list(out, symbols, 1 + len)?;
    Ok(())
}

// The names of the list, each with its zero.
fn push_names(out: &mut Bytes, symbols: &[Symbol]) -> Result<(), Memory>
    ensures { OnOk result (out.new.items
        ≡ out.old.items ++ names (listed_all (plain_all symbols.now))) }
{
    for symbol in symbols {
        out.extend_from_slice(symbol.name.as_slice())?;
        out.push(0)?;
    }
    Ok(())
}

// The strings of the symbol table.
fn push_strings(out: &mut Bytes, symbols: &[Symbol], profile: Profile) -> Result<(), Memory>
    ensures { OnOk result (out.new.items
        ≡ out.old.items ++ string_table (rows profile (plain_all symbols.now))) }
{
    out.push(0)?;
    out.extend_from_slice(marker_names(profile))?;
    push_names(out, symbols)?;
    Ok(())
}

// At most three zeros.
fn push_zeros(out: &mut Bytes, count: u32) -> Result<(), Memory>
    requires { count ≤ 3 }
    ensures { OnOk result (out.new.items ≡ out.old.items ++ replicate count 0) }
{
    out.extend_from_slice(&[0; 3][..count as usize])?;
    Ok(())
}

// The five section headers: none, `.defmt`, `.symtab`, `.strtab` and `.shstrtab`.
fn push_sections(out: &mut Bytes, count: u32, strings: u32) -> Result<(), Memory>
    requires count { count ≤ 65539 }
    requires strings { strings < 2 ^ 31 }
    ensures { OnOk result (out.new.items ≡ out.old.items ++ headers_for count strings) }
{
    let table = 16 + 16 * count;
    push_section(out, (0, 0), (0, 0), (0, 0), (0, 0))?;
    push_section(out, (1, 1), (52, 0), (0, 0), (1, 0))?;
    push_section(out, (8, 2), (52, table), (3, 1), (4, 16))?;
    push_section(out, (16, 3), (52 + table, strings), (0, 0), (1, 0))?;
    push_section(out, (24, 3), (52 + table + strings, 34), (0, 0), (1, 0))?;
    Ok(())
}

// The parts of the file, one after another. The strings have so many bytes, so many zeros stand in front of the section
// headers, and these lie at this place.
fn push_parts(
    out: &mut Bytes,
    list: &[Symbol],
    profile: Profile,
    strings: u32,
    padding: u32,
    sections_at: u32,
) -> Result<(), Memory>
    requires writable { IsWritable (plain_all list.now) }
    requires strings { strings < 2 ^ 31 }
    requires padding { padding ≤ 3 }
    ensures { OnOk result (out.new.items ≡ (((((out.old.items ++ header_bytes sections_at)
        ++ symbol_table (rows profile (plain_all list.now)))
        ++ string_table (rows profile (plain_all list.now)))
        ++ section_names) ++ replicate padding 0)
        ++ headers_for (length (rows profile (plain_all list.now))) strings) }
{
    push_header(out, sections_at)?;
    push_symbols(out, list, profile)?;
    push_strings(out, list, profile)?;
    out.extend_from_slice(b"\0.defmt\0.symtab\0.strtab\0.shstrtab\0")?;
    push_zeros(out, padding)?;
    push_sections(out, count_of(list, profile), strings)?;
    Ok(())
}

/// The ELF32 file with these symbols in its section `.defmt`, in their order, and the markers in front of them: those of the
/// version and the encoding, and in the second profile its own. There are at most 65,536 symbols, each value is at most
/// 65,535, no name has a zero byte, and all names together have at most 1 GiB.
pub fn write_symbols(alloc: Global, list: &[Symbol], profile: Profile) -> Result<Bytes, Memory>
    requires { IsWritable (plain_all list.now) }
    ensures bytes { IfOk result (λ file. file.items ≡ written profile (plain_all list.now)) }

    // Where no name speaks of another version, encoding or profile, the file passes all checks, lists those of the symbols
    // whose names begin with `{`, and says the profile. Where each name begins so, it lists them all.
    ensures read_back { IfOk result (λ file. KeepsMarkers profile (plain_all list.now)
        → Carries file.items (braced (plain_all list.now)) profile) }
    ensures read_back_whole { IfOk result (λ file. AreBraced (plain_all list.now)
        → Carries file.items (plain_all list.now) profile) }
{
    let count = count_of(list, profile);
    let front = markers_len(profile);
    let strings = 1 + front + names_len(list);
    let names_at = 52 + 16 + 16 * count + strings;
    let padding = (4 - (names_at + 34) % 4) % 4;
    let sections_at = names_at + 34 + padding;
    let mut file = Bytes::new(alloc);
    file.reserve(sections_at as usize + 200)?;
    push_parts(&mut file, list, profile, strings, padding, sections_at)?;
    Ok(file)
}
