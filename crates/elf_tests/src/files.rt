//! Files as linkers leave them, and files with other bytes in them.
use std::alloc::Global;
use std::fmt::Write;
use std::test::Fail;
use test_rows::{bytes_of, parted};

// The number in so many bytes, at most eight, the lowest first.
fn put(out: &mut Vec<u8>, len: usize, number: u64) -> Result<(), Fail> {
    let bytes = number.to_le_bytes();
    out.extend_from_slice(&bytes[..len.min(8)])?;
    Ok(())
}

// The names of the sections.
const NAMES: &[u8] = b"\0.dynsym\0.text\0.defmt\0.shstrtab\0.symtab\0.strtab\0";

// Fields, each with its length and its number; `w` is the length of an address.
const HEADER: &str =
    "1:class 1:1 1:1 8:0 1:0 2:2 2:40 4:1 w:0 w:0 w:sections 4:0 2:header 4:0 2:section 2:7 2:4";

// The headers of the sections: no section, `.dynsym`, `.text`, `.defmt` (of a type with or without bytes), `.shstrtab`,
// `.symtab` and `.strtab`.
const SECTIONS: &str = "\
4:0 4:0 w:0 w:0 w:0 w:0 4:0 4:0 w:1 w:0
4:1 4:11 w:0 w:0 w:header w:0 4:6 4:0 w:1 w:entry
4:9 4:1 w:0 w:0 w:header w:0 4:0 4:0 w:1 w:0
4:15 4:type w:0 w:0 w:header w:0 4:0 4:0 w:1 w:0
4:22 4:3 w:0 w:0 w:header w:48 4:0 4:0 w:1 w:0
4:32 4:2 w:0 w:0 w:table w:table_len 4:6 4:0 w:1 w:entry
4:40 4:3 w:0 w:0 w:strings w:strings_len 4:0 4:0 w:1 w:0";

const NULL_SYMBOL: [u8; 24] = [0; 24];

/// The symbols of a file as linkers leave it, of 64 or of 32 bits.
#[derive(Drop)]
pub struct Linked {
    wide: bool,
    table: Vec<u8>,
    strings: Vec<u8>,
}

impl Linked {
    /// With no symbol yet.
    pub fn new(alloc: Global, wide: bool) -> Linked {
        Linked {
            wide,
            table: Vec::new(alloc),
            strings: Vec::new(alloc),
        }
    }

    /// The null symbol, and the symbols of these lines.
    pub fn begin(&mut self, lines: &str) -> Result<(), Fail> {
        let len = if self.wide { 24 } else { 16 };
        self.table.extend_from_slice(&NULL_SYMBOL[..len])?;
        self.push_bytes(b"\0")?;
        self.push_lines(lines)
    }

    /// One more symbol, whose name begins at the strings' end.
    pub fn push_symbol(&mut self, section: u64, value: u64) -> Result<(), Fail> {
        let at = self.strings.len() as u64;
        let table = &mut self.table;
        put(table, 4, at)?;
        if self.wide {
            put(table, 2, 0)?;
            put(table, 2, section)?;
            put(table, 8, value)?;
            put(table, 8, 0)
        } else {
            put(table, 4, value)?;
            put(table, 6, 0)?;
            put(table, 2, section)
        }
    }

    /// Puts bytes behind the strings.
    pub fn push_bytes(&mut self, bytes: &[u8]) -> Result<(), Fail> {
        self.strings.extend_from_slice(bytes)?;
        Ok(())
    }

    /// One more symbol of this name.
    pub fn push_named(&mut self, section: u64, value: u64, name: &str) -> Result<(), Fail> {
        self.push_symbol(section, value)?;
        self.push_bytes(name.as_bytes())?;
        self.push_bytes(b"\0")
    }

    /// The symbols of these lines, each with its section, value and name.
    pub fn push_lines(&mut self, lines: &str) -> Result<(), Fail> {
        for line in lines.lines() {
            let (section, rest) = parted(line, ' ');
            let (value, name) = parted(rest, ' ');
            self.push_named(section.parse::<u64>()?, value.parse::<u64>()?, name)?;
        }
        Ok(())
    }

    /// The place of a section's header, or of the file's own.
    pub fn header_at(&self, section: &str) -> Result<u64, Fail> {
        if section == "file" {
            return Ok(0);
        }
        let number = section.parse::<u64>()?;
        let at = self.number_of("sections")?;
        Ok(at.wrapping_add(number.wrapping_mul(self.number_of("section")?)))
    }

    // A length or a place that depends on the class and the symbols, or a number.
    fn number_of(&self, word: &str) -> Result<u64, Fail> {
        let strings = if self.wide { 112 } else { 100u64 };
        let strings_len = self.strings.len() as u64;
        let table_len = self.table.len() as u64;
        let table = strings.wrapping_add(strings_len);
        Ok(match word {
            "class" => if self.wide { 2 } else { 1 },
            "header" => if self.wide { 64 } else { 52 },
            "section" => if self.wide { 64 } else { 40 },
            "entry" => if self.wide { 24 } else { 16 },
            "type" => if self.wide { 8 } else { 1 },
            "strings" => strings,
            "strings_len" => strings_len,
            "table" => table,
            "table_len" => table_len,
            "sections" => table.wrapping_add(table_len),
            _ => word.parse::<u64>()?,
        })
    }

    fn put_field(&self, out: &mut Vec<u8>, field: &str) -> Result<(), Fail> {
        let Some((len, number)) = field.split_once(':') else {
            return Err(Fail::new("no field"));
        };
        let number = self.number_of(number)?;
        if len == "w" {
            return put(out, if self.wide { 8 } else { 4 }, number);
        }
        put(out, len.parse::<usize>()?, number)
    }

    fn put_fields(&self, out: &mut Vec<u8>, fields: &str) -> Result<(), Fail> {
        for field in fields.split_whitespace() {
            self.put_field(out, field)?;
        }
        Ok(())
    }

    /// Puts the file into an empty one: its header, the sections' names, the strings, the symbol table and the headers of the
    /// sections.
    pub fn put_file(&self, file: &mut Vec<u8>) -> Result<(), Fail> {
        file.extend_from_slice(b"\x7fELF")?;
        self.put_fields(file, HEADER)?;
        file.extend_from_slice(NAMES)?;
        file.extend_from_slice(&self.strings)?;
        file.extend_from_slice(&self.table)?;
        self.put_fields(file, SECTIONS)
    }
}

/// Puts the answer of a file of 64 bits behind that of a file of 32 bits, where it is another one.
pub fn put_unlike(wide: &str, out: &mut String) -> Result<(), Fail> {
    if out.as_str() == wide {
        return Ok(());
    }
    Ok(write!(out, "; but of 64 bits {wide}")?)
}

/// Puts bytes over those at a place.
pub fn put_over(file: &mut Vec<u8>, at: usize, bytes: &[u8]) -> Result<(), Fail> {
    for (k, byte) in bytes.iter().enumerate() {
        match file.get_mut(at.wrapping_add(k)) {
            Some(place) => *place = *byte,
            None => return Err(Fail::new("no such place")),
        }
    }
    Ok(())
}

/// Damages a file: `cut 15` leaves its first 15 bytes, `at 4 03` puts other bytes over those at a place.
pub fn damage(alloc: Global, file: &mut Vec<u8>, text: &str) -> Result<(), Fail> {
    let (what, rest) = parted(text, ' ');
    let (number, digits) = parted(rest, ' ');
    let at = number.parse::<usize>()?;
    match what {
        "cut" => file.truncate(at),
        "at" => put_over(file, at, &bytes_of(alloc, digits)?)?,
        _ => return Err(Fail::new("no damage")),
    }
    Ok(())
}

/// Damages of the file of one entry, each with the refusal of the file.
pub const REFUSED: &str = "\
cut 15 = cause 1 Nothing 0
at 4 03 = cause 2 Nothing 0
at 5 02 = cause 3 Nothing 0
cut 51 = cause 4 Header 0
at 46 40 = cause 4 Header 1
at 48 00 = cause 5 Nothing 0
at 239 78 = cause 5 Nothing 0
cut 471 = cause 4 Sections 0
at 50 05 = cause 4 Names 5
at 312 22 = cause 4 SectionName 1
at 356 01 = cause 6 Nothing 0
at 361 08 = cause 6 Nothing 0
at 388 18 = cause 4 Symbols 2
at 376 01 = cause 4 Symbols 2
at 135 33 = cause 7 Nothing 0
at 156 52 = cause 8 Nothing 0";
