//! The strings of a script that is read.
ghost use Rattle.std.specs.Prelude.{◌≡◌, ◌≤◌, ◌<◌, length, nat_lt, None, OnOk, true};
ghost use Rattle.std.specs.FinMap as map;
ghost use Rattle.defmt_intern.specs.Body.{body_in};
ghost use Rattle.defmt_lines.specs.Form.{StringsMayCome};
ghost use Rattle.defmt_lines.specs.Line.{entry, is_string_tag};
ghost use Rattle.defmt_script.specs.Answers.{TakesLine};
ghost use Rattle.defmt_script.specs.Reads.{admits_string, with_string};
ghost use Rattle.defmt_script.specs.Script.{count_strings};
ghost use Rattle.defmt_script.specs.State.{strings_limit};

use crate::fault::LineFault;
use crate::parts::{entry_of, put_parsed};
use crate::reading::Reading;
use defmt_intern::{Parsed, Tag};
use defmt_lines::{Cause, EntryLine, Form, parse_text};
use defmt_shapes::is_name;
use dl_io::Memory;

// The greatest index of a string: one is left for the timestamp.
const STRINGS_LIMIT: u16 = 65_534;

impl Reading {
    // Whether another string may come.
    fn has_room_for_string(&self) -> bool
        ensures { result ≡ nat_lt (count_strings self.now.script) strings_limit }
    {
        self.strings < STRINGS_LIMIT
    }

    fn admit_string(&self, name: &str) -> Result<(), Cause>
        ensures { result ≡ admits_string self.now name.now }
    {
        if !Form::Entry.is_in_order(self.first) {
            return Err(Cause::Line);
        }
        if !is_name(name) {
            return Err(Cause::Name);
        }
        if self.names.get(name).is_some() {
            return Err(Cause::Double);
        }
        Ok(())
    }

    #[inline(never)]
    pub(crate) fn take_string(&mut self, line: EntryLine<'_>) -> Result<(), LineFault>
        ensures { TakesLine self.old
            (entry line.entry.name.now line.entry.tag line.entry.text.now) result self.new }
    {
        if let Err(cause) = self.admit_string(line.name) {
            return Err(LineFault::Refused(cause));
        }
        let parsed = match parse_text(self.alloc, self.table.language(), &line.tag, line.text)? {
            Ok(parsed) => parsed,
            Err(inner) => return Err(LineFault::Refused(Cause::Text(inner))),
        };
        if !self.has_room_for_string() {
            return Err(LineFault::Refused(Cause::Many));
        }
        self.add_string(line.name, line.tag, line.text, parsed)?;
        Ok(())
    }

    // Puts the string, and what its text stands for, at the next index. On want of memory the table is as before.
    fn add_string(&mut self, name: &str, tag: Tag, text: &str, parsed: Parsed) -> Result<(), Memory>
        requires open { StringsMayCome self.old.first }
        requires room { count_strings self.old.script < strings_limit }
        requires new { map.get self.old.script.names name.now ≡ None }
        requires string_tag { is_string_tag tag ≡ true }
        requires short { length text.now ≤ 4096 }
        requires parsed { parsed ≡ body_in self.old.script.table.language tag text.now }
        ensures { OnOk result (self.new ≡ with_string self.old name.now tag text.now) }
    {
        let index = self.next_index();
        let entry = entry_of(self.alloc, index, tag, text)?;
        self.names.put(name, index)?;
        self.strings = index;
        put_parsed(&mut self.table, index, entry, parsed)?;
        self.first = Form::Entry;
        Ok(())
    }
}
