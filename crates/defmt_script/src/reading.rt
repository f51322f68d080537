//! A script of which some lines are read.
ghost use Rattle.std.specs.Prelude.{◌≡◌, Ok, OnOk, IfOk, true};
ghost use Rattle.defmt_lines.specs.Form.{in_order};
ghost use Rattle.defmt_lines.specs.Line.{head};
ghost use Rattle.defmt_lines.specs.LineView.{line_view, words_view};
ghost use Rattle.defmt_lines.specs.declared.settings.Settings.{Settings as AnySettings};
ghost use Rattle.defmt_script.specs.Answers.{Becomes, TakesLine};
ghost use Rattle.defmt_script.specs.Reads.{sets};
ghost use Rattle.defmt_script.specs.Script.{next_index};
ghost use Rattle.defmt_script.specs.State.{closed, no_lines};
ghost use Rattle.defmt_script.specs.Steady.{StaysLawful};

use crate::fault::LineFault;
use crate::parts::{begin_table, entry_of, no_statements, put_entry};
use crate::script::{Script, Statements};
use defmt_intern::{Table, Tag};
use defmt_lines::{Cause, Form, Line, Settings, Words};
use defmt_spelling::Names;
use dl_io::Memory;
use rtt_terminal::Speech;
use std::alloc::Global;
use std::marker::Model;

/// A script of which some lines are read, and how many strings and statements it has by now.
#[derive(Drop)]
pub struct Reading {
    pub(crate) alloc: Global,
    pub(crate) first: Form,
    pub(crate) strings: u16,
    pub(crate) statements: u16,
    pub(crate) settings: Settings,
    pub(crate) table: Table,
    pub(crate) names: Names,
    pub(crate) writers: Vec<Statements>,
    pub(crate) said: Speech,
}

impl Model for Reading {
    ghost use Rattle.defmt_script.specs.State.{State};
    ghost use Rattle.defmt_script.specs.Steady.{IsCounted};
    ghost use Rattle.defmt_script.specs.Codes.{coded_state};

    ghost Value = { State };

    ghost coded = { coded_state };

    ghost view = { λ r. record {
      first = r.first;
      script = record {
        settings = r.settings;
        table = r.table.entries;
        names = r.names;
        writers = r.writers.items;
        said = r.said;
      };
    } };

    ghost invariant = { λ r. IsCounted r.strings r.statements (record {
      first = r.first;
      script = record {
        settings = r.settings;
        table = r.table.entries;
        names = r.names;
        writers = r.writers.items;
        said = r.said;
      };
    }) };
}

impl Reading {
    /// No line is read.
    pub fn new(alloc: Global) -> Result<Reading, Memory>
        ensures { IfOk result (λ reading. reading ≡ no_lines) }
    {
        let writers = no_statements(alloc)?;
        let said = Speech::new(alloc)?;
        Ok(Reading {
            alloc,
            first: Form::Language,
            strings: 0,
            statements: 0,
            settings: Settings::new(),
            table: Table::new(alloc),
            names: Names::new(alloc),
            writers,
            said,
        })
    }

    // The index of the next string.
    pub(crate) fn next_index(&self) -> u16
        ensures { result ≡ next_index self.now.script }
    {
        self.strings + 1
    }

    /// Takes one line more.
    pub fn take_line(&mut self, line: Line<'_>) -> Result<(), LineFault>
        ensures { TakesLine self.old (line_view line.entry) result self.new }
    {
        match line {
            Line::Blank => Ok(()),
            Line::Head(form, words) => self.take_setting(form, words),
            Line::Entry(line) => self.take_string(line),
            Line::Act(form, line) => self.take_action(form, line),
            Line::Other => Err(LineFault::Refused(Cause::Line)),
        }
    }

    // Takes a line that sets something. It isn't inlined, since settings are large and few lines set something.
    #[inline(never)]
    fn take_setting(&mut self, form: Form, words: Words<'_>) -> Result<(), LineFault>
        ensures { TakesLine self.old (head form (words_view words.entry)) result self.new }
    {
        let settings = self.settings.with_words(form, words);
        self.set(form, settings)
    }

    // Takes the settings of a line of this form.
    fn set(&mut self, form: Form, settings: Result<Settings, Cause>) -> Result<(), LineFault>
        requires { (s : AnySettings)
            → settings ≡ Ok s → in_order self.old.first form ≡ true
            → StaysLawful form self.old.script.settings s }
        ensures { Becomes (sets self.old form settings) result self.new }
    {
        if !form.is_in_order(self.first) {
            return Err(LineFault::Refused(Cause::Line));
        }
        match settings {
            Ok(settings) => {
                begin_table(self.alloc, form, settings.language, &mut self.table);
                self.settings = settings;
                self.first = form.next();
                Ok(())
            }
            Err(cause) => Err(LineFault::Refused(cause)),
        }
    }

    // Makes the table whole: no string comes any more.
    pub(crate) fn close(&mut self) -> Result<(), Memory>
        ensures { OnOk result (self.new ≡ closed self.old) }
    {
        if !Form::Entry.is_in_order(self.first) {
            return Ok(());
        }
        if self.settings.stamp.is_none() {
            self.first = Form::Statement;
            return Ok(());
        }
        let index = self.next_index();
        let entry = entry_of(self.alloc, index, Tag::Timestamp, "{=u64:us}")?;
        put_entry(&mut self.table, index, entry)?;
        self.first = Form::Statement;
        Ok(())
    }

    /// The script, of which all lines are read.
    pub fn finish(mut self) -> Result<Script, Memory>
        ensures { IfOk result (λ script. script ≡ (closed self).script) }
    {
        self.close()?;
        let Reading {
            alloc: _,
            first: _,
            strings: _,
            statements: _,
            settings,
            table,
            names,
            writers,
            said,
        } = self;
        table.lawful();
        Ok(Script::new(settings, table, names, writers, said))
    }
}
