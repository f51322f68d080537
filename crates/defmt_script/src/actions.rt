//! What the writers of a script that is read do: statements, and texts for terminals.
ghost use Rattle.std.specs.Prelude.{◌≡◌, ◌≤◌, ◌<◌, length, nat_lt, OnOk, IfOk, true, unwrap_or};
ghost use Rattle.defmt_lines.specs.Form.{StringsAreOver};
ghost use Rattle.defmt_lines.specs.Line.{act};
ghost use Rattle.defmt_lines.specs.declared.form.Form.TheVariants.{Say as SayForm, Statement as StatementForm};
ghost use Rattle.defmt_script.specs.Answers.{Becomes, TakesLine};
ghost use Rattle.defmt_script.specs.Lawful.{statements_limit};
ghost use Rattle.defmt_script.specs.Reads.{admits_statement, admits_text, is_message, takes_statement, with_text};
ghost use Rattle.defmt_script.specs.Script.{count_statements, statements_by};
ghost use Rattle.defmt_script.specs.State.{closed};
ghost use Rattle.defmt_values.specs.Fits.{Fits};
ghost use Rattle.rtt_terminal.specs.Speech.{count_texts, texts_limit};
ghost use Rattle.rtt_terminal.specs.Stream.{IsSayable};

use crate::fault::LineFault;
use crate::parts::{is_long, is_message, is_wide};
use crate::reading::Reading;
use defmt_lines::{ActionLine, Cause, Form};
use defmt_spelling::{ArgFault, read_args};
use defmt_values::Statement;
use dl_io::Memory;
use rtt_terminal::{is_sayable, terminal_named};

// How many statements a script has at most.
const STATEMENTS_LIMIT: u16 = 4096;

// How many texts a script has at most.
const TEXTS_LIMIT: u32 = 4096;

impl Reading {
    // Whether another statement may come.
    fn has_room_for_statement(&self) -> bool
        ensures { result ≡ nat_lt (count_statements self.now.script) statements_limit }
    {
        self.statements < STATEMENTS_LIMIT
    }

    // Whether another text may come.
    fn has_room_for_text(&self) -> bool
        ensures { result ≡ nat_lt (count_texts self.now.script.said) texts_limit }
    {
        self.said.len() < TEXTS_LIMIT
    }

    // The statements of a writer, none for a number above 7.
    fn statements_by(&self, writer: u8) -> &[Statement]
        ensures { result.now ≡ statements_by self.now.script writer }
    {
        match self.writers.get(usize::from(writer)) {
            Some(statements) => statements.as_slice(),
            None => &[],
        }
    }

    // No reading has more than 4,096 statements.
    fn has_few(&self)
        ensures { count_statements self.now.script ≤ statements_limit }
    {
        let _ = &self.writers;
    }

    // How many statements a writer has by now.
    fn count(&self, writer: u8) -> u32
        ensures { result ≡ length (statements_by self.now.script writer) }
    {
        self.has_few();
        self.statements_by(writer).len() as u32
    }

    pub(crate) fn take_action(&mut self, form: Form, line: ActionLine<'_>) -> Result<(), LineFault>
        ensures { TakesLine self.old
            (act form line.entry.writer line.entry.field.now line.entry.rest.now) result self.new }
    {
        match form {
            Form::Statement => self.take_statement(line.writer, line.field, line.rest),
            Form::Say => self.take_text(line),
            Form::Language
            | Form::Ring
            | Form::Mode
            | Form::Reader
            | Form::Stamp
            | Form::Profile
            | Form::Order
            | Form::Entry => Err(LineFault::Refused(Cause::Line)),
        }
    }

    // The writer of a statement, and the index of its name, which is a message's: there is room.
    fn admit_statement(&self, writer: Option<u8>, name: &str) -> Result<(u8, u16), Cause>
        requires { unwrap_or writer 0 < 8 }
        ensures value { result ≡ admits_statement self.now writer name.now }
        ensures writer { IfOk result (λ p. p.0 < 8) }
        ensures message { IfOk result (λ p. is_message self.now.script.table p.1 ≡ true) }
        ensures room { IfOk result
            (λ p. count_statements self.now.script < statements_limit) }
    {
        let Some(writer) = writer else {
            return Err(Cause::Writer);
        };
        let Some(index) = self.names.get(name) else {
            return Err(Cause::Name);
        };
        if !is_message(&self.table, index) {
            return Err(Cause::Name);
        }
        if !self.has_room_for_statement() {
            return Err(Cause::Many);
        }
        Ok((writer, index))
    }

    // Takes a statement of the string with this name: the text spells its arguments.
    #[inline(never)]
    pub(crate) fn take_statement(
        &mut self,
        writer: Option<u8>,
        name: &str,
        args: &str,
    ) -> Result<(), LineFault>
        requires { unwrap_or writer 0 < 8 }
        ensures { TakesLine self.old (act StatementForm writer name.now args.now) result self.new }
    {
        self.close()?;
        let (writer, index) = match self.admit_statement(writer, name) {
            Ok(admitted) => admitted,
            Err(cause) => return Err(LineFault::Refused(cause)),
        };
        match read_args(self.alloc, &self.names, &self.table, index, args) {
            Ok(args) => self.put_statement(writer, Statement { index, args }),
            Err(ArgFault::Refused { cause }) => Err(LineFault::Refused(Cause::Args(cause))),
            Err(ArgFault::Memory) => Err(LineFault::Memory),
        }
    }

    // Puts a statement behind those of its writer, unless it is too long.
    fn put_statement(&mut self, writer: u8, stm: Statement) -> Result<(), LineFault>
        requires closed { StringsAreOver self.old.first }
        requires room { count_statements self.old.script < statements_limit }
        requires writer { writer < 8 }
        requires message { is_message self.old.script.table stm.index ≡ true }
        requires fits { Fits self.old.script.table stm.index stm.args }
        ensures { Becomes (takes_statement self.old writer stm) result self.new }
    {
        if is_long(&self.table, &self.settings, &stm) {
            return Err(LineFault::Refused(Cause::Long));
        }
        if is_wide(self.alloc, &self.table, &stm)? {
            return Err(LineFault::Refused(Cause::Wide));
        }
        stm.args.are_sound();
        self.writers[usize::from(writer)].push(stm)?;
        self.statements += 1;
        Ok(())
    }

    // The writer of a text, and the terminal of its field: the rest may be spoken, and there is room.
    fn admit_text(&self, line: &ActionLine<'_>) -> Result<(u8, u8), Cause>
        ensures value { result
            ≡ admits_text self.now line.now.writer line.now.field.now line.now.rest.now }
        ensures writer { IfOk result (λ p. p.0 < 8) }
        ensures terminal { IfOk result (λ p. p.1 < 16) }
        ensures sayable { IfOk result (λ p. IsSayable line.now.rest.now) }
        ensures room { IfOk result (λ p. count_texts self.now.script.said < texts_limit) }
    {
        let Some(writer) = line.writer else {
            return Err(Cause::Writer);
        };
        let Some(terminal) = terminal_named(line.field) else {
            return Err(Cause::Terminal);
        };
        if !is_sayable(line.rest) {
            return Err(Cause::Words);
        }
        if !self.has_room_for_text() {
            return Err(Cause::Many);
        }
        Ok((writer, terminal))
    }

    // Takes a text for a terminal: the field is the terminal's digit, and the rest is the text.
    #[inline(never)]
    fn take_text(&mut self, line: ActionLine<'_>) -> Result<(), LineFault>
        ensures { TakesLine self.old
            (act SayForm line.entry.writer line.entry.field.now line.entry.rest.now)
            result self.new }
    {
        self.close()?;
        let (writer, terminal) = match self.admit_text(&line) {
            Ok(admitted) => admitted,
            Err(cause) => return Err(LineFault::Refused(cause)),
        };
        self.put_text(writer, terminal, line.rest)?;
        Ok(())
    }

    // Puts a text behind the statements and the texts that its writer has by now.
    fn put_text(&mut self, writer: u8, terminal: u8, text: &str) -> Result<(), Memory>
        requires writer { writer < 8 }
        requires terminal { terminal < 16 }
        requires text { IsSayable text.now }
        requires room { count_texts self.old.script.said < texts_limit }
        ensures { OnOk result (self.new ≡ with_text self.old writer terminal text.now) }
    {
        let behind = self.count(writer);
        self.said.push(writer, behind, terminal, text)
    }
}
