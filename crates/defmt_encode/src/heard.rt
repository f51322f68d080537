//! Messages read from bytes.
ghost use Rattle.std.specs.Prelude.{◌≡◌, ℕ, Option};
ghost use Rattle.defmt_values.specs.Entries.{look};
ghost use Rattle.defmt_values.specs.Plain.{Vals};
ghost use Rattle.defmt_encode.specs.Heard.{IsHeard};
ghost use Rattle.defmt_encode.specs.Met.{IsMet};
ghost use Rattle.defmt_encode.specs.Read.{one_in, logged_of, stamp_form, stamp_at, place_at, message_at};
ghost use Rattle.defmt_encode.specs.Reads.{now_of, pair_now, ReadsStamp, ReadsMessage, Answers, GivesOnly, RefusesOnly, told, with_stamp};
ghost use Rattle.defmt_intern.specs.Stamp.{stamp_of};

use crate::arguments::read_own;
use crate::cause::{Cause, Fault};
use crate::field::index;
use crate::forms::suited;
use crate::padding::is_padding;
use defmt_grammar::Pieces;
use defmt_intern::{Parsed, Profile, Table};
use defmt_values::{Args, Statement, is_logged, look_up};
use std::alloc::Global;

/// What a message says.
#[derive(Drop)]
pub struct Heard {
    /// The number of the message's mark modulo 65,536: there is one exactly in profile Two.
    pub place: Option<u16>,
    /// The stamp's arguments, none where the table has no timestamp's entry.
    pub stamp: Args,
    /// The statement.
    pub stm: Statement,
}

/// Why bytes aren't read as a message.
#[derive(Clone, Copy, Debug)]
pub enum ReadCause {
    /// The first cause that stands in the bytes, from left to right, by the number of its event: an
    /// index that isn't in the table, an entry whose tag doesn't suit, an entry whose tag is unknown or
    /// whose text was refused, bytes that end within a field, a truth value above 1, a number that is no
    /// character, a text that isn't UTF-8, a variant that isn't there, a Format value at depth 17,
    /// something else than at most six zeros behind the last argument, or weights of the Format values
    /// that pass 8,192. `fault_name` tells its name.
    Bad { cause: u8 },
    /// Want of memory.
    Memory,
}

impl From<Fault> for ReadCause {
    ghost use Rattle.std.specs.Prelude.{◌≡◌};
    ghost use Rattle.defmt_encode.specs.Cause.{answer_of};

    ghost from_gives = { λ fault e. e ≡ answer_of fault };

    fn from(fault: Fault) -> ReadCause {
        match fault {
            Fault::Bad(cause) => ReadCause::Bad {
                cause: cause.number(),
            },
            Fault::Memory => ReadCause::Memory,
        }
    }
}

fn one_in(body: &Parsed) -> Result<&Pieces, Cause>
    ensures { now_of result ≡ one_in body.now }
{
    match body {
        Parsed::One(pieces) => Ok(pieces),
        _ => Err(Cause::Unsupported),
    }
}

// The pieces of a frame's own entry.
fn logged(table: &Table, index: u16) -> Result<&Pieces, Cause>
    ensures { now_of result ≡ logged_of table.now.entries.language (look table.now.entries index) }
{
    let Some((entry, body)) = look_up(table, index) else {
        return Err(Cause::NoEntry);
    };
    suited(is_logged(&entry.tag), &entry.tag)?;
    one_in(body)
}

fn stamp_form(table: &Table, index: u16) -> Result<&Pieces, Cause>
    ensures { now_of result ≡ stamp_form table.now.entries.language (look table.now.entries index) }
{
    match look_up(table, index) {
        None => Err(Cause::Unsupported),
        Some((_, body)) => one_in(body),
    }
}

fn read_place<'b>(table: &Table, bytes: &'b [u8]) -> Result<(Option<u16>, &'b [u8]), Cause>
    ensures { pair_now result ≡ place_at table.now.profile bytes.now }
{
    match table.profile() {
        Profile::One => Ok((None, bytes)),
        Profile::Two => {
            let (place, rest) = index(bytes)?;
            Ok((Some(place), rest))
        }
    }
}

fn read_stamp<'b>(
    alloc: Global,
    table: &Table,
    bytes: &'b [u8],
    stamp: &mut Args,
) -> Result<&'b [u8], Fault>
    ensures { ReadsStamp (with_stamp stamp.new result)
        (stamp_at table.now.entries (stamp_of table.now.entries) bytes.now) }
{
    match table.stamp() {
        None => {
            stamp.clear();
            Ok(bytes)
        }
        Some(index) => {
            let pieces = stamp_form(table, index)?;
            let (_, rest) = read_own(alloc, table, pieces, bytes, stamp)?;
            Ok(rest)
        }
    }
}

fn read_whole(alloc: Global, table: &Table, bytes: &[u8], heard: &mut Heard) -> Result<(), Fault>
    ensures { ReadsMessage (told heard.new result) (message_at table.now bytes.now) }
{
    let (index, rest) = index(bytes)?;
    let pieces = logged(table, index)?;
    let (place, rest) = read_place(table, rest)?;
    let rest = read_stamp(alloc, table, rest, &mut heard.stamp)?;
    let (_, rest) = read_own(alloc, table, pieces, rest, &mut heard.stm.args)?;
    if !is_padding(rest) {
        return Err(Fault::Bad(Cause::Trailing));
    }
    heard.place = place;
    heard.stm.index = index;
    Ok(())
}

impl Heard {
    ghost use Rattle.std.specs.Prelude.{◌≡◌, ℕ, Option, None, OnErr};
    ghost use Rattle.defmt_values.specs.Plain.{Vals, no_vals};
    ghost use Rattle.defmt_encode.specs.Heard.{IsHeard};
    ghost use Rattle.defmt_encode.specs.Unheard.{IsUnheard};
    ghost use Rattle.defmt_encode.specs.Met.{IsMet};
    ghost use Rattle.defmt_encode.specs.Reads.{Answers, GivesOnly, RefusesOnly, told};

    /// No place and no stamp, and a statement of the index 0 without arguments. Takes no memory.
    pub fn new(alloc: Global) -> Self
        ensures place { result.place ≡ None }
        ensures stamp { result.stamp ≡ no_vals }
        ensures index { result.stm.index ≡ 0 }
        ensures args { result.stm.args ≡ no_vals }
    {
        Heard {
            place: None,
            stamp: Args::new(alloc),
            stm: Statement {
                index: 0,
                args: Args::new(alloc),
            },
        }
    }

    /// Hears a message as `read_message` reads it, in place of what was heard before. The lists of the arguments
    /// keep the room that they had, so that one `Heard` for many messages takes less memory than one for each.
    ///
    /// # Errors
    /// Those of `read_message`. It is as a new one then: nothing is heard.
    #[inline(never)]
    pub fn hear(&mut self, alloc: Global, table: &Table, bytes: &[u8]) -> Result<(), ReadCause>
        // A statement is answered only where it is heard, and a cause only where it is met.
        ensures answer { Answers table.now bytes.now (told self.new result) }
        // Unless memory runs out, what is heard is answered, and the cause that is met.
        ensures heard { (place : Option ℕ) (stamp : Vals) (index : ℕ) (vs : Vals)
            → IsHeard table.now bytes.now place stamp index vs
            → GivesOnly (told self.new result) place stamp index vs }
        ensures met { (number : ℕ) → IsMet table.now bytes.now number
            → RefusesOnly (told self.new result) number }
        // At an error nothing is heard.
        ensures err { OnErr result (IsUnheard self.new) }
    {
        match read_whole(alloc, table, bytes, self) {
            Ok(()) => Ok(()),
            Err(fault) => {
                self.clear();
                Err(ReadCause::from(fault))
            }
        }
    }

    // Takes out what was heard.
    fn clear(&mut self)
        ensures { IsUnheard self.new }
    {
        self.place = None;
        self.stamp.clear();
        self.stm.index = 0;
        self.stm.args.clear();
    }
}

/// The place, the stamp and the statement of a message, or the first cause for which it has none (defmt book,
/// "Serialization").
///
/// Behind the last argument there may be up to six zeros, which the last block of a code may add.
///
/// # Errors
/// `ReadCause::Bad` exactly where a cause is met, with the number of the first. `ReadCause::Memory`
/// where memory runs out.
pub fn read_message(alloc: Global, table: &Table, bytes: &[u8]) -> Result<Heard, ReadCause>
    // A statement is answered only where it is heard, and a cause only where it is met.
    ensures answer { Answers table.now bytes.now result }
    // Unless memory runs out, what is heard is answered, and the cause that is met.
    ensures heard { (place : Option ℕ) (stamp : Vals) (index : ℕ) (vs : Vals)
        → IsHeard table.now bytes.now place stamp index vs → GivesOnly result place stamp index vs }
    ensures met { (number : ℕ) → IsMet table.now bytes.now number → RefusesOnly result number }
{
    let mut heard = Heard::new(alloc);
    heard.hear(alloc, table, bytes)?;
    Ok(heard)
}
