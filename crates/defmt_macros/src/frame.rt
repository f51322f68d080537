//! Messages that are put into a buffer, argument by argument.
ghost use Rattle.std.specs.Prelude.{◌≡◌, ◌≤◌, ◌<◌, ◌+◌, ◌^◌, ◌++◌, ◌∷◌, [], length, drop};

use crate::putting::{behind, put_fitting, put_head};
use crate::site::Site;
use defmt_encode::{put_args, put_bytes, put_slice, put_text, put_value, size_bytes};
use defmt_grammar::{IntSize, Slot};
use defmt_intern::Table;
use defmt_values::{Args, Value, cut};

/// A message that is being put into a buffer of at least 2,000 bytes (defmt book, "Serialization").
///
/// It is seen as the bytes put so far (`bytes_put`, of which there are `count_put`) and the slots still to come
/// (`slots_left`). What lies behind these bytes in the buffer is as it was, also where the frame is dropped without
/// `end`. No call takes memory.
#[derive(Drop)]
pub struct Frame<'b, 's> {
    buf: &'b mut [u8],
    at: usize,
    left: &'s [Slot],
    ghost within: { at ≤ 2000 },
    ghost room: { 2000 ≤ length buf.now },
}

impl<'b, 's> Frame<'b, 's> {
    ghost use Rattle.defmt_encode.specs.Carry.{size_bytes, flag_byte, length_bytes, bytes_val, bytes_vals};
    ghost use Rattle.defmt_grammar.specs.Sizes.{size_bits, IsSigned};
    ghost use Rattle.defmt_grammar.specs.declared.kind.Kind.TheVariants as kinds;
    ghost use Rattle.defmt_grammar.specs.declared.slot.Slot.{Slot as AnySlot};
    ghost use Rattle.defmt_grammar.specs.declared.slot.Slot.TheVariants as slots;
    ghost use Rattle.defmt_values.specs.Fits.{FitsVal, IsBytes};
    ghost use Rattle.defmt_values.specs.View.{plain};
    ghost use Rattle.defmt_macros.specs.Frames.{buffer_of, bytes_put, count_put, slots_left, head_of, PutsInto, SameBuffer, IsNext, HasRoom, Grows, GrowsByAll, FitSlots};
    ghost use Rattle.rzcobs_core.specs.Encoder.{buffer_left};
    ghost use Rattle.byteorder.specs.Endian.{little_bytes};
    ghost use Rattle.std.specs.Int.{w128, cast_unsigned};

    /// Begins a message: its index in two bytes, its place in two more where there is one, and the stamp in eight where
    /// there is one, each with its lowest byte first. All of the site's slots are to come.
    #[inline]
    #[tactic(auto, using(crate::proofs::Lengths::head_length))]
    pub fn begin(
        buf: &'b mut [u8],
        site: &'s Site,
        place: Option<u16>,
        stamp: Option<u64>,
    ) -> Frame<'b, 's>
        requires { 2000 ≤ length buf.old }
        ensures same_buffer { PutsInto result buf.entry }
        ensures bytes { bytes_put result ≡ head_of site.now.index place stamp }
        ensures behind { drop (count_put result) (buffer_of result)
            ≡ drop (count_put result) buf.old }
        ensures count { count_put result ≡ length (head_of site.now.index place stamp) }
        ensures few { count_put result ≤ 12 }
        ensures slots { slots_left result ≡ site.now.slots }
    {
        let at = put_head(buf, site.index(), place, stamp);
        Frame {
            buf,
            at,
            left: site.slots(),
        }
    }

    /// Puts an unsigned number of this size.
    #[inline]
    pub fn put_uint(&mut self, size: IntSize, n: u128)
        requires next { IsNext self.old (slots.One (kinds.Uint size)) }
        requires range { n < 2 ^ size_bits size }
        requires room { HasRoom self.old (size_bytes size) }
        ensures same_buffer { SameBuffer self.old self.new }
        ensures grows { Grows self.old self.new (slots.One (kinds.Uint size))
            (little_bytes (size_bytes size) n) }
    {
        self.at = put_fitting(self.buf, self.at, n, size_bytes(size));
        self.left = behind(self.left);
    }

    /// Puts a signed number of this size, in two's complement.
    #[inline]
    pub fn put_int(&mut self, size: IntSize, n: i128)
        requires next { IsNext self.old (slots.One (kinds.Int size)) }
        requires range { IsSigned (size_bits size) n }
        requires room { HasRoom self.old (size_bytes size) }
        ensures same_buffer { SameBuffer self.old self.new }
        ensures grows { Grows self.old self.new (slots.One (kinds.Int size))
            (little_bytes (size_bytes size) (cast_unsigned w128 n)) }
    {
        self.at = put_fitting(self.buf, self.at, n.cast_unsigned(), size_bytes(size));
        self.left = behind(self.left);
    }

    /// Puts a truth value, as one byte.
    #[inline]
    pub fn put_bool(&mut self, b: bool)
        requires next { IsNext self.old (slots.One kinds.Bool) }
        requires room { HasRoom self.old 1 }
        ensures same_buffer { SameBuffer self.old self.new }
        ensures grows { Grows self.old self.new (slots.One kinds.Bool) (flag_byte b ∷ []) }
    {
        let Ok(at) = put_bytes(self.buf, self.at, &[u8::from(b)]) else {
            unreachable!()
        };
        self.at = at;
        self.left = behind(self.left);
    }

    /// Puts a character, as its number in four bytes.
    #[inline]
    pub fn put_char(&mut self, c: char)
        requires next { IsNext self.old (slots.One kinds.Char) }
        requires room { HasRoom self.old 4 }
        ensures same_buffer { SameBuffer self.old self.new }
        ensures grows { Grows self.old self.new (slots.One kinds.Char) (little_bytes 4 c) }
    {
        self.at = put_fitting(self.buf, self.at, u128::from(u32::from(c)), 4);
        self.left = behind(self.left);
    }

    /// Puts a text behind its length in four bytes.
    #[inline]
    pub fn put_str(&mut self, text: &str)
        requires next { IsNext self.old (slots.One kinds.Str) }
        requires room { HasRoom self.old (4 + length text.now) }
        ensures same_buffer { SameBuffer self.old self.new }
        ensures grows { Grows self.old self.new (slots.One kinds.Str)
            (little_bytes 4 (length text.now) ++ text.now) }
    {
        let Ok(at) = put_text(self.buf, self.at, text.as_bytes()) else {
            unreachable!()
        };
        self.at = at;
        self.left = behind(self.left);
    }

    /// Puts bytes, behind their number in four bytes unless they are a byte array's, which has as many.
    #[inline]
    pub fn put_bytes(&mut self, bytes: &[u8])
        requires { (slot : AnySlot) × IsNext self.old slot × IsBytes slot (length bytes.now)
            × HasRoom self.old (length (length_bytes slot (length bytes.now)) + length bytes.now) }
        ensures same_buffer { SameBuffer self.old self.new }
        ensures grows { (slot : AnySlot) → IsNext self.old slot
            → Grows self.old self.new slot (length_bytes slot (length bytes.now) ++ bytes.now) }
    {
        let Some((slot, left)) = cut(self.left) else {
            unreachable!()
        };
        let Ok(at) = put_slice(self.buf, self.at, *slot, bytes) else {
            unreachable!()
        };
        self.at = at;
        self.left = left;
    }

    /// Puts a value of any kind. It fits the next slot.
    #[inline]
    pub fn put_value(&mut self, table: &Table, value: &Value)
        requires { (slot : AnySlot) × IsNext self.old slot
            × FitsVal table.now.entries 16 slot (plain value.now)
            × HasRoom self.old (length (bytes_val table.now.entries slot (plain value.now))) }
        ensures same_buffer { SameBuffer self.old self.new }
        ensures grows { (slot : AnySlot) → IsNext self.old slot
            → Grows self.old self.new slot (bytes_val table.now.entries slot (plain value.now)) }
    {
        let Some((slot, left)) = cut(self.left) else {
            unreachable!()
        };
        let Ok(at) = put_value(table, *slot, value, self.buf, self.at) else {
            unreachable!()
        };
        self.at = at;
        self.left = left;
    }

    /// Puts a value for each slot that is still to come. Each fits its slot.
    #[inline]
    pub fn put_all(&mut self, table: &Table, args: &Args)
        requires fits { FitSlots table.now.entries (slots_left self.old) args.now }
        requires room { HasRoom self.old
            (length (bytes_vals table.now.entries (slots_left self.old) args.now)) }
        ensures same_buffer { SameBuffer self.old self.new }
        ensures grows { GrowsByAll self.old self.new
            (bytes_vals table.now.entries (slots_left self.old) args.now) }
    {
        let Ok(at) = put_args(table, self.left, args, self.buf, self.at) else {
            unreachable!()
        };
        self.at = at;
        self.left = &[];
    }

    /// Ends the message, to which no slot is still to come, and answers how many bytes it has.
    #[inline]
    pub fn end(self) -> usize
        requires { slots_left self ≡ [] }
        ensures count { result ≡ count_put self.entry }
        ensures buffer { buffer_left self.exit ≡ buffer_of self.entry }
    {
        self.at
    }
}
