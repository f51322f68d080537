//! Macros with their arguments one by one: a proved caller of each.
ghost use Rattle.std.specs.Prelude.{◌≡◌, ◌≤◌, ◌<◌, ◌^◌, ◌∷◌, [], length, take};
ghost use Rattle.defmt_encode.specs.Carry.{bytes_val, bytes_vals, message_of, stamp_args};
ghost use Rattle.defmt_encode.specs.Placed.{HasPlace};
ghost use Rattle.defmt_grammar.specs.Sizes.{IsSigned};
ghost use Rattle.defmt_grammar.specs.declared.kind.IntSize.TheVariants as sizes;
ghost use Rattle.defmt_grammar.specs.declared.kind.Kind.TheVariants as kinds;
ghost use Rattle.defmt_grammar.specs.declared.slot.Slot.{Slot as AnySlot};
ghost use Rattle.defmt_grammar.specs.declared.slot.Slot.TheVariants as slots;
ghost use Rattle.defmt_intern.specs.declared.entry.Tag.TheVariants as tags;
ghost use Rattle.defmt_values.specs.Fits.{FitsVal};
ghost use Rattle.defmt_values.specs.Plain.{uint, int, flag, char, str, bytes, no_vals, val};
ghost use Rattle.defmt_values.specs.View.{plain};
ghost use Rattle.defmt_macros.specs.Frames.{GrowsByAll, count_put, slots_left};
ghost use Rattle.defmt_macros.specs.Sites.{IsSite};
ghost use Rattle.defmt_macros.specs.Stamps.{StampSuits};

use defmt_intern::Table;
use defmt_macros::{Frame, Site, debug, error, info, println_, put, trace, warn};
use defmt_values::Value;

// Whatever the arguments of a macro are, the buffer begins with their message.

pub(crate) fn with_trace(
    buf: &mut [u8],
    table: &Table,
    site: &Site,
    place: Option<u16>,
    stamp: Option<u64>,
    a: u8,
    b: bool,
) -> usize
    requires room { 2000 ≤ length buf.old }
    requires tag { site.now.tag ≡ tags.Trace }
    requires slots { site.now.slots ≡ slots.One (kinds.Uint sizes.W8) ∷ slots.One kinds.Bool ∷ [] }
    requires entry { IsSite table.now.entries site.now.index site.now.tag site.now.slots }
    requires place { HasPlace table.now.profile place }
    requires stamp { StampSuits table.now.entries stamp }
    ensures { take result buf.new
        ≡ message_of table.now.entries place (stamp_args stamp) site.now.index (val (uint a) (val (flag b) no_vals)) }
{
    trace!(buf, table, site, place, stamp; u8 a, bool b)
}

pub(crate) fn with_debug(
    buf: &mut [u8],
    table: &Table,
    site: &Site,
    place: Option<u16>,
    stamp: Option<u64>,
    a: i128,
    b: &[u8],
) -> usize
    requires room { 2000 ≤ length buf.old }
    requires tag { site.now.tag ≡ tags.Debug }
    requires slots { site.now.slots ≡ slots.One (kinds.Int sizes.W128) ∷ slots.One kinds.Bytes ∷ [] }
    requires entry { IsSite table.now.entries site.now.index site.now.tag site.now.slots }
    requires place { HasPlace table.now.profile place }
    requires stamp { StampSuits table.now.entries stamp }
    requires short { length b.now ≤ 1000 }
    ensures { take result buf.new
        ≡ message_of table.now.entries place (stamp_args stamp) site.now.index (val (int a) (val (bytes b.now) no_vals)) }
{
    debug!(buf, table, site, place, stamp; i128 a, bytes b)
}

pub(crate) fn with_info(
    buf: &mut [u8],
    table: &Table,
    site: &Site,
    place: Option<u16>,
    stamp: Option<u64>,
    a: &str,
    b: char,
) -> usize
    requires room { 2000 ≤ length buf.old }
    requires tag { site.now.tag ≡ tags.Info }
    requires slots { site.now.slots ≡ slots.One kinds.Str ∷ slots.One kinds.Char ∷ [] }
    requires entry { IsSite table.now.entries site.now.index site.now.tag site.now.slots }
    requires place { HasPlace table.now.profile place }
    requires stamp { StampSuits table.now.entries stamp }
    requires short { length a.now ≤ 1000 }
    ensures { take result buf.new
        ≡ message_of table.now.entries place (stamp_args stamp) site.now.index (val (str a.now) (val (char b) no_vals)) }
{
    info!(buf, table, site, place, stamp; str a, char b)
}

pub(crate) fn with_warn(
    buf: &mut [u8],
    table: &Table,
    site: &Site,
    place: Option<u16>,
    stamp: Option<u64>,
    a: u128,
    b: usize,
) -> usize
    requires room { 2000 ≤ length buf.old }
    requires tag { site.now.tag ≡ tags.Warn }
    requires slots { site.now.slots ≡ slots.One (kinds.Uint sizes.W128) ∷ slots.One (kinds.Uint sizes.Native) ∷ [] }
    requires entry { IsSite table.now.entries site.now.index site.now.tag site.now.slots }
    requires place { HasPlace table.now.profile place }
    requires stamp { StampSuits table.now.entries stamp }
    requires range { b < 2 ^ 32 }
    ensures { take result buf.new
        ≡ message_of table.now.entries place (stamp_args stamp) site.now.index (val (uint a) (val (uint b) no_vals)) }
{
    warn!(buf, table, site, place, stamp; u128 a, usize b)
}

fn with_error(
    buf: &mut [u8],
    table: &Table,
    site: &Site,
    place: Option<u16>,
    stamp: Option<u64>,
    a: &Value,
) -> usize
    requires room { 2000 ≤ length buf.old }
    requires tag { site.now.tag ≡ tags.Error }
    requires slots { (slot : AnySlot) × (site.now.slots ≡ slot ∷ []) × FitsVal table.now.entries 16 slot (plain a.now) × (length (bytes_val table.now.entries slot (plain a.now)) ≤ 1000) }
    requires entry { IsSite table.now.entries site.now.index site.now.tag site.now.slots }
    requires place { HasPlace table.now.profile place }
    requires stamp { StampSuits table.now.entries stamp }
    ensures { take result buf.new
        ≡ message_of table.now.entries place (stamp_args stamp) site.now.index (val (plain a.now) no_vals) }
{
    error!(buf, table, site, place, stamp; value a)
}

fn with_println(
    buf: &mut [u8],
    table: &Table,
    site: &Site,
    place: Option<u16>,
    stamp: Option<u64>,
) -> usize
    requires room { 2000 ≤ length buf.old }
    requires tag { site.now.tag ≡ tags.Println }
    requires slots { site.now.slots ≡ [] }
    requires entry { IsSite table.now.entries site.now.index site.now.tag site.now.slots }
    requires place { HasPlace table.now.profile place }
    requires stamp { StampSuits table.now.entries stamp }
    ensures { take result buf.new
        ≡ message_of table.now.entries place (stamp_args stamp) site.now.index no_vals }
{
    println_!(buf, table, site, place, stamp;)
}

// Each integer is put for a slot of its own size, as the bytes of its value.

fn put_unsigned(frame: &mut Frame, table: &Table, a: u16, b: u32, c: u64)
    requires start { count_put frame.old ≤ 10 }
    requires slots { slots_left frame.old ≡ slots.One (kinds.Uint sizes.W16) ∷ slots.One (kinds.Uint sizes.W32) ∷ slots.One (kinds.Uint sizes.W64) ∷ [] }
    ensures { GrowsByAll frame.old frame.new (bytes_vals table.now.entries (slots_left frame.old) (val (uint a) (val (uint b) (val (uint c) no_vals)))) }
{
    put!(frame, table, u16 a);
    put!(frame, table, u32 b);
    put!(frame, table, u64 c);
}

fn put_signed(frame: &mut Frame, table: &Table, a: i8, b: i16, c: i32, d: i64, e: isize)
    requires start { count_put frame.old ≤ 10 }
    requires slots { slots_left frame.old ≡ slots.One (kinds.Int sizes.W8) ∷ slots.One (kinds.Int sizes.W16) ∷ slots.One (kinds.Int sizes.W32) ∷ slots.One (kinds.Int sizes.W64) ∷ slots.One (kinds.Int sizes.Native) ∷ [] }
    requires range { IsSigned 32 e }
    ensures { GrowsByAll frame.old frame.new (bytes_vals table.now.entries (slots_left frame.old) (val (int a) (val (int b) (val (int c) (val (int d) (val (int e) no_vals)))))) }
{
    put!(frame, table, i8 a);
    put!(frame, table, i16 b);
    put!(frame, table, i32 c);
    put!(frame, table, i64 d);
    put!(frame, table, isize e);
}
