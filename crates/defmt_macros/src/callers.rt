//! Callers of the macros, since a macro has no contract of its own: what one puts is proved where it is called.
ghost use Rattle.std.specs.Prelude.{◌≡◌, ◌≤◌, ◌∷◌, [], length, take};
ghost use Rattle.defmt_encode.specs.Carry.{message_of, stamp_args};
ghost use Rattle.defmt_encode.specs.Placed.{HasPlace};
ghost use Rattle.defmt_grammar.specs.declared.kind.IntSize.TheVariants as sizes;
ghost use Rattle.defmt_grammar.specs.declared.kind.Kind.TheVariants as kinds;
ghost use Rattle.defmt_grammar.specs.declared.slot.Slot.TheVariants as slots;
ghost use Rattle.defmt_intern.specs.declared.entry.Tag.TheVariants as tags;
ghost use Rattle.defmt_values.specs.Plain.{uint, no_vals, val};
ghost use Rattle.defmt_macros.specs.Frames.{FitSlots, whole_of};
ghost use Rattle.defmt_macros.specs.Sites.{IsSite};
ghost use Rattle.defmt_macros.specs.Stamps.{StampSuits};

use crate::info;
use crate::site::Site;
use defmt_intern::Table;
use defmt_values::Args;

// Arguments of one kind are put in their order.
pub(crate) fn three_alike(
    buf: &mut [u8],
    table: &Table,
    site: &Site,
    place: Option<u16>,
    stamp: Option<u64>,
    a: u32,
    b: u32,
    c: u32,
) -> usize
    requires room { 2000 ≤ length buf.old }
    requires tag { site.now.tag ≡ tags.Info }
    requires slots { site.now.slots ≡ slots.One (kinds.Uint sizes.W32)
        ∷ slots.One (kinds.Uint sizes.W32) ∷ slots.One (kinds.Uint sizes.W32) ∷ [] }
    requires entry { IsSite table.now.entries site.now.index site.now.tag site.now.slots }
    requires place { HasPlace table.now.profile place }
    requires stamp { StampSuits table.now.entries stamp }
    ensures { take result buf.new ≡ message_of table.now.entries place (stamp_args stamp)
        site.now.index (val (uint a) (val (uint b) (val (uint c) no_vals))) }
{
    info!(buf, table, site, place, stamp; u32 a, u32 b, u32 c)
}

// All values at once are put as they stand.
pub(crate) fn all_values(
    buf: &mut [u8],
    table: &Table,
    site: &Site,
    place: Option<u16>,
    stamp: Option<u64>,
    args: &Args,
) -> usize
    requires room { 2000 ≤ length buf.old }
    requires tag { site.now.tag ≡ tags.Info }
    requires entry { IsSite table.now.entries site.now.index site.now.tag site.now.slots }
    requires place { HasPlace table.now.profile place }
    requires stamp { StampSuits table.now.entries stamp }
    requires fits { FitSlots table.now.entries site.now.slots args.now }
    requires short { length (whole_of table.now.entries site.now place stamp args.now) ≤ 2000 }
    ensures { take result buf.new ≡ whole_of table.now.entries site.now place stamp args.now }
{
    info!(buf, table, site, place, stamp; all args)
}
