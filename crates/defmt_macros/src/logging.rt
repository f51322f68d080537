//! A statement that is logged with all its values at once.
ghost use Rattle.std.specs.Prelude.{◌≡◌, ◌≤◌, length, take, drop};
ghost use Rattle.defmt_encode.specs.Carry.{message_of, stamp_args};
ghost use Rattle.defmt_encode.specs.Placed.{HasPlace};
ghost use Rattle.defmt_values.specs.Fits.{Fits};
ghost use Rattle.defmt_macros.specs.Frames.{FitSlots, whole_of};
ghost use Rattle.defmt_macros.specs.Sites.{IsSite};
ghost use Rattle.defmt_macros.specs.Stamps.{StampSuits};

use crate::frame::Frame;
use crate::site::Site;
use defmt_intern::Table;
use defmt_values::Args;

/// Puts a whole message with the values of all slots, which the form `all args` of the macros expands to. Answers its
/// length. It stands at the buffer's front, and what lies behind it is as before.
///
/// Each value fits its slot, and the message has at most 2,000 bytes, as many as the buffer has at least. Takes no memory.
#[inline]
pub fn put_message(
    buf: &mut [u8],
    table: &Table,
    site: &Site,
    place: Option<u16>,
    stamp: Option<u64>,
    args: &Args,
) -> usize
    requires room { 2000 ≤ length buf.old }
    requires fits { FitSlots table.now.entries site.now.slots args.now }
    requires short { length (whole_of table.now.entries site.now place stamp args.now) ≤ 2000 }
    ensures count { result ≡ length (whole_of table.now.entries site.now place stamp args.now) }
    ensures message { take result buf.new ≡ whole_of table.now.entries site.now place stamp args.now }
    ensures behind { drop result buf.new ≡ drop result buf.old }
{
    let mut frame = Frame::begin(buf, site, place, stamp);
    frame.put_all(table, args);
    frame.end()
}

/// Logs the values of all slots, as the macro of the site's tag does. Answers the length of the message, which stands at the
/// buffer's front. What lies behind it is as before.
///
/// The site is of an entry of the table, the values fit it, the place and the stamp suit the table, and the message has at
/// most 2,000 bytes, as many as the buffer has at least. Takes no memory.
pub fn log(
    buf: &mut [u8],
    table: &Table,
    site: &Site,
    place: Option<u16>,
    stamp: Option<u64>,
    args: &Args,
) -> usize
    requires room { 2000 ≤ length buf.old }
    requires site { IsSite table.now.entries site.now.index site.now.tag site.now.slots }
    requires place { HasPlace table.now.profile place }
    requires stamp { StampSuits table.now.entries stamp }
    requires fits { Fits table.now.entries site.now.index args.now }
    requires short { length (message_of table.now.entries place
        (stamp_args stamp) site.now.index args.now) ≤ 2000 }
    ensures count { result ≡ length (message_of table.now.entries place
        (stamp_args stamp) site.now.index args.now) }
    ensures message { take result buf.new ≡ message_of table.now.entries place
        (stamp_args stamp) site.now.index args.now }
    ensures behind { drop result buf.new ≡ drop result buf.old }
{
    put_message(buf, table, site, place, stamp, args)
}
