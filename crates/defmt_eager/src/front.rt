//! What stands in front of a statement's own text.

ghost use Rattle.std.specs.Prelude.{◌≡◌, ◌≤◌, length, IfSome};
ghost use Rattle.std.specs.Option.{option_map};
ghost use Rattle.defmt_eager.specs.Line.{front_text, printed_limit, sizes_at, stamp_text};
ghost use Rattle.defmt_intern.specs.Stamp.{stamp_of};
ghost use Rattle.defmt_values.specs.Plain.{Vals};

use defmt_intern::Table;

/// How many bytes a line has in front of its statement's own text.
#[derive(Clone, Copy)]
pub struct Front {
    /// Those of the stamp's text; 0 where the line has none.
    pub stamp: u32,
    /// Those of the stamp and of the level, with the spaces behind them.
    pub size: u32,
}

// What so many bytes in front of the text of a statement of this level are.
#[inline(always)]
pub(crate) fn front_of(table: &Table, level: Option<&str>, size: usize) -> Front
    requires width { IfSome level (λ l. length l.now ≡ 5) }
    requires few { size ≤ 65543 }
    ensures { (stamp : Vals)
        → size ≡ length (front_text table.now.entries (stamp_of table.now.entries) stamp
        (option_map (λ l. l.now) level.entry))
        → result ≡ sizes_at table.now.entries (stamp_of table.now.entries) stamp
        (option_map (λ l. l.now) level.entry) }
{
    let named = if table.stamp().is_some() { 7 } else { 6 };
    let stamp = match level {
        Some(_) => size.saturating_sub(named),
        None => 0,
    };
    Front {
        stamp: stamp as u32,
        size: size as u32,
    }
}
