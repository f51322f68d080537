//! What hears orders.
ghost use Rattle.std.specs.Prelude.{◌≡◌, ℕ, List, [], ◌∷◌, ◌++◌, Some};
ghost use Rattle.std.specs.Option.{option_to_list};
ghost use Rattle.rtt_down.specs.Orders.{kept_of, lengthened, ordered_at, ordered_by_kept, open_after, open_line, orders};
ghost use Rattle.rtt_down.specs.Open.{kept_by};

use defmt_hooks::Level;
use std::marker::Model;

// The line that isn't ended yet.
#[derive(Clone, Copy)]
enum Open {
    Empty,
    One(u8),
    Two(u8, u8),
    // It has more than two bytes.
    Long,
}

/// Hears bytes one by one, and keeps the line that isn't ended yet: its bytes up to two, or that it is too long for an order.
#[derive(Drop)]
pub struct Ear {
    line: Open,
}

impl Model for Ear {
    ghost use Rattle.std.specs.Prelude.{ℕ, List, Option};
    ghost use Rattle.rtt_down.specs.Open.{kept_by};

    ghost Value = { Option (List ℕ) };

    ghost view = { λ e. kept_by e.line };
}

impl Ear {
    /// An ear that heard nothing yet. Takes no memory.
    pub fn new() -> Ear
        ensures { result ≡ Some [] }
    {
        Ear { line: Open::Empty }
    }

    /// Hears one byte more, and answers a level exactly where the byte is a newline and the open line orders this level.
    /// Takes no memory.
    ///
    /// Of an ear that heard some bytes the answers so far are the orders in them.
    pub fn hear(&mut self, byte: u8) -> Option<Level>
        ensures line { self.new ≡ open_after self.old byte }
        ensures level { result ≡ ordered_at self.old byte }
        ensures heard { (heard : List ℕ) → self.old ≡ kept_of (open_line heard)
            → (self.new ≡ kept_of (open_line (heard ++ byte ∷ [])))
            × (orders (heard ++ byte ∷ []) ≡ orders heard ++ option_to_list result) }
    {
        if byte == b'\n' {
            let level = level_in(self.line);
            self.line = Open::Empty;
            return level;
        }
        self.line = longer(self.line, byte);
        None
    }
}

// The level of an open line that is ended now.
fn level_in(line: Open) -> Option<Level>
    ensures { result ≡ ordered_by_kept (kept_by line) }
{
    let Open::Two(b'l', digit) = line else {
        return None;
    };
    match digit {
        b'1' => Some(Level::Trace),
        b'2' => Some(Level::Debug),
        b'3' => Some(Level::Info),
        b'4' => Some(Level::Warn),
        b'5' => Some(Level::Error),
        _ => None,
    }
}

// An open line with one byte more.
fn longer(line: Open, byte: u8) -> Open
    ensures { kept_by result ≡ lengthened (kept_by line) byte }
{
    match line {
        Open::Empty => Open::One(byte),
        Open::One(first) => Open::Two(first, byte),
        Open::Two(_, _) | Open::Long => Open::Long,
    }
}
