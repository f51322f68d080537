//! Orders as bytes.
ghost use Rattle.std.specs.Prelude.{◌≡◌, ℕ, List, [], ◌∷◌, ◌++◌};
ghost use Rattle.defmt_hooks.specs.declared.level.Level.{Level as AnyLevel};
ghost use Rattle.rtt_down.specs.Orders.{digit_of, ended_lines, have_no_newline, open_line, order_of, orders, orders_joined, whole_lines};

use defmt_hooks::Level;

/// The bytes of an order: `l`, a digit from `1` for Trace to `5` for Error, and a newline. Takes no memory.
pub fn order_bytes(level: Level) -> [u8; 3]
    ensures { result ≡ order_of level }
{
    [b'l', digit_of(level), b'\n']
}

fn digit_of(level: Level) -> u8
    ensures { result ≡ digit_of level }
{
    match level {
        Level::Trace => b'1',
        Level::Debug => b'2',
        Level::Info => b'3',
        Level::Warn => b'4',
        Level::Error => b'5',
    }
}

/// The bytes of orders, joined, order just these levels.
pub fn orders_read_back()
    ensures { (levels : List AnyLevel) → orders (orders_joined levels) ≡ levels }
{}

/// Bytes are their whole lines, each ended by a newline, and then an open line. No line has a newline. The orders of joined
/// bytes are those of the first, and then those of the open line of the first and the second.
pub fn orders_by_parts()
    ensures lines { (bytes : List ℕ) → bytes ≡ ended_lines (whole_lines bytes) ++ open_line bytes }
    ensures newlines { (bytes : List ℕ)
        → have_no_newline (whole_lines bytes ++ open_line bytes ∷ []) }
    ensures orders { (xs ys : List ℕ)
        → orders (xs ++ ys) ≡ orders xs ++ orders (open_line xs ++ ys) }
{}
