//! The orders of a script.
ghost use Rattle.std.specs.Prelude.{◌≡◌, ◌<◌, ◌≤◌, ◌++◌, ◌∷◌, [], length, slice_get};

use defmt_hooks::Level;
use std::marker::Model;

/// Orders of levels, at most 64: each has the number of frames after which it is sent, and its level. Seen as the list of these
/// pairs.
#[derive(Drop)]
pub struct Orders {
    orders: [(u32, Level); 64],
    len: usize,
}

impl Model for Orders {
    ghost use Rattle.std.specs.Prelude.{◌≡◌, ◌≤◌, ℕ, List, length, take};
    ghost use Rattle.defmt_hooks.specs.declared.level.Level.{Level as AnyLevel};
    ghost use Rattle.defmt_lines.specs.Orders.{coded_orders};

    ghost Value = { List (ℕ × AnyLevel) };

    ghost coded = { coded_orders };

    ghost view = { λ o. take o.len o.orders };

    ghost invariant = { λ o. (o.len ≤ 64) × (length o.orders ≡ 64) };
}

impl Orders {
    /// No orders. Takes no memory.
    pub fn new() -> Orders
        ensures { result ≡ [] }
    {
        Orders {
            orders: [(0, Level::Trace); 64],
            len: 0,
        }
    }

    /// How many there are, at most 64. Takes no memory.
    pub fn len(&self) -> usize
        ensures count { result ≡ length self.now }
        ensures few { result ≤ 64 }
    {
        self.len
    }

    /// The orders. Takes no memory.
    pub fn as_slice(&self) -> &[(u32, Level)]
        ensures { result.now ≡ self.now }
    {
        &self.orders[..self.len]
    }

    /// The order with this number, from 0; `None` exactly past the last. Takes no memory.
    pub fn get(&self, number: u32) -> Option<(u32, Level)>
        ensures { result ≡ slice_get self.now number }
    {
        match self.as_slice().get(number as usize) {
            Some(order) => Some(*order),
            None => None,
        }
    }

    // The same with one more behind them. Takes no memory.
    pub(crate) fn with_order(&self, number: u32, level: Level) -> Orders
        requires room { length self.now < 64 }
        ensures { result ≡ self.now ++ (number, level) ∷ [] }
    {
        let at = self.len();
        let mut orders = self.orders;
        orders[at] = (number, level);
        Orders {
            orders,
            len: at + 1,
        }
    }

    // The same. Takes no memory.
    pub(crate) fn copy(&self) -> Orders
        ensures { result ≡ self.now }
    {
        Orders {
            orders: self.orders,
            len: self.len,
        }
    }
}
