//! The table of a word ring, and the kinds of step on it. Word 0 is WrOff, word 1 is RdOff, and word i + 2 has the eight
//! bytes from the place 8 * i on, the first in its lowest bits.
use crate::view::View;
use atomic_table::{Join, Play, Seat, Split, Table, TableRule};
use std::alloc::Global;
use std::marker::{Brand, PhantomData};

// The rule of the table: what holds between any two steps.
pub(crate) struct RingRule;

impl<S> TableRule<S, View, u32> for RingRule {
    ghost use Rattle.rtt_words.specs.WordRule.{Kept, fresh};

    ghost holds = { Kept };

    ghost first = { fresh };
}

// The upper end loads RdOff.
pub(crate) struct LoadsRdOff;

impl<S> Play<S, View> for LoadsRdOff {
    ghost use Rattle.rtt_words.specs.WordRule.{loads_rd_off};

    ghost then = { loads_rd_off };
}

// The upper end loads a data word.
pub(crate) struct LoadsWord;

impl<S> Play<S, View> for LoadsWord {
    ghost use Rattle.rtt_words.specs.WordRule.{loads_word};

    ghost then = { loads_word };
}

// Names the bytes that a step puts.
pub(crate) trait Stretch {
    ghost use Rattle.std.specs.Prelude.{ℕ, List};

    ghost bytes: { List ℕ };
}

impl Stretch for Brand {
    ghost use Rattle.std.specs.Prelude.{[]};

    ghost bytes = { [] };
}

// The upper end stores a data word, with these bytes.
pub(crate) struct StoresBytes<C: Stretch> {
    bytes: PhantomData<C>,
}

impl<S, C: Stretch> Play<S, View> for StoresBytes<C> {
    ghost use Rattle.rtt_words.specs.WordRule.{stores_bytes};

    ghost then = { stores_bytes C.bytes };
}

// The upper end stores WrOff.
pub(crate) struct StoresWrOff;

impl<S> Play<S, View> for StoresWrOff {
    ghost use Rattle.rtt_words.specs.WordRule.{stores_wr_off};

    ghost then = { stores_wr_off };
}

// The lower end loads WrOff.
pub(crate) struct LoadsWrOff;

impl<S> Play<S, View> for LoadsWrOff {
    ghost use Rattle.rtt_words.specs.WordRule.{loads_wr_off};

    ghost then = { loads_wr_off };
}

// Names how many bytes a step takes.
pub(crate) trait Count {
    ghost use Rattle.std.specs.Prelude.{ℕ};

    ghost count: { ℕ };
}

impl Count for Brand {
    ghost count = { 0 };
}

// The lower end loads a data word, for so many bytes.
pub(crate) struct LoadsBytes<C: Count> {
    count: PhantomData<C>,
}

impl<S, C: Count> Play<S, View> for LoadsBytes<C> {
    ghost use Rattle.rtt_words.specs.WordRule.{loads_bytes};

    ghost then = { loads_bytes C.count };
}

// The lower end stores RdOff.
pub(crate) struct StoresRdOff;

impl<S> Play<S, View> for StoresRdOff {
    ghost use Rattle.rtt_words.specs.WordRule.{stores_rd_off};

    ghost then = { stores_rd_off };
}

// The joined seat loads a data word.
pub(crate) struct LoadsRest;

impl<S> Play<S, View> for LoadsRest {
    ghost use Rattle.rtt_words.specs.WordRule.{loads_rest};

    ghost then = { loads_rest };
}

// Parts the two ends, and joins them.
pub(crate) struct Ends;

impl Split<View> for Ends {
    ghost use Rattle.rtt_words.specs.WordRule.{up_part, down_part};

    ghost left = { up_part };

    ghost right = { down_part };
}

impl Join<View> for Ends {
    ghost use Rattle.rtt_words.specs.WordRule.{both};
    ghost use Rattle.rtt_words.specs.declared.view.View.TheVariants.{Spent};

    ghost both = { both };

    ghost spent = { Spent };
}

// The table of a ring. Its key is the ring's size.
pub(crate) type RingTable = Table<(), View, u32, RingRule, Global>;

// What an end steps with.
pub(crate) type RingSeat = Seat<(), View>;
