//! The lines of orders.
ghost use Rattle.std.specs.Prelude.{◌≡◌, ◌++◌, IfOk, OnOk};
ghost use Rattle.defmt_print.specs.OrderLines.{order_lines, order_text};
ghost use Rattle.defmt_recording.specs.Output.{ended};

use defmt_hooks::Level;
use defmt_recording::add_count;
use defmt_script::Script;
use dl_io::{Bytes, Memory};
use rtt_down::Turns;
use std::alloc::Global;

/// These lines, and then one for each order of a script, which tells from which of these turns on it was heard, or that none heard
/// it.
pub fn with_orders(
    alloc: Global,
    lines: Bytes,
    script: &Script,
    turns: &Turns,
) -> Result<Bytes, Memory>
    ensures { IfOk result (λ out. out.items ≡ lines.items
        ++ order_lines script.now.settings.orders turns.now.turns) }
{
    script.lawful();
    let mut out = lines;
    let mut number = 0;
    while let Some((_, level)) = script.order(number) {
        add_order(alloc, level, turns.heard_at(number), &mut out)?;
        number += 1;
    }
    Ok(out)
}

// Appends the line of an order of this level, which the turn with this number heard first, or none.
fn add_order(
    alloc: Global,
    level: Level,
    turn: Option<usize>,
    out: &mut Bytes,
) -> Result<(), Memory>
    ensures { OnOk result (out.new.items ≡ out.old.items ++ ended (order_text level turn)) }
{
    out.extend_from_slice(b"-- level ")?;
    out.extend_from_slice(level.word().as_bytes())?;
    match turn {
        Some(turn) => add_count(alloc, b" from turn ", turn as u64, out)?,
        None => out.extend_from_slice(b" unheard")?,
    }
    out.push(b'\n')
}
