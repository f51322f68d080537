//! How many bytes values have in a message at most.
ghost use Rattle.std.specs.Prelude.{◌≤◌};
ghost use Rattle.defmt_encode.specs.Out.{HasAtMost, HaveAtMost, EachHasAtMost, EachNodeHasAtMost};
ghost use Rattle.defmt_values.specs.View.{plain};

use crate::put::MESSAGE_LIMIT;
use defmt_values::{Args, Items, Nodes, Value, cut};

// The most bytes that a value has in a message, whatever its slot: more than a whole message may have where the slot
// alone tells.
#[cycle(most)]
fn most_bytes(value: &Value) -> usize
    ensures { result ≤ 2000 → HasAtMost (plain value.now) result }
{
    match value {
        Value::Bool(_) => 1,
        Value::Istr(_) => 2,
        Value::Char(_) => 4,
        Value::Uint(_) => 16,
        Value::Int(_) => 16,
        Value::Str(text) => text.len().saturating_add(4),
        Value::Bytes(bytes) => bytes.len().saturating_add(4),
        Value::Bits(_) => MESSAGE_LIMIT + 1,
        Value::Format(node) => most_inside(&node.args).saturating_add(3),
        Value::Seq(seq) => most_of_each(&seq.items).saturating_add(6),
        Value::Float(_) => 8,
        Value::Sequence(nodes) => most_of_nodes(nodes).saturating_add(2),
    }
}

// The same of values one after another.
#[cycle(most)]
#[inline(always)]
pub(crate) fn most_of(args: &Args) -> usize
    ensures { result ≤ 2000 → HaveAtMost args.now result }
{
    let mut values = args.as_slice();
    let mut most = 0usize;
    'each: while let Some((value, more)) = cut(values) {
        most = most.saturating_add(most_bytes(value));
        values = more;
    }
    most
}

// The same of values inside a value. Few statements have such ones, so they are counted by a call.
#[cycle(most)]
#[inline(never)]
fn most_inside(args: &Args) -> usize
    ensures { result ≤ 2000 → HaveAtMost args.now result }
{
    most_of(args)
}

// The same of the elements of a list.
#[cycle(most)]
#[inline(never)]
fn most_of_each(items: &Items) -> usize
    ensures { result ≤ 2000 → EachHasAtMost items.now result }
{
    let mut rest = items.as_slice();
    let mut most = 0usize;
    'each: while let Some((item, more)) = cut(rest) {
        let one = most_inside(&item.args).saturating_add(1);
        most = most.saturating_add(one);
        rest = more;
    }
    most
}

// The same of the elements of a sequence.
#[cycle(most)]
#[inline(never)]
fn most_of_nodes(nodes: &Nodes) -> usize
    ensures { result ≤ 2000 → EachNodeHasAtMost nodes.now result }
{
    let mut rest = nodes.as_slice();
    let mut most = 0usize;
    'each: while let Some((node, more)) = cut(rest) {
        let one = most_inside(&node.args).saturating_add(3);
        most = most.saturating_add(one);
        rest = more;
    }
    most
}
