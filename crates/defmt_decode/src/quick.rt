//! The line of a message that is heard, written into a buffer.

ghost use Rattle.std.specs.Prelude.{◌≡◌, IfSome};
ghost use Rattle.defmt_eager.specs.Answers.{PutsParted};
ghost use Rattle.defmt_encode.specs.Carry.{stamp_args};
ghost use Rattle.defmt_values.specs.Plain.{uint};
ghost use Rattle.defmt_values.specs.View.{plain};

use defmt_eager::{Front, put_parted_line};
use defmt_encode::Heard;
use defmt_intern::Table;
use defmt_values::{Args, Value};

// An unsigned number of up to 64 bits.
fn small_number(value: &Value) -> Option<u64>
    ensures { IfSome result (λ number. plain value.now ≡ uint number) }
{
    match value {
        Value::Uint(number) => {
            if *number > u128::from(u64::MAX) {
                return None;
            }
            Some(*number as u64)
        }
        _ => None,
    }
}

// The arguments of a stamp as one number or none, where they are that.
fn lone_stamp(stamp: &Args) -> Option<Option<u64>>
    ensures { IfSome result (λ number. stamp.now ≡ stamp_args number) }
{
    match stamp.as_slice() {
        [] => Some(None),
        [value] => Some(Some(small_number(value)?)),
        _ => None,
    }
}

// Writes the line of a message that is heard to the front of a buffer, where its stamp is one number or none, neither text is too
// wide, and there is room. `None` says nothing of the message.
pub(crate) fn put_heard(table: &Table, heard: &Heard, out: &mut [u8]) -> Option<(Front, usize)>
    ensures { IfSome result (λ told. PutsParted (Some told) table.now.entries heard.now.stamp
        heard.now.stm.index heard.now.stm.args out.old 0 out.new) }
{
    let stamp = lone_stamp(&heard.stamp)?;
    put_parted_line(table, stamp, &heard.stm, out, 0)
}
