//! What the types of values say of them.
ghost use Rattle.std.specs.Prelude.{◌<◌};
ghost use Rattle.std.specs.Char.{IsScalar};
ghost use Rattle.std.specs.List.{AllByRecursion};
ghost use Rattle.defmt_values.specs.Sound.{IsSound};
ghost use Rattle.defmt_values.specs.View.{plain};

use crate::value::Value;

fn is_scalar(c: char)
    ensures { IsScalar c }
{
    let _ = c;
}

fn are_bytes(bytes: &[u8])
    ensures { AllByRecursion (λ b. b < 256) bytes.now }
{
    let _ = bytes.len();
}

// What the type of a value says of it. The lists inside keep what their own values' types say.
pub(crate) fn value_is_sound(value: &Value)
    ensures { IsSound (plain value.now) }
{
    match value {
        Value::Char(c) => is_scalar(*c),
        Value::Str(text) => {
            let _ = text.as_str();
        }
        Value::Bytes(bytes) => are_bytes(bytes.as_slice()),
        Value::Format(node) => node.args.are_sound(),
        Value::Seq(seq) => seq.items.are_sound(),
        Value::Sequence(nodes) => nodes.are_sound(),
        _ => {}
    }
}
