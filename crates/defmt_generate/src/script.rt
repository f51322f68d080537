//! The text of a generated script.
ghost use Rattle.std.specs.Prelude.{◌≡◌, ◌≤◌, IfOk};
ghost use Rattle.defmt_generate.specs.Generated.{generated};

use crate::statement::push_statement;
use dl_io::{Bytes, Memory};
use std::alloc::Global;

const HEAD: &str = "ring 1024
mode block
reader live
stamp 1000 250
s boot defmt_info boot {=u8}
s temp defmt_debug temp {=i16} of {=[u8]:02x}
s link defmt_warn link {=bool} {=str:?}
s fail defmt_error fail {=u32:#010x}
s tick defmt_trace tick {=u64}
";

/// The text of a script with `n` statements, `1 <= n <= 4096`.
///
/// Nine lines set the script up: the ring, the mode, the reader, the stamp and five strings. Then each statement has a line, which
/// ends with a newline as every line does. Statement `i`, from 0, is of writer `i mod 4` and of string `i mod 5`. Its arguments come
/// from `x = (i * 1103515245 + 12345) mod 2^32`: `x mod 256` for `boot`; `(x mod 2001) - 1000` and the lowest three bytes of `x` for
/// `temp`; whether `x` is even and `"port"` with `x mod 10` for `link`; `x` for `fail` and `tick`. The one error is want of memory.
pub fn generate(alloc: Global, n: u32) -> Result<Bytes, Memory>
    requires some { 1 ≤ n }
    requires most { n ≤ 4096 }
    ensures { IfOk result (λ text. text.items ≡ generated n) }
{
    let mut text = String::from_str(alloc, HEAD)?;
    for i in 0..n {
        push_statement(&mut text, i)?;
    }
    Ok(Bytes::from_vec(text.into_bytes()))
}
