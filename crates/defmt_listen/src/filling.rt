//! A buffer is filled from a source.

ghost use Rattle.std.specs.Prelude.{◌≡◌, ◌≤◌, ◌<◌, ◌+◌, ◌++◌, length, take, IfOk, OnErr};
ghost use Rattle.std.specs.Io.KnownBytes.{Consumes, IsAtEnd, Keeps};
ghost use Rattle.dl_io.specs.Outside.{Rose, Took};

use crate::crew::{Behind, Portion};
use dl_io::{Failed, Source};

/// Reads on until the buffer is full, the source is at its end, or a read fails.
pub fn fill<S: Source>(src: &mut S, buf: &mut [u8]) -> Portion
    requires { 0 < length buf.old }
    ensures within { result.count ≤ length buf.new }
    ensures bytes { Consumes (S.left src.old) (S.left src.new) (take result.count buf.new) }
    ensures more { result.behind ≡ Behind.More → 0 < result.count }
    ensures end { result.behind ≡ Behind.End → IsAtEnd (S.left src.new) }
    ensures fault { result.behind ≡ Behind.Fault → Rose (S.faults src.old) (S.faults src.new) }
    ensures later { S.faults src.old ≤ S.faults src.new }
{
    let mut count = 0usize;
    'reads: while count < buf.len() {
        match read_behind(src, buf, count) {
            Ok(0) => {
                return Portion {
                    count,
                    behind: Behind::End,
                };
            }
            Ok(more) => count += more,
            Err(Failed) => {
                return Portion {
                    count,
                    behind: Behind::Fault,
                };
            }
        }
    }
    Portion {
        count,
        behind: Behind::More,
    }
}

// One read, behind what is filled.
fn read_behind<S: Source>(src: &mut S, buf: &mut [u8], filled: usize) -> Result<usize, Failed>
    requires { filled < length buf.old }
    ensures within { IfOk result (λ count. filled + count ≤ length buf.new) }
    ensures bytes { IfOk result (λ count. Took (S.left src.old) (S.left src.new)
        (λ taken. take (filled + count) buf.new ≡ take filled buf.old ++ taken)) }
    ensures end { IfOk result (λ count. count ≡ 0 → IsAtEnd (S.left src.new)) }
    ensures failed { OnErr result (Rose (S.faults src.old) (S.faults src.new)) }
    ensures left { OnErr result (Keeps (S.left src.old) (S.left src.new)) }
    ensures front { take filled buf.new ≡ take filled buf.old }
    ensures later { S.faults src.old ≤ S.faults src.new }
{
    src.read(&mut buf[filled..])
}
