//! The code of a whole message.
ghost use Rattle.std.specs.Prelude.{◌≡◌, ◌≤◌, [], length, take, drop};
ghost use Rattle.rzcobs_core.specs.Canon.{canon, bound_of};
ghost use Rattle.rzcobs_core.specs.Encoder.{Holds, GoesOn, SameBuffer, buffer_of};

use crate::encoder::Encoder;

/// Writes the code of a whole message, and answers how many bytes it has.
///
/// The buffer has at least as many bytes as `bound` gives for the message. What lies behind the
/// code is left as it was. Takes no memory.
pub fn encode(message: &[u8], out: &mut [u8]) -> usize
    requires { bound_of (length message.now) ≤ length out.old }
    ensures code { take result out.new ≡ canon message.now }
    ensures within { result ≤ length out.new }
    ensures bound { result ≤ bound_of (length message.now) }
    ensures behind { drop result out.new ≡ drop result out.old }
{
    let mut encoder = Encoder::new(out);
    put_all(&mut encoder, message);
    encoder.end()
}

// Puts the bytes to an encoder that has none.
fn put_all(encoder: &mut Encoder, message: &[u8])
    requires new { Holds encoder.old [] }
    requires room { bound_of (length message.now) ≤ length (buffer_of encoder.old) }
    ensures same_buffer { SameBuffer encoder.old encoder.new }
    ensures all { Holds encoder.new message.now }
    ensures length { length (buffer_of encoder.new) ≡ length (buffer_of encoder.old) }
    ensures behind { GoesOn encoder.old encoder.new }
{
    let mut at = 0usize;
    'some: while at < message.len() {
        at += encoder.put_some(&message[at..]);
    }
}
