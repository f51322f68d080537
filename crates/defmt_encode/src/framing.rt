//! Frames of messages.
ghost use Rattle.std.specs.Prelude.{◌≡◌, ◌≤◌, length, take, drop};
ghost use Rattle.defmt_encode.specs.Carry.{frame_of};

use rzcobs_core::encode;

/// Writes the frame of a message to the front of a buffer: a zero, the message's code, a zero
/// (defmt book, "Encoding", and rzCOBS). Answers how many bytes that is.
///
/// The message has at most 2,000 bytes, and the buffer at least 2,288. What lies behind the frame
/// is left as it was. Takes no memory.
#[inline(never)]
pub fn frame(message: &[u8], out: &mut [u8]) -> usize
    requires message { length message.now ≤ 2000 }
    requires room { 2288 ≤ length out.old }
    ensures frame { take result out.new ≡ frame_of message.now }
    ensures within { result ≤ 2288 }
    ensures behind { drop result out.new ≡ drop result out.old }
{
    out[0] = 0;
    let count = encode(message, &mut out[1..]);
    out[count + 1] = 0;
    count + 2
}
