//! One line for a terminal.
ghost use Rattle.std.specs.Prelude.{◌≡◌, ◌<◌, ◌≤◌, ◌+◌, ◌++◌, length, drop};
ghost use Rattle.rtt_terminal.specs.Stream.{switch, line_bytes, IsSayable};
ghost use Rattle.rtt_terminal.specs.Writing.{with_bytes};

use crate::digit::digit_of;

/// The byte that begins a switch.
pub const MARK: u8 = 0xff;

// Puts bytes at a place.
fn put(out: &mut [u8], at: usize, bytes: &[u8])
    requires { at + length bytes.now ≤ length out.old }
    ensures { out.new ≡ with_bytes out.old at bytes.now }
{
    out[at..at + bytes.len()].copy_from_slice(bytes);
}

// Puts the switch in front of a line, where there is one, and answers how many bytes it has.
fn put_switch(current: u8, terminal: u8, out: &mut [u8]) -> usize
    requires terminals { (current < 16) × (terminal < 16) }
    requires room { 2 ≤ length out.old }
    ensures bytes { out.new ≡ with_bytes out.old 0 (switch current terminal) }
    ensures count { result ≡ length (switch current terminal) }
{
    if current == terminal {
        return 0;
    }
    put(out, 0, &[MARK, digit_of(terminal)]);
    2
}

/// Writes a line for a terminal at the front of `out`, where the stream stands at the terminal `current`: a switch where the
/// two differ, then the text and a newline. Answers how many bytes these are, at most 2,003; what lies behind them stays.
/// Both terminals are below 16. The text has at most 2,000 bytes, none below `20` and none `7f`, and `out` has at least
/// 2,003. Takes no memory. SEGGER RTT, "Virtual terminals".
pub fn speak(current: u8, terminal: u8, text: &str, out: &mut [u8]) -> usize
    requires terminals { (current < 16) × (terminal < 16) }
    requires text { IsSayable text.now }
    requires room { 2003 ≤ length out.old }
    ensures line { let line = switch current terminal ++ line_bytes text.now in
        out.new ≡ line ++ drop (length line) out.old }
    ensures count { result ≡ length (switch current terminal ++ line_bytes text.now) }
    ensures short { result ≤ 2003 }
{
    let begin = put_switch(current, terminal, out);
    let end = begin + text.len();
    put(out, begin, text.as_bytes());
    put(out, end, b"\n");
    end + 1
}
