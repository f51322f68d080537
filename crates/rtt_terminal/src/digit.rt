//! The digits of terminals.
ghost use Rattle.std.specs.Prelude.{◌≡◌, ◌<◌, IfSome};
ghost use Rattle.rtt_terminal.specs.Stream.{digit};
ghost use Rattle.rtt_terminal.specs.Reading.{terminal_named, terminal_of};

/// The digit of a terminal: `0` to `9`, then `A` to `F`.
pub fn digit_of(terminal: u8) -> u8
    requires { terminal < 16 }
    ensures { result ≡ digit terminal }
{
    if terminal < 10 {
        b'0' + terminal
    } else {
        b'A' + (terminal - 10)
    }
}

/// The terminal of a digit, `None` where the byte is the digit of none.
pub fn terminal_of(byte: u8) -> Option<u8>
    ensures { result ≡ terminal_of byte }
{
    match byte {
        b'0'..=b'9' => Some(byte - b'0'),
        b'A'..=b'F' => Some(byte - b'A' + 10),
        _ => None,
    }
}

fn named(text: &str) -> Option<u8>
    ensures { result ≡ terminal_named text.now }
{
    match text.as_bytes() {
        [digit] => terminal_of(*digit),
        _ => None,
    }
}

/// The terminal that a text names by its one digit, `None` where it names none. Takes no memory.
pub fn terminal_named(text: &str) -> Option<u8>
    ensures value { result ≡ terminal_named text.now }
    ensures one { IfSome result (λ terminal. terminal < 16) }
{
    named(text)
}
