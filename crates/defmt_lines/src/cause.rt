//! Why a line of a script is refused.

ghost use Rattle.std.specs.Prelude.{◌≡◌};
ghost use Rattle.defmt_lines.specs.Cause.{cause_number, inner_number};

/// Why a line of a script is refused.
#[derive(Clone, Copy, Debug)]
pub enum Cause {
    /// 1: the line isn't UTF-8, has none of the forms, an unknown tag or an unknown language, or stands out of order or
    /// twice.
    Line,
    /// 2: the name of a string is spelled wrongly; the name of a statement isn't known, or it is no message's.
    Name,
    /// 3: the name of a string was there before.
    Double,
    /// 4: the arguments are refused; the number is that of their own cause.
    Args(u8),
    /// 5: the writer's number is above 7.
    Writer,
    /// 6: the ring's size isn't a decimal number from 16 to 65,536.
    Ring,
    /// 7: the word after `mode` or `reader` isn't one of theirs.
    Mode,
    /// 8: the reader is late in blocking mode.
    Late,
    /// 9: the message has more than 2,000 bytes.
    Long,
    /// 10: the text is refused; the number is that of the grammar of format strings, or 0 where the text has more than
    /// 4,096 bytes or more than 255 variants.
    Text(u8),
    /// 11: the 65,535th string, the 4,097th statement, the 4,097th text for a terminal or the 65th order.
    Many,
    /// 12: the text of the line has more than 65,536 bytes.
    Wide,
    /// 13: a number of the stamp isn't a decimal number up to 281,474,976,710,656.
    Stamp,
    /// 15: the word after `profile` is neither 1 nor 2.
    Profile,
    /// 16: the word behind the writer is no terminal's digit.
    Terminal,
    /// 17: the text for a terminal has more than 2,000 bytes, or one below `20` or equal to `7f`.
    Words,
    /// 19: the number of an order isn't a decimal number up to 4,096, or its level isn't one of the five words.
    Level,
}

impl Cause {
    /// The number of the cause.
    pub fn number(self) -> u8
        ensures { result ≡ cause_number self }
    {
        match self {
            Cause::Line => 1,
            Cause::Name => 2,
            Cause::Double => 3,
            Cause::Args(_) => 4,
            Cause::Writer => 5,
            Cause::Ring => 6,
            Cause::Mode => 7,
            Cause::Late => 8,
            Cause::Long => 9,
            Cause::Text(_) => 10,
            Cause::Many => 11,
            Cause::Wide => 12,
            Cause::Stamp => 13,
            Cause::Profile => 15,
            Cause::Terminal => 16,
            Cause::Words => 17,
            Cause::Level => 19,
        }
    }

    /// The number of the arguments' or the text's own cause, or 0.
    pub fn inner(self) -> u8
        ensures { result ≡ inner_number self }
    {
        match self {
            Cause::Args(inner) | Cause::Text(inner) => inner,
            _ => 0,
        }
    }
}
