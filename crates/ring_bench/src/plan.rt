//! What the words ask for.
ghost use Rattle.std.specs.Prelude.{◌≡◌, ◌<◌, ◌≤◌, ℕ, Bool, IfSome, map, option_map, string_bytes};
ghost use Rattle.ring_bench.specs.Plan.{AsksFor, NumberOf, NumbersOf, PartsOf};

/// The longest frame.
pub const MOST: u32 = 2000;

/// How often to send how many frames through rings of which size.
#[derive(Drop)]
pub struct Plan {
    /// The size of the rings in bytes.
    pub size: u32,
    /// The bytes of a frame.
    pub frame: usize,
    /// How many frames go through a ring.
    pub count: u32,
    /// How often each ring is tried.
    pub rounds: u32,
    /// Whether times are told.
    pub timed: bool,
    ghost within: { (16 ≤ size) × (size ≤ 65536) × (0 < frame) × (frame ≤ 2000) },
}

// The number that a word says.
fn number(word: &str) -> Option<u32>
    ensures { NumberOf word.now result }
{
    match word.parse::<u32>() {
        Ok(number) => Some(number),
        Err(_) => None,
    }
}

// The numbers that four words say.
fn numbers(words: &[String]) -> Option<(u32, u32, u32, u32)>
    ensures { NumbersOf (map string_bytes words.now) result }
{
    let [size, frame, count, rounds] = words else {
        return None;
    };
    Some((
        number(size.as_str())?,
        number(frame.as_str())?,
        number(count.as_str())?,
        number(rounds.as_str())?,
    ))
}

// The words behind the program's name without `timed` at their end, and whether that stands there.
fn parted(words: &[String]) -> Option<(&[String], bool)>
    ensures { PartsOf (map string_bytes words.now) (option_map (λ p. (map string_bytes p.0.now, p.1)) result) }
{
    match words {
        [_, first @ .., last] if last.as_str() == "timed" => Some((first, true)),
        [_, first @ ..] => Some((first, false)),
        [] => None,
    }
}

// What the words SIZE FRAME COUNT ROUNDS ask for, and `timed` behind them where times are to be told. A size is from 16 to
// 65,536 bytes, a frame has 1 to 2,000. `None` comes exactly where they ask for nothing.
pub(crate) fn plan_of(words: &[String]) -> Option<Plan>
    ensures asked { IfSome result (λ plan. AsksFor (map string_bytes words.now) plan.size plan.frame plan.count plan.rounds plan.timed) }
    ensures none { (size frame count rounds : ℕ) (timed : Bool) → AsksFor (map string_bytes words.now) size frame count rounds timed → result ≡ None → ⊥ }
{
    let (first, timed) = parted(words)?;
    let (size, frame, count, rounds) = numbers(first)?;
    if size < 16 || size > 65536 || frame == 0 || frame > MOST {
        return None;
    }
    Some(Plan {
        size,
        frame: frame as usize,
        count,
        rounds,
        timed,
    })
}
