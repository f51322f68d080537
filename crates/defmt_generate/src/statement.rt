//! One statement of the generated script.
ghost use Rattle.std.specs.Prelude.{◌≡◌, ◌++◌, OnOk, string_bytes};
ghost use Rattle.defmt_generate.specs.Generated.{boot, temp, link, fail, tick, call, drawn, less_thousand, hex, statement};

use dl_io::Memory;

#[tactic(auto, unfolding(crate::specs::Generated::boot))]
fn push_boot(text: &mut String, x: u32) -> Result<(), Memory>
    ensures { OnOk result (string_bytes text.new ≡ string_bytes text.old ++ boot x) }
{
    write!(text, "boot {}", x % 256)?;
    Ok(())
}

// Appends the number less 1,000.
fn push_less_thousand(text: &mut String, number: u32) -> Result<(), Memory>
    ensures { OnOk result (string_bytes text.new ≡ string_bytes text.old ++ less_thousand number) }
{
    if number < 1000 {
        write!(text, "-{}", 1000 - number)?;
    } else {
        write!(text, "{}", number - 1000)?;
    }
    Ok(())
}

// Appends the byte in two hexadecimal digits.
#[tactic(auto, using(std::proofs::lemmas::Fmt::hex_byte))]
fn push_hex(text: &mut String, byte: u8) -> Result<(), Memory>
    ensures { OnOk result (string_bytes text.new ≡ string_bytes text.old ++ hex byte) }
{
    write!(text, "{byte:02x}")?;
    Ok(())
}

#[tactic(auto, unfolding(crate::specs::Generated::temp))]
fn push_temp(text: &mut String, x: u32) -> Result<(), Memory>
    ensures { OnOk result (string_bytes text.new ≡ string_bytes text.old ++ temp x) }
{
    text.push_str("temp ")?;
    push_less_thousand(text, x % 2001)?;
    text.push_str(" #")?;
    push_hex(text, (x % 256) as u8)?;
    push_hex(text, (x / 256 % 256) as u8)?;
    push_hex(text, (x / 65536 % 256) as u8)
}

#[tactic(auto, unfolding(crate::specs::Generated::link))]
fn push_link(text: &mut String, x: u32) -> Result<(), Memory>
    ensures { OnOk result (string_bytes text.new ≡ string_bytes text.old ++ link x) }
{
    let even = if x % 2 == 0 { "true" } else { "false" };
    write!(text, "link {even} \"port{}\"", x % 10)?;
    Ok(())
}

#[tactic(auto, unfolding(crate::specs::Generated::fail))]
fn push_fail(text: &mut String, x: u32) -> Result<(), Memory>
    ensures { OnOk result (string_bytes text.new ≡ string_bytes text.old ++ fail x) }
{
    write!(text, "fail {x}")?;
    Ok(())
}

#[tactic(auto, unfolding(crate::specs::Generated::tick))]
fn push_tick(text: &mut String, x: u32) -> Result<(), Memory>
    ensures { OnOk result (string_bytes text.new ≡ string_bytes text.old ++ tick x) }
{
    write!(text, "tick {x}")?;
    Ok(())
}

#[tactic(auto, unfolding(crate::specs::Generated::call))]
fn push_call(text: &mut String, turn: u32, x: u32) -> Result<(), Memory>
    ensures { OnOk result (string_bytes text.new ≡ string_bytes text.old ++ call turn x) }
{
    match turn {
        0 => push_boot(text, x),
        1 => push_temp(text, x),
        2 => push_link(text, x),
        3 => push_fail(text, x),
        _ => push_tick(text, x),
    }
}

// The number that statement `i` draws its arguments from.
fn drawn(i: u32) -> u32
    ensures { result ≡ drawn i }
{
    let number = u64::from(i) * 1_103_515_245 + 12_345;
    (number % 4_294_967_296) as u32
}

/// Appends statement `i` as a line.
#[tactic(auto, unfolding(crate::specs::Generated::statement))]
pub fn push_statement(text: &mut String, i: u32) -> Result<(), Memory>
    ensures { OnOk result (string_bytes text.new ≡ string_bytes text.old ++ statement i) }
{
    write!(text, "w {} ", i % 4)?;
    push_call(text, i % 5, drawn(i))?;
    text.push_str("\n")?;
    Ok(())
}
