//! What stands behind the last argument of a message.
ghost use Rattle.std.specs.Prelude.{◌≡◌, ◌≤◌, ◌<◌, length, sum};
ghost use Rattle.defmt_encode.specs.Read.{is_padding};

// A byte as a part of a sum.
fn part(byte: &u8) -> u32
    ensures value { result ≡ byte.now }
    ensures small { result ≤ 255 }
{
    u32::from(*byte)
}

// The sum of at most six bytes. Where they are more it is 1.
#[inline(always)]
fn few_sum(bytes: &[u8]) -> u32
    ensures few { length bytes.now ≤ 6 → result ≡ sum bytes.now }
    ensures many { 6 < length bytes.now → result ≡ 1 }
{
    match bytes {
        [] => 0,
        [a] => part(a),
        [a, b] => part(a) + part(b),
        [a, b, c] => part(a) + part(b) + part(c),
        [a, b, c, d] => part(a) + part(b) + part(c) + part(d),
        [a, b, c, d, e] => part(a) + part(b) + part(c) + part(d) + part(e),
        [a, b, c, d, e, f] => part(a) + part(b) + part(c) + part(d) + part(e) + part(f),
        _ => 1,
    }
}

/// Whether bytes are at most six zeros, by their sum: what the last block of a code may add to a message. Takes no memory.
#[inline(always)]
pub fn is_padding(bytes: &[u8]) -> bool
    ensures { result ≡ is_padding bytes.now }
{
    few_sum(bytes) == 0
}
