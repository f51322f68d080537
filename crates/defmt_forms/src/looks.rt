//! Texts that are looked through sixteen bytes at once.
ghost use Rattle.std.specs.Prelude.{◌≡◌, ℕ, true, nat_le, take, drop};
ghost use Rattle.std.specs.List.{list_all};
ghost use Rattle.defmt_forms.specs.Tamed.{is_bare, is_other, is_printable, is_quiet};
ghost use Rattle.defmt_forms.specs.Terminal.{tame};
ghost use Rattle.json.specs.Print.{escape};

/// Whether each front of a text and what stands behind one is the same in JSON. It is so where no byte needs an escape.
pub fn is_bare_text(text: &[u8]) -> bool
    ensures front { result ≡ true → (count : ℕ) → escape (take count text.now) ≡ take count text.now }
    ensures rest { result ≡ true → (count : ℕ) → escape (drop count text.now) ≡ drop count text.now }
{
    are_bare(text)
}

// Whether no byte needs an escape. The last sixteen bytes are looked at first, and then all blocks of sixteen from the front on.
#[inline(always)]
pub(crate) fn are_bare(text: &[u8]) -> bool
    ensures { result ≡ true → list_all is_bare text.now ≡ true }
{
    let Some((_, last)) = text.split_last_chunk::<16>() else {
        return is_each_bare(text);
    };
    if !is_block_bare(last) {
        return false;
    }
    let mut rest = text;
    'blocks: while let Some((block, behind)) = rest.split_first_chunk::<16>() {
        if !is_block_bare(block) {
            return false;
        }
        rest = behind;
    }
    true
}

#[inline(always)]
fn is_block_bare(block: &[u8; 16]) -> bool
    ensures { result ≡ true → list_all is_bare block.now ≡ true }
{
    if !has_no_controls(block) {
        return false;
    }
    let unquoted = has_none(block, b'"');
    if !unquoted {
        return false;
    }
    has_none(block, b'\\')
}

#[inline(always)]
fn has_no_controls(block: &[u8; 16]) -> bool
    ensures { result ≡ list_all (nat_le 32) block.now }
{
    let mut high = true;
    for byte in block {
        high &= *byte >= 0x20;
    }
    high
}

#[inline(always)]
fn has_none(block: &[u8; 16], one: u8) -> bool
    ensures { result ≡ list_all (is_other one) block.now }
{
    let mut other = true;
    for byte in block {
        other &= !(*byte == one);
    }
    other
}

// The same of fewer bytes than a block has.
fn is_each_bare(text: &[u8]) -> bool
    ensures { result ≡ list_all is_bare text.now }
{
    let mut bare = true;
    for byte in text {
        bare &= is_bare(*byte);
    }
    bare
}

// Whether a byte needs no escape in JSON.
#[inline(always)]
pub(crate) fn is_bare(byte: u8) -> bool
    ensures { result ≡ is_bare byte }
{
    !(byte < 0x20) && (!(byte == b'"') && !(byte == b'\\'))
}

/// Whether each front of a text and what stands behind one is the same for a terminal. It is so where no byte is a control character of
/// ASCII or begins one above.
pub fn is_quiet_text(text: &[u8]) -> bool
    ensures front { result ≡ true → (count : ℕ) → tame (take count text.now) ≡ take count text.now }
    ensures rest { result ≡ true → (count : ℕ) → tame (drop count text.now) ≡ drop count text.now }
{
    are_quiet(text)
}

// Whether each byte is quiet. A text without any beyond ASCII is looked at faster.
#[inline(always)]
fn are_quiet(text: &[u8]) -> bool
    ensures { result ≡ true → list_all is_quiet text.now ≡ true }
{
    if are_printable(text) {
        return true;
    }
    is_each_quiet(text)
}

/// Whether each byte is a character of ASCII and no control character, of a text of at least sixteen. So each is quiet.
#[inline(always)]
pub(crate) fn are_printable(text: &[u8]) -> bool
    ensures { result ≡ true → list_all is_quiet text.now ≡ true }
{
    let Some((_, last)) = text.split_last_chunk::<16>() else {
        return false;
    };
    let Some((first, behind)) = text.split_first_chunk::<16>() else {
        return false;
    };
    if !are_both_printable(first, last) {
        return false;
    }
    let mut rest = behind;
    'blocks: while rest.len() > 16 {
        let Some((block, behind)) = rest.split_first_chunk::<16>() else {
            return false;
        };
        if !are_both_printable(block, block) {
            return false;
        }
        rest = behind;
    }
    true
}

#[inline(always)]
fn are_both_printable(first: &[u8; 16], second: &[u8; 16]) -> bool
    ensures first { result ≡ true → list_all is_printable first.now ≡ true }
    ensures second { result ≡ true → list_all is_printable second.now ≡ true }
{
    let mut printable = true;
    for i in 0..16 {
        printable &= is_printable(first[i]) & is_printable(second[i]);
    }
    printable
}

#[inline(always)]
fn is_printable(byte: u8) -> bool
    ensures { result ≡ is_printable byte }
{
    byte >= 0x20 && byte < 0x7f
}

#[inline(never)]
pub(crate) fn is_each_quiet(text: &[u8]) -> bool
    ensures { result ≡ list_all is_quiet text.now }
{
    let mut quiet = true;
    for byte in text {
        quiet &= is_quiet(*byte);
    }
    quiet
}

#[inline(always)]
fn is_quiet(byte: u8) -> bool
    ensures { result ≡ is_quiet byte }
{
    !(byte < 0x20) && (!(byte == 0x7f) && !(byte == 0xc2))
}
