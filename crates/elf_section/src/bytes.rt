//! Texts in bytes.

ghost use Rattle.std.specs.Prelude.{◌≡◌};
ghost use Rattle.elf_section.specs.Bytes.{gap, IsBehind, IsUnquoted};

use memchr::memchr;

/// How many bytes stand before the first zero, or before the end.
pub fn gap(bytes: &[u8]) -> usize
    ensures { result ≡ gap bytes.now }
{
    match memchr(0, bytes) {
        Some(at) => at,
        None => bytes.len(),
    }
}

/// What stands behind a front, where the text begins with it.
pub fn behind<'a>(text: &'a [u8], front: &[u8]) -> Option<&'a [u8]>
    ensures { IsBehind text.now front.now result }
{
    text.strip_prefix(front)
}

/// The name without the double quotes that it stands in.
pub fn unquoted(name: &[u8]) -> &[u8]
    ensures { IsUnquoted name.now result.now }
{
    match name {
        [b'"', inner @ .., b'"'] => inner,
        _ => name,
    }
}
