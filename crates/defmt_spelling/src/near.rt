//! Names with their indexes, each at a place that its first and its last byte tell: so most names are found without a hash.
ghost use Rattle.std.specs.Prelude.{◌≡◌, Some, IfSome};
ghost use Rattle.std.specs.FinMap as map;
ghost use Rattle.defmt_spelling.specs.Names.{NameMap, AreNear, IsNear};

// How many places there are.
const PLACES: u8 = 64;

/// A name and its index.
#[derive(Drop)]
pub struct Near {
    pub name: String,
    pub index: u16,
}

// The place of a name.
#[inline(always)]
fn place_of(name: &[u8]) -> usize {
    match name {
        [first, .., last] => usize::from((*first ^ last.wrapping_mul(4)) % PLACES),
        _ => 0,
    }
}

/// The index of a name that stands at its place.
#[inline(always)]
pub fn near_index(near: &[Option<Near>], name: &str) -> Option<u16>
    ensures { (names : NameMap) → AreNear names near.now
        → IfSome result (λ index. map.get names name.now ≡ Some index) }
{
    match near.get(place_of(name.as_bytes())) {
        Some(Some(there)) if there.name.as_str() == name => Some(there.index),
        _ => None,
    }
}

/// Keeps a name at its place, in place of the one that stands there. It isn't kept where there is no memory for the places.
pub fn keep_near(near: &mut Vec<Option<Near>>, one: Near)
    ensures { (names : NameMap) → IsNear names (Some one) → AreNear names near.old.items
        → AreNear names near.new.items }
{
    let place = place_of(one.name.as_bytes());
    'places: while near.len() <= place {
        match near.push(None) {
            Ok(()) => {}
            Err(_) => return,
        }
    }
    near[place] = Some(one);
}
