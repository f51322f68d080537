//! Numbers as limbs of 64 bits, the lowest first.

ghost use Rattle.std.specs.Prelude.{◌≡◌, ◌+◌, ◌*◌, ◌^◌, ◌<◌, ◌≤◌, ◌↔◌, IsTrue, length};
ghost use Rattle.core.specs.Dec2flt.Limbs.{value_below, limb_weight};

const LOW_WORD: u128 = 0xffff_ffff_ffff_ffff;

// Multiplies and adds, and returns the carry.
fn multiply_add_with_carry(limbs: &mut [u64], by: u64, add: u64) -> u64
    ensures { value_below limbs.new (length limbs.new) + result * limb_weight (length limbs.new)
        ≡ value_below limbs.old (length limbs.old) * by + add }
{
    let mut carry = add;
    for i in 0..limbs.len() {
        let wide = limbs[i] as u128 * by as u128 + carry as u128;
        limbs[i] = (wide & LOW_WORD) as u64;
        carry = (wide >> 64) as u64;
    }
    carry
}

// Multiplies and adds, where the result has room.
pub(crate) fn multiply_add(limbs: &mut [u64], by: u64, add: u64)
    requires { value_below limbs.old (length limbs.old) * by + add
        < limb_weight (length limbs.old) }
    ensures { value_below limbs.new (length limbs.new)
        ≡ value_below limbs.old (length limbs.old) * by + add }
{
    let _carry = multiply_add_with_carry(limbs, by, add);
}

// Makes the number 0.
fn clear(limbs: &mut [u64])
    ensures { value_below limbs.new (length limbs.new) ≡ 0 }
{
    for i in 0..limbs.len() {
        limbs[i] = 0;
    }
}

// Makes the number this one.
pub(crate) fn set_to(limbs: &mut [u64], n: u64)
    requires { n < limb_weight (length limbs.old) }
    ensures { value_below limbs.new (length limbs.new) ≡ n }
{
    clear(limbs);
    multiply_add(limbs, 1, n);
}

// Multiplies by a power of two, where the result has room.
pub(crate) fn times_two_to(limbs: &mut [u64], n: u64)
    requires { value_below limbs.old (length limbs.old) * 2 ^ n < limb_weight (length limbs.old) }
    ensures { value_below limbs.new (length limbs.new)
        ≡ value_below limbs.old (length limbs.old) * 2 ^ n }
{
    let mut left = n;
    while left > 63 {
        multiply_add(limbs, 1 << 63, 0);
        left -= 63;
    }
    multiply_add(limbs, 1 << left, 0);
}

// Subtracts, and returns what is missing above the last limb.
fn subtract_with_borrow(limbs: &mut [u64], less: &[u64]) -> u64
    requires { length limbs.old ≡ length less.now }
    ensures { value_below limbs.new (length limbs.new) + value_below less.now (length less.now)
        ≡ value_below limbs.old (length limbs.old) + result * limb_weight (length limbs.old) }
{
    let mut borrow = 0;
    for i in 0..limbs.len() {
        let wide = limbs[i] as u128 + LOW_WORD + 1 - less[i] as u128 - borrow as u128;
        limbs[i] = (wide & LOW_WORD) as u64;
        borrow = 1 - (wide >> 64) as u64;
    }
    borrow
}

// Subtracts a number that isn't greater.
pub(crate) fn subtract(limbs: &mut [u64], less: &[u64])
    requires same { length limbs.old ≡ length less.now }
    requires fits { value_below less.now (length less.now)
        ≤ value_below limbs.old (length limbs.old) }
    ensures { value_below limbs.new (length limbs.new) + value_below less.now (length less.now)
        ≡ value_below limbs.old (length limbs.old) }
{
    let _borrow = subtract_with_borrow(limbs, less);
}

// Whether the first number is less.
pub(crate) fn is_less(a: &[u64], b: &[u64]) -> bool
    requires { length a.now ≡ length b.now }
    ensures { IsTrue result
        ↔ (value_below a.now (length a.now) < value_below b.now (length b.now)) }
{
    let mut i = a.len();
    while i > 0 {
        i -= 1;
        if a[i] < b[i] {
            return true;
        }
        if a[i] > b[i] {
            return false;
        }
    }
    false
}
