//! Numbers of any size.

ghost use Rattle.std.specs.Prelude.{◌≡◌, ◌≤◌, IfSome, Option, ℕ};
ghost use Rattle.std.specs.Option.{option_copied};
ghost use Rattle.std.specs.Str.Parse.{digits_value};
ghost use Rattle.defmt_shapes.specs.Shape.{IsNumber};
ghost use Rattle.defmt_shapes.specs.Leads.{IsMark};
ghost use Rattle.defmt_shapes.specs.Spelling.{Holds, HoldsVariant};

/// A number of any size, as far as 128 bits hold it.
#[derive(Clone, Copy)]
pub enum Number {
    /// This number, below 2 ^ 128.
    Within(u128),
    /// A number of 2 ^ 128 or more.
    Above,
}

// The number that decimal digits stand for, where 64 bits hold it.
fn small_number(digits: &str) -> Option<u64>
    ensures { IfSome result (λ number. number ≡ digits_value 10 digits.now) }
{
    let mut number = 0u64;
    let mut rest = digits.as_bytes();
    'digits: while let Some((digit, more)) = rest.split_first() {
        let value = char::from(*digit).to_digit(10)?;
        number = number.checked_mul(10)?.checked_add(u64::from(value))?;
        rest = more;
    }
    Some(number)
}

// The number that digits of this radix stand for.
pub(crate) fn number_of(digits: &str, radix: u32) -> Number
    requires low { 2 ≤ radix }
    requires high { radix ≤ 36 }
    ensures { (n : ℕ) → IsNumber radix digits.now n → Holds result n }
{
    // Most numbers are small and decimal.
    if radix == 10 {
        if let Some(number) = small_number(digits) {
            return Number::Within(u128::from(number));
        }
    }
    match u128::from_str_radix(digits, radix) {
        Ok(number) => Number::Within(number),
        Err(_) => Number::Above,
    }
}

// The number of a variant.
pub(crate) fn variant_of(digits: Option<&str>) -> Option<Number>
    ensures { (v : Option ℕ) → IsMark (option_copied digits.entry) v → HoldsVariant result v }
{
    match digits {
        None => None,
        Some(digits) => Some(number_of(digits, 10)),
    }
}
