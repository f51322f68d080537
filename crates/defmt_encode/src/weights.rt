//! The sum of the weights of Format values.
ghost use Rattle.std.specs.Prelude.{◌≡◌, ◌≤◌, IfOk};
ghost use Rattle.defmt_encode.specs.Read.{add};

use crate::cause::Cause;

// The most that the weights of the Format values of a statement come to.
const WEIGHT_LIMIT: u128 = 8192;

// The sum with one more weight.
pub(crate) fn add(weight: u128, sum: u128) -> Result<u128, Cause>
    ensures value { result ≡ add weight sum }
    ensures small { IfOk result (λ s. weight ≤ 8192) }
{
    let total = sum.saturating_add(weight);
    if total <= WEIGHT_LIMIT {
        Ok(total)
    } else {
        Err(Cause::Many)
    }
}
