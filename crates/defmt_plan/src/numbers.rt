//! At which place of a list the plan of an index stands.

use defmt_grammar::Memory;
use std::alloc::Global;

// What has the index of a string.
pub(crate) trait Indexed {
    fn index(&self) -> u16;
}

// At each index up to the greatest of these, which grow, the number of its plan.
pub(crate) fn numbers_of<I: Indexed>(alloc: Global, plans: &[I]) -> Result<Vec<u16>, Memory> {
    let Some(last) = plans.last() else {
        return Ok(Vec::new(alloc));
    };
    let size = usize::from(last.index()).saturating_add(1);
    let mut numbers = vec![in alloc; 0u16; size]?;
    for (number, plan) in plans.iter().enumerate() {
        if let Some(place) = numbers.get_mut(usize::from(plan.index())) {
            *place = number.min(65535) as u16;
        }
    }
    Ok(numbers)
}

// The number that stands at an index: that of its plan, or of another where it has none.
#[inline(always)]
pub(crate) fn number_at(numbers: &[u16], index: u16) -> Option<u16> {
    numbers.get(usize::from(index)).copied()
}
