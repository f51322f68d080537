#![tactic(auto)]

//! Tests of the crates of texts, values and tables, as rows of texts.
#[cfg(test)]
mod eager;
#[cfg(test)]
mod flat;
#[cfg(test)]
mod full;
#[cfg(test)]
mod grammar;
#[cfg(test)]
mod hints;
#[cfg(test)]
mod intern;
#[cfg(test)]
mod names;
#[cfg(test)]
mod places;
#[cfg(test)]
mod rows;
#[cfg(test)]
mod shared;
#[cfg(test)]
mod values;
