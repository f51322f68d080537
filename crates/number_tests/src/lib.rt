#![tactic(auto)]

//! Tests of the texts of floats, dates and clocks, as rows of texts, and of floats beside the kit's ryu.
#[cfg(test)]
mod beside;
#[cfg(test)]
mod dates;
#[cfg(test)]
mod floats;
#[cfg(test)]
mod rows;
