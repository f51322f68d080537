#![tactic(auto)]

//! Tests of the outside, of control blocks, of the rings and of their modes as rows.
#[cfg(test)]
mod blocks;
#[cfg(test)]
mod lists;
#[cfg(test)]
mod modes;
#[cfg(test)]
mod rings;
#[cfg(test)]
mod rows;
#[cfg(test)]
mod shelves;
#[cfg(test)]
mod sizes;
#[cfg(test)]
mod streams;
#[cfg(test)]
mod threads;
#[cfg(test)]
mod words;
