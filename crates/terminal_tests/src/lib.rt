#![tactic(auto)]

//! Tests of text terminals, of their lines and streams and of a booth with its voices, as rows.
#[cfg(test)]
mod booths;
#[cfg(test)]
mod rows;
#[cfg(test)]
mod terminals;
