#![tactic(auto)]

//! Tests of the files that carry a table and of images of memory, as rows of texts.
#[cfg(test)]
mod dumps;
#[cfg(test)]
mod files;
#[cfg(test)]
mod headers;
#[cfg(test)]
mod linked;
#[cfg(test)]
mod markers;
#[cfg(test)]
mod places;
#[cfg(test)]
mod rows;
#[cfg(test)]
mod symbols;
#[cfg(test)]
mod tables;
