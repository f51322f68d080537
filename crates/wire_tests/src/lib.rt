#![tactic(auto)]

//! The tests of the wire: codes, the parts of streams, messages, events, what a screen shows of them, and the hearing of recordings, as rows of texts.
#[cfg(test)]
mod both;
#[cfg(test)]
mod codes;
#[cfg(test)]
mod ears;
#[cfg(test)]
mod events;
#[cfg(test)]
mod full;
#[cfg(test)]
mod gaps;
#[cfg(test)]
mod hearing;
#[cfg(test)]
mod line_parts;
#[cfg(test)]
mod messages;
#[cfg(test)]
mod parts;
#[cfg(test)]
mod plans;
#[cfg(test)]
mod reading;
#[cfg(test)]
mod rows;
#[cfg(test)]
mod runs;
#[cfg(test)]
mod screens;
#[cfg(test)]
mod strings;
