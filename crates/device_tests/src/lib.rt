#![tactic(auto)]

//! Tests of the device: stamps, the macros that put messages, a logger with its pens, a steered logger with its helms, and
//! writers in threads, with texts and under orders too.
#[cfg(test)]
mod alone;
#[cfg(test)]
mod arguments;
#[cfg(test)]
mod forms;
#[cfg(test)]
mod gates;
#[cfg(test)]
mod hooks;
#[cfg(test)]
mod hosted;
#[cfg(test)]
mod logger;
#[cfg(test)]
mod macros;
#[cfg(test)]
mod rows;
#[cfg(test)]
mod scripts;
#[cfg(test)]
mod sites;
#[cfg(test)]
mod steering;
#[cfg(test)]
mod talks;
#[cfg(test)]
mod writers;
