#![tactic(auto)]

//! The tests of scripts: what texts spell, what arguments and lines read as, what scripts say, and generated scripts, as rows of texts.
#[cfg(test)]
mod arguments;
#[cfg(test)]
mod calls;
#[cfg(test)]
mod content;
#[cfg(test)]
mod forms;
#[cfg(test)]
mod generated;
#[cfg(test)]
mod languages;
#[cfg(test)]
mod readers;
#[cfg(test)]
mod rows;
#[cfg(test)]
mod scripts;
#[cfg(test)]
mod shapes;
#[cfg(test)]
mod texts;
