#![tactic(auto)]

//! Tests of the program: the words that it takes, and its sessions by their commands.

#[cfg(test)]
mod blocks;
#[cfg(test)]
mod commands;
#[cfg(test)]
mod decode;
#[cfg(test)]
mod device;
#[cfg(test)]
mod dump;
#[cfg(test)]
mod forms;
#[cfg(test)]
mod full;
#[cfg(test)]
mod gates;
#[cfg(test)]
mod limits;
#[cfg(test)]
mod live;
#[cfg(test)]
mod outside;
#[cfg(test)]
mod rows;
#[cfg(test)]
mod run;
#[cfg(test)]
mod scripts;
#[cfg(test)]
mod sessions;
#[cfg(test)]
mod shares;
#[cfg(test)]
mod steering;
#[cfg(test)]
mod terminals;
#[cfg(test)]
mod told;
#[cfg(test)]
mod words;
