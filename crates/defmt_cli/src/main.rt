//! The program `defmtl`: it does what its words ask for, from the standard input and the files of the working folder to the
//! standard output, and tells a fault on the standard error.
//!
//! After docs/USER-GUIDE.md. So `run --group` prints the lines of two writers writer by writer, each in its order: `INFO  a 1` and
//! `INFO  a 2`, then `WARN  b true` and `WARN  b false` (its stored run).
#![tactic(auto)]

mod answer;

use answer::{answer, without_memory};
use dl_io::{Memory, StdSink};
use std::process::ExitCode;
use std::rt::Env;
use std::{env, io};
use std_outside::{Folder, Input};

// Makes the outside, and hands it on with the words.
fn main(rt: HostRuntime) -> ExitCode {
    let mut errors = StdSink::new(rt.stderr());
    let Ok(words) = words_of(&rt) else {
        return ExitCode::from(without_memory(&mut errors));
    };
    let Ok(mut source) = Input::new(rt.alloc(), rt.stdin()) else {
        return ExitCode::from(without_memory(&mut errors));
    };
    let Ok(mut shelf) = Folder::new(rt.alloc(), &rt) else {
        return ExitCode::from(without_memory(&mut errors));
    };
    let mut sink = StdSink::new(io::writer(&rt));
    let status = answer(
        &rt,
        rt.alloc(),
        words.as_slice(),
        &mut source,
        &mut shelf,
        &mut sink,
        &mut errors,
    );
    ExitCode::from(status)
}

// The words of the command line. Words that aren't text ask for nothing.
fn words_of(rt: &(impl Env + AllocGlobal)) -> Result<Vec<String>, Memory> {
    match env::args(rt) {
        Ok(words) => Ok(words.collect(rt.alloc())?),
        Err(error) if error.kind() == io::ErrorKind::OutOfMemory => Err(Memory),
        Err(_) => Ok(Vec::new(rt.alloc())),
    }
}
