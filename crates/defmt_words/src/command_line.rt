//! The command line, and what `clap` finds in words by it.
ghost use Rattle.std.specs.Prelude.{◌≡◌, false, map, option_map, IfOk, string_bytes};
ghost use Rattle.clap.specs.Words.{app_of, found_of, rows_of, rule_of};
ghost use Rattle.defmt_words.specs.Words.{command_line as line_of, rule_by, with_rules, found};
ghost use Rattle.defmt_words.specs.View.{parameter_view};

use crate::job::command_parameters;
use crate::parameters::{Kind, Parameter};
use crate::style::style_parameters;
use clap::error::ErrorKind;
use clap::{Arg, ArgAction, ArgMatches, Command};
use dl_io::Memory;
use std::alloc::{AllocError, Global};

// A parameter as `clap` sees it.
fn rule_of<'a>(alloc: Global, parameter: &Parameter<'a>) -> Arg<'a>
    ensures rule { rule_of result ≡ rule_by parameter.now.kind parameter.now.name.now }
    ensures local { result.global ≡ false }
{
    let rule = Arg::new(alloc, parameter.name);
    match parameter.kind {
        Kind::Place => rule,
        Kind::Value => rule.long(parameter.name),
        Kind::Flag => rule.long(parameter.name).action(ArgAction::SetTrue),
    }
}

// The line with these parameters behind its own.
fn with_rules<'a>(
    alloc: Global,
    line: Command<'a>,
    parameters: &[Parameter<'a>],
) -> Result<Command<'a>, AllocError>
    ensures { IfOk result (λ command. app_of command
        ≡ with_rules (app_of line.entry) (map parameter_view parameters.now)) }
{
    let mut line = line;
    let mut rest = parameters;
    'parameters: while let [first, more @ ..] = rest {
        line = line.arg(rule_of(alloc, first))?;
        rest = more;
    }
    Ok(line)
}

fn command_line<'a>(alloc: Global) -> Result<Command<'a>, AllocError>
    ensures { IfOk result (λ command. app_of command ≡ line_of) }
{
    let command = Arg::new(alloc, "command").required(true);
    let line = Command::new(alloc, "defmtl").arg(command)?;
    let line = with_rules(alloc, line, &command_parameters())?;
    with_rules(alloc, line, &style_parameters())
}

/// What `clap` finds in the words, or `None` where it refuses them.
pub fn matches_of<'a>(alloc: Global, words: &'a [String]) -> Result<Option<ArgMatches<'a>>, Memory>
    ensures { IfOk result (λ matches. option_map (λ m. rows_of (found_of m)) matches
        ≡ found (map string_bytes words.entry.now)) }
{
    let Ok(command) = command_line(alloc) else {
        return Err(Memory);
    };
    match command.try_get_matches_from(words) {
        Ok(matches) => Ok(Some(matches)),
        Err(error) => match error.kind() {
            ErrorKind::OutOfMemory => Err(Memory),
            _ => Ok(None),
        },
    }
}
