//! What the words ask of printing.
ghost use Rattle.std.specs.Prelude.{◌≡◌, map, IfOk};
ghost use Rattle.clap.specs.Words.{found_of, rows_of, first_of};
ghost use Rattle.defmt_hooks.specs.Levels.{level_named};
ghost use Rattle.defmt_hooks.specs.Reading.{rules_in};
ghost use Rattle.defmt_words.specs.Parameters.{optional};
ghost use Rattle.defmt_words.specs.Style.{form_by, form_in, plain_style, style_by, style_parameters};
ghost use Rattle.defmt_words.specs.View.{parameter_view, text_in};

use crate::parameters::{Kind, Parameter, is_set, value_of};
use clap::ArgMatches;
use defmt_hooks::{Level, RuleFault, Rules, level_named, read_rules};
use dl_io::Memory;
use std::alloc::Global;

/// What the words ask of printing: `[--only RULES] [--json] [--color] [--fail-on LEVEL]`, of `--json` and `--color` one at most. RULES is
/// what `defmt_hooks::read_rules` reads, LEVEL one of `trace`, `debug`, `info`, `warn` and `error`.
#[derive(Drop)]
pub struct Style {
    /// `--only RULES`: which lines are printed, or else all.
    pub only: Option<Rules>,
    /// `--json` or `--color`, or neither.
    pub form: Form,
    /// `--fail-on LEVEL`: the level from which on a printed line makes the program fail, or else none.
    pub fail_on: Option<Level>,
}

/// The form of the lines.
#[derive(Clone, Copy)]
pub enum Form {
    /// Text.
    Plain,
    /// Text with colors for a terminal.
    Color,
    /// An object of JSON a line.
    Json,
}

impl Style {
    /// What words without options ask of printing: all lines, as text, none of which makes the program fail.
    pub fn plain() -> Style
        ensures { result ≡ plain_style }
    {
        Style {
            only: None,
            form: Form::Plain,
            fail_on: None,
        }
    }
}

/// A row a parameter of printing.
pub fn style_parameters<'a>() -> [Parameter<'a>; 4]
    ensures { map parameter_view result ≡ style_parameters }
{
    [
        Parameter {
            name: "only",
            kind: Kind::Value,
            taken: &["run", "decode", "dump"],
            needed: &[],
        },
        Parameter {
            name: "json",
            kind: Kind::Flag,
            taken: &["run", "decode", "dump"],
            needed: &[],
        },
        Parameter {
            name: "color",
            kind: Kind::Flag,
            taken: &["run", "decode", "dump"],
            needed: &[],
        },
        Parameter {
            name: "fail-on",
            kind: Kind::Value,
            taken: &["run", "decode", "dump"],
            needed: &[],
        },
    ]
}

// The rules that the value spells, and none where there is no value; `None` where the value spells none.
fn only_of(alloc: Global, value: Option<&str>) -> Result<Option<Option<Rules>>, Memory>
    ensures { IfOk result (λ only. only ≡ optional rules_in (text_in value.entry)) }
{
    let Some(text) = value else {
        return Ok(Some(None));
    };
    match read_rules(alloc, text) {
        Ok(rules) => Ok(Some(Some(rules))),
        Err(RuleFault::Spelling) => Ok(None),
        Err(RuleFault::Memory) => Err(Memory),
    }
}

// The level that the value names, and none where there is no value; `None` where the value names none.
fn level_of(value: Option<&str>) -> Option<Option<Level>>
    ensures { result ≡ optional level_named (text_in value.entry) }
{
    let Some(text) = value else {
        return Some(None);
    };
    match level_named(text) {
        Some(level) => Some(Some(level)),
        None => None,
    }
}

// The form of the lines, by whether `--json` and `--color` are there; `None` where both are.
fn form_of(json: bool, color: bool) -> Option<Form>
    ensures { result ≡ form_in json color }
{
    match (json, color) {
        (true, true) => None,
        (true, false) => Some(Form::Json),
        (false, true) => Some(Form::Color),
        (false, false) => Some(Form::Plain),
    }
}

fn form_by(matches: &ArgMatches<'_>) -> Option<Form>
    ensures { result ≡ form_by (rows_of (found_of matches.now)) }
{
    form_of(is_set(matches, "json"), is_set(matches, "color"))
}

/// What the words ask of printing, `None` where one of these options is spelled wrongly, or `--json` stands beside `--color`. The one
/// error is want of memory.
pub fn style_of(alloc: Global, matches: &ArgMatches<'_>) -> Result<Option<Style>, Memory>
    ensures { IfOk result (λ style. style ≡ style_by (rows_of (found_of matches.now))) }
{
    let Some(only) = only_of(alloc, value_of(matches, "only"))? else {
        return Ok(None);
    };
    let Some(form) = form_by(matches) else {
        return Ok(None);
    };
    let Some(fail_on) = level_of(value_of(matches, "fail-on")) else {
        return Ok(None);
    };
    Ok(Some(Style {
        only,
        form,
        fail_on,
    }))
}
