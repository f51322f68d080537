//! Stamps, asked by number and through a holder, the order of levels, and rules for what is shown, asked through a watch.
ghost use Rattle.std.specs.Prelude.{◌≡◌, ◌≤◌, ◌+◌, ◌*◌};
ghost use Rattle.defmt_hooks.specs.Even.{RunsEvenly};
ghost use Rattle.defmt_hooks.specs.Judging.{JudgesBy};
ghost use Rattle.defmt_hooks.specs.Kept.{keeps};

use crate::rows::{Kind, each_line};
use defmt_hooks::{
    Clock, Hook, Judge, Level, RuleFault, Rules, Stamp, Watch, keeps, level_named, read_rules,
};
use std::alloc::Global;
use std::fmt::Write;
use std::test::Fail;
use test_rows::{number_of, parted, put_str};

const MOST: u64 = 281_474_976_710_656;

// The greatest number of a message that a stamp is asked by.
const LAST_NUMBER: u64 = 4096;

// A stamp's base, its step and the number of a message: what the stamp and what its holder answers.
const STAMPS: &str = "\
1000 250 0 = 1000 1000
1000 250 3 = 1750 1750
1000 250 4096 = 1025000 1025000
281474976710656 281474976710656 4096 = 1153202979583557632 1153202979583557632";

// Rules, a level and a package, with bars between them: whether a watch by these rules keeps such a message.
const KEPT: &str = "\
warn|warn|script = kept
warn|info|script = not kept
trace|trace| = kept
off|error|script = not kept
off,script=info|info|script = kept
off,script=info|debug|script = not kept
off,script=info|error|scripts = not kept
error,a=off,b b=debug|error|a = not kept
error,a=off,b b=debug|debug|b b = kept
error,\u{e9}=trace|trace|\u{e9} = kept";

const NO_RULES: &str = "\
|error|a = no rules
loud|error|a = no rules
Warn|error|a = no rules
warn |error|a = no rules
warn,|error|a = no rules
,a=info|error|a = no rules
warn,a|error|a = no rules
warn,a=|error|a = no rules
warn,=info|error|a = no rules
warn,a=b=info|error|a = no rules
warn,a=loud|error|a = no rules
warn,a=info,|error|a = no rules
warn,a=info,a=warn|error|a = no rules
warn,a=info,b=info,a=info|error|a = no rules";

// The words of levels, and the place of each in their order.
const LEVELS: &str = "\
trace = 0
debug = 1
info = 2
warn = 3
error = 4";

// So many packages behind `off`, each with the floor `warn` and a number from 0 for its name: whether a warning of the last
// of 32 is kept.
const PACKAGES: &str = "\
31 = not kept
32 = kept
33 = no rules";

// What keeps a stamp and knows nothing of its clock.
#[derive(Drop)]
struct Holder<C: Clock> {
    stamp: Stamp<C>,
}

impl<C: Clock> Holder<C> {
    fn stamp_of(&self, t: u32) -> u64
        requires { t ≤ 4096 }
        ensures { result ≡ self.now.stamp.base + self.now.stamp.step * t }
    {
        self.stamp.at(t)
    }
}

// The answers of a stamp with this clock and of its holder.
fn answers_by<C: Clock + Drop>(base: u64, step: u64, clock: C, t: u32) -> (u64, u64)
    requires numbers { (base ≤ 281474976710656) × (step ≤ 281474976710656) }
    requires even { RunsEvenly base step (C.ready clock) (C.gives clock) }
    requires number { t ≤ 4096 }
    ensures { result ≡ (base + step * t, base + step * t) }
{
    let stamp = Stamp::new(base, step, clock);
    let own = stamp.at(t);
    let holder = Holder { stamp };
    (own, holder.stamp_of(t))
}

// Both answers with a closure that counts by these numbers.
fn answers_of(base: u64, step: u64, t: u32) -> (u64, u64)
    requires { (base ≤ 281474976710656) × (step ≤ 281474976710656) × (t ≤ 4096) }
{
    let clock = move |t: u32| -> u64
        requires { (base ≤ 281474976710656) × (step ≤ 281474976710656) × (t ≤ 4096) }
        ensures { result ≡ base + step * t }
    { base + step * u64::from(t) };
    answers_by(base, step, Hook::new(clock), t)
}

fn put_answers(base: u64, step: u64, number: u64, out: &mut String) -> Result<(), Fail> {
    if base > MOST || step > MOST || number > LAST_NUMBER {
        return Err(Fail::new("a number is too large"));
    }
    let (own, held) = answers_of(base, step, number as u32);
    Ok(write!(out, "{own} {held}")?)
}

pub(crate) fn put_stamps(row: &str, out: &mut String) -> Result<(), Fail> {
    let (base, rest) = parted(row, ' ');
    let (step, number) = parted(rest, ' ');
    put_answers(number_of(base)?, number_of(step)?, number_of(number)?, out)
}

// Whether a watch with this judge keeps a message.
fn is_kept_by<J: Judge + Drop>(rules: &Rules, judge: J, level: Level, name: &str) -> bool
    requires { JudgesBy rules.now (J.ready judge) (J.gives judge) }
    ensures { result ≡ keeps rules.now level name.now }
{
    let watch = Watch::new(rules, judge);
    watch.keep(level, name)
}

// The same with a closure that goes by the rules.
fn is_kept(rules: &Rules, level: Level, name: &str) -> bool
    ensures { result ≡ keeps rules.now level name.now }
{
    let judge = |level: Level, name: &str| -> bool
        ensures { result ≡ keeps rules.entry.now level name.now }
    { keeps(rules, level, name) };
    is_kept_by(rules, Hook::new(judge), level, name)
}

fn put_kept(rules: &Rules, level: Level, name: &str, out: &mut String) -> Result<(), Fail> {
    if is_kept(rules, level, name) {
        return put_str(out, "kept");
    }
    put_str(out, "not kept")
}

fn put_judged(
    alloc: Global,
    text: &str,
    level: Level,
    name: &str,
    out: &mut String,
) -> Result<(), Fail> {
    match read_rules(alloc, text) {
        Ok(rules) => put_kept(&rules, level, name, out),
        Err(RuleFault::Spelling) => put_str(out, "no rules"),
        Err(RuleFault::Memory) => put_str(out, "memory"),
    }
}

pub(crate) fn put_rules(alloc: Global, row: &str, out: &mut String) -> Result<(), Fail> {
    let Some((text, rest)) = row.split_once('|') else {
        return Err(Fail::new("no level"));
    };
    let Some((word, name)) = rest.split_once('|') else {
        return Err(Fail::new("no package"));
    };
    let Some(level) = level_named(word) else {
        return Err(Fail::new("another word than a level's"));
    };
    put_judged(alloc, text, level, name, out)
}

// Puts the place of a level in their order.
pub(crate) fn put_rank(word: &str, out: &mut String) -> Result<(), Fail> {
    let Some(level) = level_named(word) else {
        return Err(Fail::new("another word than a level's"));
    };
    Ok(write!(out, "{}", level.rank())?)
}

pub(crate) fn put_packages(alloc: Global, count: &str, out: &mut String) -> Result<(), Fail> {
    let count = u32::from_str_radix(count, 10)?;
    let mut text = String::from_str(alloc, "off")?;
    for number in 0..count {
        write!(text, ",{number}=warn")?;
    }
    put_judged(alloc, &text, Level::Warn, "31", out)
}

#[test]
fn stamps_are_evenly_apart(rt: HostRuntime) -> Result<(), Fail> {
    each_line(&rt, rt.alloc(), STAMPS, 4, &Kind::Stamps)
}

#[test]
fn rules_keep_a_level_and_each_later_one(rt: HostRuntime) -> Result<(), Fail> {
    each_line(&rt, rt.alloc(), KEPT, 10, &Kind::Rules)?;
    each_line(&rt, rt.alloc(), PACKAGES, 3, &Kind::Packages)
}

#[test]
fn levels_come_in_their_order(rt: HostRuntime) -> Result<(), Fail> {
    each_line(&rt, rt.alloc(), LEVELS, 5, &Kind::Rank)
}

#[test]
fn other_texts_spell_no_rules(rt: HostRuntime) -> Result<(), Fail> {
    each_line(&rt, rt.alloc(), NO_RULES, 14, &Kind::Rules)
}
