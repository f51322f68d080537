//! Scripts that name their language, and where they may.
use crate::rows::Kind;
use crate::scripts::said;
use std::test::Fail;
use test_rows::{each_line, expect};

const FULL: &str =
    "# a date, a number, a list\n\nlanguage full\nring 64\nstamp 7 1\ns at defmt_info {=u64:iso8601s} {=f32} {=u16:04}\ns n defmt_prim {=u8}\ns all defmt_warn {=__internal_FormatSequence} {=__internal_Debug}\nw 0 at 0 1.5 7\nw 0 all <n(1) n(2)> \"x\"\nw 7 all <> \"\"\nt 0 A tick";

// As in `scripts`.
const FULL_SAYS: &str = "\
ring 64 block live stamp 7 1 language full
at = 1: script defmt_info 1 <{=u64:iso8601s} {=f32} {=u16:04}>
n = 2: script defmt_prim 2 <{=u8}>
all = 3: script defmt_warn 3 <{=__internal_FormatSequence} {=__internal_Debug}>
none = 4: script defmt_timestamp 4 <{=u64:us}>
writer 0 has 2: 1 <0 1.5 7>, 3 <<n(1) n(2)> \"x\">
writer 7 has 1: 3 <<> \"\">
writer 0 says 1: 10 <tick> behind 2
log log say
";

// Texts, in which ` / ` stands for a newline, and the first line that is refused.
const REFUSALS: &str = "\
language full = read
# /  / language full / ring 64 / profile 2 = read
language full\r / s v defmt_info {=f32} = read
language base = line 1 cause 1 inner 0
language Full = line 1 cause 1 inner 0
language  = line 1 cause 1 inner 0
language = line 1 cause 1 inner 0
language full full = line 1 cause 1 inner 0
 language full = line 1 cause 1 inner 0
language full / language full = line 2 cause 1 inner 0
ring 64 / language full = line 2 cause 1 inner 0
d 0 warn / language full = line 2 cause 1 inner 0
s a defmt_info / language full = line 2 cause 1 inner 0
t 0 0 x / language full = line 2 cause 1 inner 0
s v defmt_info {=f32} = line 1 cause 10 inner 8
s v defmt_info {=u8:tms} = line 1 cause 10 inner 3
language full / s v defmt_info {=u8:z} = line 2 cause 10 inner 3
s v defmt_info {=u8} / w 0 v 1.5 = line 2 cause 4 inner 1
language full / s v defmt_info {=u8} / w 0 v 1.5 = line 3 cause 4 inner 3
language full / s v defmt_info {=f32} / w 0 v 1.5 2 = line 3 cause 4 inner 2
language full / s v defmt_info {=f32} / w 0 v 0x100000000 = line 3 cause 4 inner 4
language full / s v defmt_info {=__internal_FormatSequence} / w 0 v <nobody()> = line 3 cause 4 inner 5";

#[test]
fn a_script_of_the_full_language_has_a_table_of_it(rt: HostRuntime) -> Result<(), Fail> {
    let told = said(rt.alloc(), FULL)?;
    expect(told.as_str(), FULL_SAYS)
}

#[test]
fn a_language_is_named_once_and_in_front_of_all_else(rt: HostRuntime) -> Result<(), Fail> {
    each_line(rt.alloc(), REFUSALS, 22, &Kind::RefusalOf)
}
