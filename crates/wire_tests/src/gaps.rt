//! How many frames are missing between two lines.
use crate::rows::Kind;
use defmt_decode::gap;
use std::fmt::Write;
use std::test::Fail;
use test_rows::each_line;

// The places of two lines, and how many frames are missing between them.
const GAPS: &str = "\
0 1 = 0
0 3 = 2
1 3 = 1
65535 1 = 1
65535 0 = 0
5 5 = 65535
10 9 = 65534";

pub fn put_gap_of(places: &str, out: &mut String) -> Result<(), Fail> {
    let Some((last, next)) = places.split_once(' ') else {
        return Err(Fail::new("no second place"));
    };
    let missing = gap(last.parse::<u16>()?, next.parse::<u16>()?);
    Ok(write!(out, "{missing}")?)
}

#[test]
fn gaps_count_round_the_end(rt: HostRuntime) -> Result<(), Fail> {
    each_line(rt.alloc(), GAPS, 7, &Kind::GapOf)
}
