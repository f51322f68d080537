//! What stands in a message in front of its values, and what its line comes from.

ghost use Rattle.std.specs.Prelude.{IfSome};
ghost use Rattle.defmt_plan.specs.Told.{IsHead};

use crate::take::take_uint;
use defmt_intern::Profile;

// The front of a message: its index, its place where the profile has one, and the place behind both.
#[derive(Clone, Copy)]
pub(crate) struct Head {
    pub index: u16,
    pub place: Option<u16>,
    pub read: usize,
}

/// Where a line comes from: what it has beside its text.
#[derive(Clone, Copy)]
pub struct Origin {
    /// The index of its entry in the table.
    pub index: u16,
    /// The place of its frame: there is one exactly in profile Two.
    pub place: Option<u16>,
    /// What it consists of.
    pub parts: Parts,
}

/// The parts of a line.
#[derive(Clone, Copy)]
pub struct Parts {
    /// How many bytes its piece has, between the two zeros.
    pub bytes: u32,
    /// How many bytes the stamp's text has; 0 where the line is printed without one.
    pub stamp: u32,
    /// Where the statement's own text begins, behind stamp and level.
    pub front: u32,
}

// The front of a message in a profile.
#[inline(always)]
pub(crate) fn read_head(profile: Profile, bytes: &[u8]) -> Option<Head>
    ensures { IfSome result (λ head. IsHead profile bytes.now head) }
{
    let index = take_uint(bytes, 0, 2)? as u16;
    match profile {
        Profile::One => Some(Head {
            index,
            place: None,
            read: 2,
        }),
        Profile::Two => {
            let place = take_uint(bytes, 2, 2)? as u16;
            Some(Head {
                index,
                place: Some(place),
                read: 4,
            })
        }
    }
}
