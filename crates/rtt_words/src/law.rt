//! The laws of the look.
ghost use Rattle.rtt_words.specs.LookLaws.{LookFindsPublished, LookFindsReleased, NoBlindLowerLook, NoBlindUpperLook, OneLoad, ResidueTellsPublished, ResidueTellsReleased};

/// What [`UpWords::load_rd_off`](crate::UpWords::load_rd_off) finds is the number of bytes released at this step: by the
/// rule, RdOff is the residue of no other number that it can be.
pub fn residue_tells_the_released()
    ensures { ResidueTellsReleased }
{}

/// What [`DownWords::load_wr_off`](crate::DownWords::load_wr_off) finds is the number of bytes published at this step: by
/// the rule, WrOff is the residue of no other number that it can be.
pub fn residue_tells_the_published()
    ensures { ResidueTellsPublished }
{}

/// Whatever step puts a load of RdOff into what the upper end knows has found the number of bytes released then.
pub fn look_finds_the_released()
    ensures { LookFindsReleased }
{}

/// Whatever step puts a load of WrOff into what the lower end knows has found the number of bytes published then.
pub fn look_finds_the_published()
    ensures { LookFindsPublished }
{}

/// No kind of step always finds what the look before it found, whatever the other end has stored since.
pub fn no_look_is_blind()
    ensures upper { NoBlindUpperLook }
    ensures lower { NoBlindLowerLook }
{}

/// One history, with one load more, has found one number.
pub fn loaded_is_last_stored()
    ensures { OneLoad }
{}
