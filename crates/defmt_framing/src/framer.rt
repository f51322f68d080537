//! A stream that is fed in parts, cut at its zeros.
ghost use Rattle.std.specs.Prelude.{◌≡◌, ◌≢◌, ◌+◌, ◌-◌, ◌^◌, ◌≤◌, ◌<◌, ◌++◌, ◌∷◌, [], List, ℕ, length, take, drop, replicate, IfOk, MatchOption, OnOk, OnErr, option_to_list, slice_index, true, false};
ghost use Rattle.defmt_framing.specs.Cut.{has_zero, tail};
ghost use Rattle.defmt_framing.specs.Told.{Tells, events, begun, of_piece};

use crate::places::{until_zero, zeros_in_front};
use crate::teller::Teller;
use dl_io::Memory;
use std::alloc::Global;
use std::marker::Model;

// A piece of more bytes than this is too long.
const LONGEST: usize = 65536;

// That a piece is too long shows by one byte more.
const KEPT: usize = LONGEST + 1;

/// Cuts one stream, which is fed in parts, at its zeros.
#[derive(Drop)]
pub struct Framer {
    heard: u64,
    zeros: bool,
    since: u64,
    kept: Vec<u8>,
}

impl Model for Framer {
    ghost use Rattle.defmt_framing.specs.Framing.{Framing};

    ghost Value = { Framing };

    ghost view = { λ f. record { heard = f.heard; zeros = f.zeros; since = f.since; kept = f.kept.items } };
}

impl Framer {
    ghost use Rattle.defmt_framing.specs.Calls.{HeardAs};
    ghost use Rattle.defmt_framing.specs.Framing.{Stands, Hears, GoesOn, is_between};
    ghost use Rattle.defmt_framing.specs.Wholes.{HasNoWhole, IsWhole};

    /// A framer that has heard nothing. Takes no memory.
    pub fn new(alloc: Global) -> Self
        ensures { Stands result [] }
    {
        Framer {
            heard: 0,
            zeros: false,
            since: 0,
            kept: Vec::new(alloc),
        }
    }

    /// How many bytes were heard. Takes no memory.
    pub fn heard_len(&self) -> u64
        ensures { result ≡ self.now.heard }
    {
        self.heard
    }

    /// Takes bytes up to and with the zero that ends the first front or piece which isn't empty,
    /// and answers how many it took with what that part tells.
    ///
    /// `None` comes exactly where it took all bytes and none ended such a part. On want of memory
    /// nothing was taken, and the framer is unchanged.
    pub fn feed<T: Teller>(
        &mut self,
        teller: &mut T,
        bytes: &[u8],
    ) -> Result<(usize, Option<T::Told>), Memory>
        ensures within { IfOk result (λ r. r.0 ≤ length bytes.now) }
        ensures hears { IfOk result (λ r. (stream : List ℕ) → Stands self.old stream
            → Hears (T.tells teller.old) self.new stream (take r.0 bytes.now) r.1) }
        ensures some { IfOk result (λ r. 0 < length bytes.now → 0 < r.0) }
        ensures all { IfOk result (λ r. r.1 ≡ None → r.0 ≡ length bytes.now) }
        ensures err { OnErr result (self.new ≡ self.old) }
        ensures same { teller.new ≡ teller.old }
    {
        let skipped = skip(self.since, bytes);
        let (_, rest) = bytes.split_at(skipped);
        let size = until_zero(rest);
        let (run, behind) = rest.split_at(size);
        if behind.is_empty() {
            self.go_on(skipped, run)?;
            return Ok((bytes.len(), None));
        }
        let told = self.close(teller, skipped, run)?;
        Ok((skipped + size + 1, Some(told)))
    }

    /// Where the next piece stands in the bytes and how long it is, where nothing was heard of it yet, and the bytes have it
    /// whole, with the zero behind it, and it has at most 65,536 bytes; else `None`. Takes no memory.
    pub fn whole_piece(&self, bytes: &[u8]) -> Option<(usize, usize)>
        ensures { MatchOption result (HasNoWhole self.now bytes.now)
            (λ piece. IsWhole self.now bytes.now piece.0 piece.1) }
    {
        if self.since != 0 || !self.kept.is_empty() {
            return None;
        }
        let start = zeros_in_front(bytes);
        let (_, rest) = bytes.split_at(start);
        let size = until_zero(rest);
        if size == 0 || size > LONGEST || size == rest.len() || !(self.zeros | (start > 0)) {
            return None;
        }
        Some((start, size))
    }

    /// Takes bytes up to and with the zero behind such a piece: that is told which the piece tells. Takes no memory.
    pub fn pass_piece<E>(&mut self, bytes: &[u8], start: usize, size: usize)
        requires { IsWhole self.old bytes.now start size }
        ensures { (tells : Tells E) (stream : List ℕ) → Stands self.old stream
            → Hears tells self.new stream (take (start + size + 1) bytes.now)
            (Some (tells.piece (take size (drop start bytes.now)))) }
    {
        let (taken, _) = bytes.split_at(start + size + 1);
        self.heard = self.heard.saturating_add(taken.len() as u64);
        self.zeros = true;
    }

    /// Begins anew, as one that has heard a zero alone. Takes no memory.
    pub fn begin(&mut self)
        ensures { Stands self.new (0 ∷ []) }
    {
        self.heard = 1;
        self.zeros = true;
        self.since = 0;
        self.kept.clear();
    }

    /// Whether the last byte that was heard is a zero. Takes no memory.
    pub fn is_between(&self) -> bool
        ensures is { result ≡ is_between self.now }
        ensures ended { result ≡ true → (stream : List ℕ) → Stands self.now stream → tail stream ≡ [] }
    {
        self.zeros && self.since == 0
    }

    /// Takes so many bytes that end with a zero, where the last byte before them is one too. What they tell is known elsewhere.
    pub fn pass_pieces<E>(&mut self, size: usize)
        requires { is_between self.old ≡ true }
        ensures { (tells : Tells E) (stream bytes : List ℕ) → Stands self.old stream
            → length bytes ≡ size → tail (0 ∷ bytes) ≡ []
            → HeardAs tells self.new stream bytes (begun tells (0 ∷ bytes)) }
    {
        self.heard = self.heard.saturating_add(size as u64);
    }

    /// What the end of the stream tells beyond what was answered: something of the front where no
    /// zero was heard and something was, of the tail where bytes follow the last zero, else
    /// nothing. Takes no memory.
    pub fn finish<T: Teller>(self, teller: &T) -> Option<T::Told>
        ensures { (stream : List ℕ) → Stands self stream
            → events (T.tells teller.now) stream
            ≡ begun (T.tells teller.now) stream ++ option_to_list result }
    {
        if self.since == 0 {
            None
        } else if self.zeros {
            Some(teller.cut_tail(self.since))
        } else {
            Some(teller.cut_front(self.since))
        }
    }

    // Zeros behind which nothing was open, and bytes that no zero ends.
    fn go_on(&mut self, skipped: usize, run: &[u8]) -> Result<(), Memory>
        requires only { self.old.since ≢ 0 → skipped ≡ 0 }
        requires none { has_zero run.now ≡ false }
        requires fits { skipped + length run.now < 2 ^ 64 - 1 }
        ensures hears { OnOk result (GoesOn self.old self.new skipped run.now) }
        ensures err { OnErr result (self.new ≡ self.old) }
    {
        let zeros = self.zeros | (skipped > 0);
        keep(zeros, &mut self.kept, run)?;
        self.heard = self.heard.saturating_add((skipped + run.len()) as u64);
        self.zeros = zeros;
        self.since = self.since.saturating_add(run.len() as u64);
        Ok(())
    }

    // The same, and the zero that ends them.
    fn close<T: Teller>(
        &mut self,
        teller: &mut T,
        skipped: usize,
        run: &[u8],
    ) -> Result<T::Told, Memory>
        requires only { self.old.since ≢ 0 → skipped ≡ 0 }
        requires none { has_zero run.now ≡ false }
        requires some { 0 < self.old.since + length run.now }
        requires fits { skipped + length run.now < 2 ^ 64 - 1 }
        ensures hears { IfOk result (λ told. (stream : List ℕ) → Stands self.old stream
            → Hears (T.tells teller.old) self.new stream
            (replicate skipped 0 ++ (run.now ++ 0 ∷ [])) (Some told)) }
        ensures err { OnErr result (self.new ≡ self.old) }
        ensures same { teller.new ≡ teller.old }
    {
        let zeros = self.zeros | (skipped > 0);
        let size = self.since.saturating_add(run.len() as u64);
        let told = tell(teller, zeros, size, &mut self.kept, run)?;
        self.heard = self.heard.saturating_add((skipped + run.len() + 1) as u64);
        self.zeros = true;
        self.since = 0;
        self.kept.clear();
        Ok(told)
    }
}

// How many zeros end nothing.
fn skip(since: u64, bytes: &[u8]) -> usize
    ensures within { result ≤ length bytes.now }
    ensures zeros { take result bytes.now ≡ replicate result 0 }
    ensures only { since ≢ 0 → result ≡ 0 }
    ensures other { since ≡ 0 → result < length bytes.now → slice_index bytes.now result ≢ 0 }
{
    if since == 0 {
        return zeros_in_front(bytes);
    }
    0
}

// Keeps the bytes behind a zero as far as the most goes.
fn keep(zeros: bool, kept: &mut Vec<u8>, run: &[u8]) -> Result<(), Memory>
    ensures more { OnOk result (zeros ≡ true
        → kept.new.items ≡ kept.old.items ++ take (65537 - length kept.old.items) run.now) }
    ensures same { OnOk result (zeros ≡ false → kept.new.items ≡ kept.old.items) }
    ensures err { OnErr result (kept.new.items ≡ kept.old.items) }
{
    if !zeros {
        return Ok(());
    }
    let room = KEPT.saturating_sub(kept.len());
    if run.len() <= room {
        kept.extend_from_slice(run)?;
    } else {
        kept.extend_from_slice(&run[..room])?;
    }
    Ok(())
}

// What a piece tells, whatever its length.
#[tactic(auto, unfolding(crate::specs::Told::of_piece))]
fn tell_piece<T: Teller>(teller: &mut T, piece: &[u8]) -> Result<T::Told, Memory>
    ensures told { IfOk result (λ told. told ≡ of_piece (T.tells teller.old) piece.now) }
    ensures same { teller.new ≡ teller.old }
{
    if piece.len() <= LONGEST {
        return teller.piece(piece);
    }
    Ok(teller.long())
}

// What the zero behind these bytes tells. A piece that stands whole in the run isn't copied.
fn tell<T: Teller>(
    teller: &mut T,
    zeros: bool,
    size: u64,
    kept: &mut Vec<u8>,
    run: &[u8],
) -> Result<T::Told, Memory>
    ensures piece { IfOk result (λ told. zeros ≡ true
        → told ≡ of_piece (T.tells teller.old)
        (kept.old.items ++ take (65537 - length kept.old.items) run.now)) }
    ensures front { IfOk result (λ told. zeros ≡ false
        → told ≡ (T.tells teller.old).cut_front size) }
    ensures err { OnErr result (kept.new.items ≡ kept.old.items) }
    ensures same { teller.new ≡ teller.old }
{
    if !zeros {
        return Ok(teller.cut_front(size));
    }
    if kept.is_empty() {
        return tell_piece(teller, run);
    }
    let before = kept.len();
    keep(zeros, kept, run)?;
    match tell_piece(teller, kept) {
        Ok(told) => Ok(told),
        Err(memory) => {
            kept.truncate(before);
            Err(memory)
        }
    }
}
