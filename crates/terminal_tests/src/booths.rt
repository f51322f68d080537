//! A booth over a plain ring, on one thread.
ghost use Rattle.std.specs.Prelude.{◌≡◌, [], ⊤};
ghost use Rattle.rtt_ring.specs.PlainView.{up_of};
ghost use Rattle.rtt_ring.specs.Views.{new_up};
ghost use Rattle.shared_work.specs.Names.{AreNamed};

use crate::rows::{Kind, each_block};
use dl_io::Bytes;
use rtt_booth::{Booth, EachText, Naming, Said, Speaking, Word};
use rtt_modes::Relief;
use rtt_ring::PlainRing;
use rtt_terminal::{Speech, is_sayable};
use shared_work::{Blanks, Books, Eight, HasBook, Names, Pen, Quota, Work};
use std::alloc::Global;
use std::fmt::Write;
use std::marker::Brand;
use std::sync::Wait;
use std::sync::ledger::Ledger;
use std::test::Fail;
use test_rows::{put_digits, put_str};

// The writer, the terminal and the text of each saying: what came of them where the writer 1 says a text, then the writer 0
// three, as far as they have them.
const SAID: &str = "\
0 0 ready
0 0 done
1 10 tick
=
1.0
0.0
0.1
3 words, room for 4093
sent ff 41 74 69 63 6b 0a ff 30 72 65 61 64 79 0a 64 6f 6e 65 0a

0 15 a
0 15 b
0 0 c
0 1 d
=
0.0
0.1
0.2
3 words, room for 4093
sent ff 46 61 0a 62 0a ff 30 63 0a

7 3 e
=
0 words, room for 4096
sent nothing";

// Waits for nobody.
#[derive(Drop)]
struct NoRelief;

impl Relief for NoRelief {
    ghost kept = { λ _. ⊤ };

    fn ease(&mut self) {}
}

// Says the next text of a voice, where it has one left.
fn say_by<B: Books, Q: Quota, T: Work<Q>, S: HasBook<B, L>, L: Ledger, W: Wait>(
    rt: &W,
    booth: &Booth<B, Q, T>,
    voice: &mut Pen<S, L, Q>,
) {
    if voice.place() < voice.total() {
        booth.say(rt, voice, &mut NoRelief);
    }
}

// Says the next three texts of a voice, as far as it has them.
fn say_three_by<B: Books, Q: Quota, T: Work<Q>, S: HasBook<B, L>, L: Ledger, W: Wait>(
    rt: &W,
    booth: &Booth<B, Q, T>,
    voice: &mut Pen<S, L, Q>,
) {
    for _ in 0..3 {
        say_by(rt, booth, voice);
    }
}

fn put_saying(speech: &mut Speech, writer: u8, terminal: u8, text: &str) -> Result<(), Fail> {
    if writer > 7 || terminal > 15 || !is_sayable(text) || speech.len() >= 4096 {
        return Err(Fail::new("not to be said"));
    }
    Ok(speech.push(writer, 0, terminal, text)?)
}

// Puts the saying of a line, which is its writer, its terminal and its text.
fn put_line(speech: &mut Speech, line: &str) -> Result<(), Fail> {
    let (writer, rest) = line.split_once(" ").unwrap_or((line, ""));
    let (terminal, text) = rest.split_once(" ").unwrap_or((rest, ""));
    put_saying(speech, writer.parse::<u8>()?, terminal.parse::<u8>()?, text)
}

fn speech_of(alloc: Global, lines: &str) -> Result<Speech, Fail> {
    let mut speech = Speech::new(alloc)?;
    for line in lines.split("\n") {
        put_line(&mut speech, line)?;
    }
    Ok(speech)
}

// Puts a line for each word, and how many there are.
fn put_words(said: &Said, out: &mut String) -> Result<(), Fail> {
    for word in said.as_slice() {
        let Word { writer, place } = *word;
        write!(out, "{writer}.{place}\n")?;
    }
    let (count, spare) = (said.len(), said.spare());
    Ok(write!(out, "{count} words, room for {spare}\n")?)
}

// Puts the words that were said, and what the ring sent.
fn put_sent(alloc: Global, said: &Said, ring: PlainRing, out: &mut String) -> Result<(), Fail>
    requires { (up_of ring).staged ≡ [] }
{
    put_words(said, out)?;
    put_str(out, "sent ")?;
    let mut sent = Bytes::new(alloc);
    ring.settle(&mut sent)?;
    if sent.is_empty() {
        return put_str(out, "nothing");
    }
    put_digits(out, sent.as_slice())
}

// Says a text of the writer 1 and three of the writer 0, as far as they have them, and closes the booth.
fn say_by_voices<E: Names, K: Naming, W: Wait>(
    rt: &W,
    alloc: Global,
    blanks: Blanks,
    speech: &Speech,
    ring: PlainRing,
    out: &mut String,
) -> Result<(), Fail>
    requires fresh { up_of ring ≡ new_up (up_of ring).split (up_of ring).size (up_of ring).tells }
    requires names { (K.speech ≡ speech.now) × (K.split ≡ (up_of ring).split)
        × (K.tells ≡ (up_of ring).tells) }
    requires ledgers { AreNamed blanks E.names }
{
    let (booth, mut voices) = Booth::<Eight<E>, EachText<K>, Speaking<K, PlainRing>>::start(
        alloc, blanks, speech, ring,
    )?;
    say_by(rt, &booth, &mut voices.p1);
    say_three_by(rt, &booth, &mut voices.p0);
    let (said, ring) = booth.close(voices);
    put_sent(alloc, &said, ring, out)
}

// The ring has room for all that is said, since nobody reads it.
pub(crate) fn put_said<W: Wait>(
    rt: &W,
    alloc: Global,
    lines: &str,
    out: &mut String,
) -> Result<(), Fail> {
    let speech = speech_of(alloc, lines)?;
    let Ok(ring) = PlainRing::split(alloc, 1024) else {
        return Err(Fail::new("no ring"));
    };
    say_by_voices::<Brand, Brand, _>(rt, alloc, Blanks::new(), &speech, ring, out)
}

#[test]
fn voices_say_their_texts_in_order(rt: HostRuntime) -> Result<(), Fail> {
    each_block(&rt, rt.alloc(), SAID, 3, &Kind::Said)
}
