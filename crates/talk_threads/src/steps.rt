//! Who does the steps of the writers.
ghost use Rattle.std.specs.Prelude.{◌≡◌, ◌<◌, ◌+◌};

use rtt_modes::Relief;
use rtt_terminal::Speech;
use shared_work::{Books, HasBook, Pen, Quota, Shared, Work};
use std::sync::Wait;
use std::sync::ledger::Ledger;
use writer_threads::{Gate, log_next};

/// Logs the statements and says the texts of writers, one at a time, and each only where it may.
///
/// It is known to do a step where that comes next in its writer's lines, and nowhere else: whoever has steps done has to show each
/// time that this one comes next.
pub trait Steps<B: Books, Q: Quota, C: Books, P: Quota> {
    ghost use Rattle.std.specs.Prelude.{ℕ};
    ghost use Rattle.rtt_terminal.specs.Speech.{Speech as Said};
    ghost use Rattle.talk_threads.specs.InFront.{InOrder};

    /// What the writers have to say.
    ghost speech: { Self → Said };

    /// A writer may log its statement at a place where it has said so many texts of so many.
    ghost logs: { Self → ℕ → ℕ → ℕ → ℕ → Type 0 };

    /// A writer may say its text at a place where it has logged so many statements of so many.
    ghost says: { Self → ℕ → ℕ → ℕ → ℕ → Type 0 };

    /// What the writers have to say.
    fn speech(&self) -> &Speech
        ensures { result.now ≡ speech self.now };

    /// Logs the next statement of a pen, behind the gate.
    fn log<S: HasBook<B, L>, L: Ledger, V: HasBook<C, M>, M: Ledger, G: Gate, R: Relief, W: Wait>(
        &self,
        rt: &W,
        pen: &mut Pen<S, L, Q>,
        voice: &Pen<V, M, P>,
        gate: &G,
        relief: &mut R,
    )
        requires same { S.NUMBER ≡ V.NUMBER }
        requires more { pen.old.place < pen.old.total }
        requires next { logs self.now V.NUMBER pen.old.place voice.now.place voice.now.total }
        requires relief { R.kept relief.old }
        ensures place { pen.new.place ≡ pen.old.place + 1 }
        ensures asked { G.passed gate.now S.NUMBER pen.old.place }
        ensures relief { R.kept relief.new };

    /// Says the next text of a voice.
    fn say<S: HasBook<B, L>, L: Ledger, V: HasBook<C, M>, M: Ledger, R: Relief, W: Wait>(
        &self,
        rt: &W,
        pen: &Pen<S, L, Q>,
        voice: &mut Pen<V, M, P>,
        relief: &mut R,
    )
        requires same { S.NUMBER ≡ V.NUMBER }
        requires more { voice.old.place < voice.old.total }
        requires next { says self.now V.NUMBER voice.old.place pen.now.place pen.now.total }
        requires relief { R.kept relief.old }
        ensures place { voice.new.place ≡ voice.old.place + 1 }
        ensures relief { R.kept relief.new };

    /// A step may be done where it comes next.
    ghost in_order: { (steps : Self) → InOrder (speech steps) (logs steps) (says steps) };
}

/// What the writers share. Each work has a lock of its own. A step is done only by [`Steps`], where it comes next in its writer's
/// lines.
#[derive(Drop)]
pub struct Stage<'s, B: Books, Q: Quota, T: Work<Q>, C: Books, P: Quota, X: Work<P>> {
    log: &'s Shared<B, Q, T>,
    booth: &'s Shared<C, P, X>,
    speech: &'s Speech,
}

impl<'s, B: Books, Q: Quota, T: Work<Q>, C: Books, P: Quota, X: Work<P>> Stage<
    's,
    B,
    Q,
    T,
    C,
    P,
    X,
> {
    /// The work of logging, the work of saying, and what the writers have to say.
    pub fn new(log: &'s Shared<B, Q, T>, booth: &'s Shared<C, P, X>, speech: &'s Speech) -> Self
        ensures log { result.log.now ≡ log.now }
        ensures booth { result.booth.now ≡ booth.now }
        ensures speech { result.speech.now ≡ speech.now }
    {
        Stage { log, booth, speech }
    }
}

impl<'s, B: Books, Q: Quota, T: Work<Q>, C: Books, P: Quota, X: Work<P>> Steps<B, Q, C, P>
    for Stage<'s, B, Q, T, C, P, X> {
    ghost use Rattle.talk_threads.specs.InFront.{LogsNext, SaysNext};

    ghost speech = { λ stage. stage.speech.now };

    ghost logs = { λ stage. LogsNext stage.speech.now };

    ghost says = { λ stage. SaysNext stage.speech.now };

    ghost in_order = { λ stage. record {
      statement = λ writer place said texts next. next;
      text = λ writer place logged statements next. next;
    } };

    fn speech(&self) -> &Speech {
        self.speech
    }

    fn log<S: HasBook<B, L>, L: Ledger, V: HasBook<C, M>, M: Ledger, G: Gate, R: Relief, W: Wait>(
        &self,
        rt: &W,
        pen: &mut Pen<S, L, Q>,
        _: &Pen<V, M, P>,
        gate: &G,
        relief: &mut R,
    ) {
        log_next(rt, self.log, pen, gate, relief);
    }

    fn say<S: HasBook<B, L>, L: Ledger, V: HasBook<C, M>, M: Ledger, R: Relief, W: Wait>(
        &self,
        rt: &W,
        _: &Pen<S, L, Q>,
        voice: &mut Pen<V, M, P>,
        relief: &mut R,
    ) {
        self.booth.step(rt, voice, relief);
    }
}
