//! A reader that reads while its own thread logs.
ghost use Rattle.std.specs.Prelude.{◌≡◌, ℕ, [], length};
ghost use Rattle.dl_io.specs.Buffer.{Buffer};
ghost use Rattle.defmt_writers.specs.Takes.{Takes};
ghost use Rattle.rtt_ring.specs.Views.{Down, new_down};
ghost use Rattle.writer_threads.specs.Passing.{Means, PassedAll, ToldAll, WasTold};

use crate::reader::{take, take_all};
use defmt_logger::Logger;
use dl_io::Bytes;
use rtt_modes::Relief;
use rtt_ring::{Channel, DownEnd};
use shared_work::{Books, HasBook, Pen, Quota, Shared, Work};
use std::marker::{Brand, PhantomData};
use std::sync::Wait;
use std::sync::ledger::Ledger;
use writer_threads::{Gate, log_all};

// Which lower end and which capture were lent, what they were then, and what the gate shows where it is told a total.
trait Lent {
    // The names of the two loans.
    ghost down: { ℕ };

    ghost capture: { ℕ };

    // The end and the capture.
    ghost before: { Down };

    ghost had: { Buffer };

    // So many bytes were told.
    ghost told: { ℕ → Type 0 };
}

impl Lent for Brand {
    ghost down = { 0 };

    ghost capture = { 0 };

    ghost before = { new_down [] 0 };

    ghost had = { record { items = []; room = 0 } };

    ghost told = { λ _. Unit {0} };
}

// A lower end and what was captured of it, both lent.
#[derive(Drop)]
struct Loan<'s, D: DownEnd> {
    down: &'s mut D,
    capture: &'s mut Bytes,
}

impl<'s, D: DownEnd> Loan<'s, D> {
    // Takes bytes that are there, as far as there is room for them, and tells the gate.
    fn take<G: Gate>(&mut self, gate: &G)
        requires got { (D.view self.old.down.now).got ≡ self.old.capture.now.items }
        ensures got { (D.view self.new.down.now).got ≡ self.new.capture.now.items }
        ensures split { (D.view self.new.down.now).split ≡ (D.view self.old.down.now).split }
        ensures takes { Takes (D.view self.old.down.now) (D.view self.new.down.now)
            self.old.capture.now self.new.capture.now 1 }
        ensures told { ToldAll (G.told gate.now)
            (length self.old.capture.now.items) (length self.new.capture.now.items) }
        ensures same_down { self.new.down.ghost_name ≡ self.old.down.ghost_name }
        ensures same_capture { self.new.capture.ghost_name ≡ self.old.capture.ghost_name }
    {
        take(self.down, self.capture, gate);
    }

    // Takes until nothing is there, or there is no room.
    fn take_all<G: Gate>(&mut self, gate: &G)
        requires got { (D.view self.old.down.now).got ≡ self.old.capture.now.items }
        ensures got { (D.view self.new.down.now).got ≡ self.new.capture.now.items }
        ensures split { (D.view self.new.down.now).split ≡ (D.view self.old.down.now).split }
        ensures takes { Takes (D.view self.old.down.now) (D.view self.new.down.now)
            self.old.capture.now self.new.capture.now 0 }
        ensures told { ToldAll (G.told gate.now)
            (length self.old.capture.now.items) (length self.new.capture.now.items) }
        ensures same_down { self.new.down.ghost_name ≡ self.old.down.ghost_name }
        ensures same_capture { self.new.capture.ghost_name ≡ self.old.capture.ghost_name }
    {
        take_all(self.down, self.capture, gate)
    }
}

// The relief that reads: each ease takes what is there. The capture holds exactly what the end has got; and the end and the
// capture are those that were lent, the end from the split that it was from, after takes and nothing else. The gate was told of
// each take.
#[derive(Drop)]
struct Serving<'s, 'g, N: Lent, D: DownEnd, G: Gate> {
    loan: Loan<'s, D>,
    gate: &'g G,
    of: PhantomData<N>,
    ghost means: { Means (G.told gate.now) N.told },
    ghost told: { WasTold N.told (length N.had.items) (length loan.capture.now.items) },
}

impl<'s, 'g, N: Lent, D: DownEnd, G: Gate> Relief for Serving<'s, 'g, N, D, G> {
    ghost kept = { λ s. ((D.view s.loan.down.now).got ≡ s.loan.capture.now.items)
        × ((D.view s.loan.down.now).split ≡ N.before.split)
        × (s.loan.down.ghost_name ≡ N.down) × (s.loan.capture.ghost_name ≡ N.capture)
        × Takes N.before (D.view s.loan.down.now) N.had s.loan.capture.now 1 };

    fn ease(&mut self) {
        self.loan.take(self.gate);
    }
}

// Does the steps that the pen has left, with a relief that reads, takes all that is there then, and gives the loan back.
fn serve_named<
    's,
    N: Lent,
    B: Books,
    Q: Quota,
    T: Work<Q>,
    S: HasBook<B, L>,
    L: Ledger,
    D: DownEnd,
    G: Gate,
    W: Wait,
>(
    rt: &W,
    shared: &Shared<B, Q, T>,
    pen: &mut Pen<S, L, Q>,
    loan: Loan<'s, D>,
    gate: &G,
) -> Loan<'s, D>
    requires got { (D.view loan.down.now).got ≡ loan.capture.now.items }
    requires before { (D.view loan.down.now ≡ N.before) × (loan.capture.now ≡ N.had) }
    requires lent { (loan.down.ghost_name ≡ N.down) × (loan.capture.ghost_name ≡ N.capture) }
    requires means { Means (G.told gate.now) N.told }
    ensures place { pen.new.place ≡ pen.new.total }
    ensures asked { PassedAll (G.passed gate.now S.NUMBER) pen.old.place pen.new.place }
    ensures got { (D.view result.down.now).got ≡ result.capture.now.items }
    ensures split { (D.view result.down.now).split ≡ N.before.split }
    ensures takes { Takes N.before (D.view result.down.now) N.had result.capture.now 0 }
    ensures told { WasTold N.told (length N.had.items) (length result.capture.now.items) }
    ensures lent { (result.down.ghost_name ≡ N.down) × (result.capture.ghost_name ≡ N.capture) }
{
    let mut serving = Serving::<N, D, G> {
        loan,
        gate,
        of: PhantomData,
    };
    log_all(rt, shared, pen, gate, &mut serving);
    let Serving { mut loan, .. } = serving;
    loan.take_all(gate);
    loan
}

// Does the steps that the pen has left. Where a step waits, bytes that are there are taken; and behind the last all that is there.
pub(crate) fn serve<
    B: Books,
    Q: Quota,
    T: Work<Q>,
    S: HasBook<B, L>,
    L: Ledger,
    D: DownEnd,
    G: Gate,
    W: Wait,
>(
    rt: &W,
    shared: &Shared<B, Q, T>,
    pen: &mut Pen<S, L, Q>,
    down: &mut D,
    capture: &mut Bytes,
    gate: &G,
)
    requires got { (D.view down.old).got ≡ capture.old.items }
    ensures place { pen.new.place ≡ pen.new.total }
    ensures asked { PassedAll (G.passed gate.now S.NUMBER) pen.old.place pen.new.place }
    ensures got { (D.view down.new).got ≡ capture.new.items }
    ensures split { (D.view down.new).split ≡ (D.view down.old).split }
    ensures takes { Takes (D.view down.old) (D.view down.new) capture.old capture.new 0 }
    ensures told { WasTold (G.told gate.now) (length capture.old.items) (length capture.new.items) }
{
    let loan = Loan { down, capture };
    serve_named::<Brand, B, Q, T, S, L, D, G, W>(rt, shared, pen, loan, gate);
}

/// Logs the statements that a pen has left, on the calling thread. In blocking mode, where a frame waits for room, bytes are
/// taken at the ring's lower end and captured, as far as the capture has room for them. Behind the last statement all that is
/// there is taken.
///
/// The pen is one of this logger's, as its type says, and `count` is how many statements its writer has, by the logger's
/// quota. The capture holds exactly what the lower end has got, before and afterwards; the end stays one of the same split.
/// The pen's place is then `count`. The gate is asked before each statement, and told of each take that took something. The
/// call takes no memory. It may wait, for the logger and in blocking mode for room.
pub fn serve_here<
    H: Channel,
    B: Books,
    Q: Quota,
    T: Work<Q>,
    S: HasBook<B, L>,
    L: Ledger,
    G: Gate,
    W: Wait,
>(
    rt: &W,
    logger: &Logger<B, Q, T>,
    count: u32,
    pen: &mut Pen<S, L, Q>,
    down: &mut H::Down,
    capture: &mut Bytes,
    gate: &G,
)
    requires count { count ≡ Q.quota S.NUMBER }
    requires got { (H.Down.view down.old).got ≡ capture.old.items }
    ensures place { pen.new.place ≡ count }
    ensures asked { PassedAll (G.passed gate.now S.NUMBER) pen.old.place pen.new.place }
    ensures got { (H.Down.view down.new).got ≡ capture.new.items }
    ensures split { (H.Down.view down.new).split ≡ (H.Down.view down.old).split }
    ensures takes { Takes (H.Down.view down.old) (H.Down.view down.new) capture.old capture.new 0 }
    ensures told { WasTold (G.told gate.now) (length capture.old.items) (length capture.new.items) }
{
    serve(rt, logger.shared(), pen, down, capture, gate)
}
