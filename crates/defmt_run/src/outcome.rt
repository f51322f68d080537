//! What a session came to.
ghost use Rattle.std.specs.Prelude.{◌≡◌, IfOk};
ghost use Rattle.defmt_recording.specs.Status.{status_of, said};
ghost use Rattle.defmt_run.specs.Told.{IsUntold, told};

use defmt_decode::Events;
use defmt_grammar::Text;
use defmt_logger::Tape;
use defmt_recording::Fault;
use dl_io::Memory;
use rtt_booth::Said;
use rtt_down::Turns;
use rtt_ring::Settled;
use std::alloc::Global;

/// What a session answers. `tape`, `settled` and `looks` tell of the run of a script by `run`, `record`, `term` and `gen`,
/// `events` of that by `run`, `term` and `gen`, `said` and `term` of that by `term`, and `turns`, `settled`, `orders` and `events`
/// of that by `steer`. They are so where the fault is `Fine` or `Sink`. At every other fault, and for the other commands, they are
/// empty, `None` and 0.
#[derive(Drop)]
pub struct Outcome {
    /// The status, which the program ends with.
    pub status: u8,
    /// What it came to; the status is this fault's.
    pub fault: Fault,
    /// A mark for each statement, in the order in which the writers acquired the logger.
    pub tape: Tape,
    /// The account of the ring: what was sent, and what the reader took of it.
    pub settled: Option<Settled>,
    /// What the host told of what was sent.
    pub events: Events,
    /// How many looks at the ring the logger made.
    pub looks: u64,
    /// A word for each text that was said on a terminal, in the order in which the writers acquired the booth.
    pub said: Said,
    /// The account of the terminals' ring.
    pub term: Option<Settled>,
    /// A turn for each statement of a run under orders, in the order in which the writers acquired the logger.
    pub turns: Turns,
    /// The account of the ring of orders.
    pub orders: Option<Settled>,
}

impl Outcome {
    // The outcome where nothing was run.
    pub(crate) fn silent(alloc: Global, fault: Fault) -> Self
        ensures fault { result.fault ≡ fault }
        ensures status { result.status ≡ status_of fault }
        ensures untold { IsUntold (told result) }
    {
        Outcome {
            status: fault.status(),
            fault,
            tape: Tape::new(alloc),
            settled: None,
            events: Events::new(alloc),
            looks: 0,
            said: Said::new(alloc),
            term: None,
            turns: Turns::new(alloc),
            orders: None,
        }
    }

    /// The words that tell the fault, without a newline.
    pub fn say(&self, alloc: Global) -> Result<Text, Memory>
        ensures { IfOk result (λ text. text ≡ said self.now.fault) }
    {
        self.fault.say(alloc)
    }
}
