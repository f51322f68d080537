//! How a run under orders goes.
ghost use Rattle.std.specs.Prelude.{◌≡◌, ◌⊎◌, ◌<◌, ◌≤◌, ◌++◌, ℕ, List, true, [], IfOk, length};
ghost use Rattle.defmt_frames.specs.Frames.{count as count_of, pace_of};
ghost use Rattle.defmt_steer.specs.Steers.{IsSteeredRun, due};
ghost use Rattle.defmt_writers.specs.Runs.{HoldsStreams};
ghost use Rattle.rtt_down.specs.Kept.{IsKept};
ghost use Rattle.rtt_down.specs.Orders.{orders_joined};
ghost use Rattle.rtt_down.specs.Steered.{turns_of};
ghost use Rattle.rtt_ring.specs.Views.{new_down, new_up};
ghost use Rattle.shared_work.specs.Names.{AreNamed};
ghost use Rattle.writer_threads.specs.Passing.{Means, WasPassed, WasTold};

use crate::host::{HostEnds, Hosting, OrderSender, order_sender};
use defmt_hooks::{Clock, Level, Stamp};
use defmt_script::Script;
use defmt_writers::{RingEnds, SettledRing, prepare, settle, split_ring};
use dl_io::{Bytes, Memory};
use rtt_down::{EachTurn, Naming, Steered, Steering, Turns};
use rtt_ring::{Channel, Settled};
use shared_work::{Blanks, Eight, Names};
use std::alloc::Global;
use std::marker::Brand;
use std::sync::Wait;
use std::thread::Threads;
use writer_threads::{Gate, finish, run_threads};

// How many bytes the ring of orders has.
const RING_SIZE: u32 = 256;

/// What a run under orders answers.
#[derive(Drop)]
pub struct SteeredRun {
    /// The script that was run.
    pub script: Script,
    /// A turn for each statement, in the order in which the writers acquired the logger.
    pub turns: Turns,
    /// The account of the ring of frames.
    pub settled: Settled,
    /// The bytes that the reader took.
    pub captured: Bytes,
    /// The bytes of frames that were sent and not taken.
    pub rest: Bytes,
    /// The account of the ring of orders.
    pub orders: Settled,
    /// The bytes of orders that were sent and that no turn took.
    pub unheard: Bytes,
}

// Settles the ring of frames and that of orders.
fn settle_both<H: Channel>(
    alloc: Global,
    up: H::Up,
    reads: H::Down,
    sends: H::Up,
    down: H::Down,
) -> Result<(SettledRing, SettledRing), Memory>
    requires pair { (H.Up.view up).split ≡ (H.Down.view reads).split }
    requires staged { (H.Up.view up).staged ≡ [] }
    requires order_pair { (H.Up.view sends).split ≡ (H.Down.view down).split }
    requires order_staged { (H.Up.view sends).staged ≡ [] }
    ensures frames { IfOk result (λ r. (r.0.settled.sent ≡ (H.Up.view up).sent)
        × (r.0.settled.got ≡ (H.Down.view reads).got)
        × (r.0.settled.sent ≡ r.0.settled.got ++ r.0.rest.items)) }
    ensures orders { IfOk result (λ r. (r.1.settled.sent ≡ (H.Up.view sends).sent)
        × (r.1.settled.got ≡ (H.Down.view down).got)
        × (r.1.settled.sent ≡ r.1.settled.got ++ r.1.rest.items)) }
    ensures freed { IfOk result (λ r. (H.Up.view up).freed ≤ length r.0.settled.got) }
    ensures splits { IfOk result (λ r. (r.0.settled.split ≡ (H.Up.view up).split)
        × (r.1.settled.split ≡ (H.Up.view sends).split)) }
    ensures rings { IfOk result (λ r.
        (r.0.settled.ring ≡ H.KIND) × (r.1.settled.ring ≡ H.KIND)) }
{
    let frames = settle::<H>(alloc, up, reads)?;
    let orders = settle::<H>(alloc, sends, down)?;
    Ok((frames, orders))
}

// Settles the two rings of a run in which every statement has its turn, and of whose frames the host took what it has room for.
fn settle_steered<H: Channel, N: Hosting, K: Naming, G: Gate>(
    alloc: Global,
    turns: Turns,
    up: H::Up,
    down: H::Down,
    script: Script,
    host: OrderSender<'_, N, H::Up, H::Down, G>,
) -> Result<SteeredRun, Memory>
    requires script { script ≡ K.script }
    requires up { (H.Up.view up).split ≡ N.up }
    requires down { (H.Down.view down).split ≡ N.down }
    requires kept { IsKept (record {
      script = script;
      turns = turns;
      up = H.Up.view up;
      down = H.Down.view down;
    }) }
    requires all { (w : ℕ) → w < 8 → turns_of w turns.turns ≡ count_of K.script w }
    requires rest { ((H.Up.view up).freed ≡ length (H.Up.view up).sent)
        ⊎ (host.captured.room ≡ 0) }
    requires room { HoldsStreams K.script N.room }
    requires early { turns.ahead ≡ orders_joined (due N.plan 0) }
    requires plan { N.plan ≡ K.script.settings.orders }
    ensures script { IfOk result (λ r. r.script ≡ K.script) }
    ensures run { IfOk result (λ r. IsSteeredRun K.script
        r.turns r.settled r.captured.items r.rest.items r.orders r.unheard.items) }
    ensures rings { IfOk result (λ r. (r.settled.ring ≡ H.KIND) × (r.orders.ring ≡ H.KIND)) }
    ensures told { IfOk result (λ r. WasTold N.told 0 (length r.captured.items)) }
{
    let HostEnds {
        reads,
        captured,
        sends,
    } = host.into_parts();
    let (frames, orders) = settle_both::<H>(alloc, up, reads, sends, down)?;
    Ok(SteeredRun {
        script,
        turns,
        settled: frames.settled,
        captured,
        rest: frames.rest,
        orders: orders.settled,
        unheard: orders.rest,
    })
}

// Runs a script over the ends of two splits, under their names.
fn run_hosted<
    H: Channel,
    E: Names + Send,
    N: Hosting,
    K: Naming + Send,
    C: Clock + Send + Drop,
    G: Gate + Sync,
    R: Threads + Wait + Sync,
>(
    rt: &R,
    alloc: Global,
    blanks: Blanks,
    script: Script,
    orders: Vec<(u32, Level)>,
    stamp: Stamp<C>,
    gate: &G,
    ends: RingEnds<H::Up, H::Down>,
    sends: H::Up,
    down: H::Down,
) -> Result<SteeredRun, Memory>
    requires pace { stamp ≡ pace_of script.settings.stamp }
    requires plan { (orders.items ≡ N.plan) × (N.plan ≡ script.settings.orders) }
    requires up { H.Up.view ends.up
        ≡ new_up (H.Up.view ends.up).split (H.Up.view ends.up).size (H.Up.view ends.up).tells }
    requires reads { H.Down.view ends.down
        ≡ new_down (H.Up.view ends.up).split (H.Up.view ends.up).size }
    requires tells { (H.Up.view ends.up).tells ≡ true }
    requires captured { ends.captured.items ≡ [] }
    requires room { HoldsStreams script ends.captured.room }
    requires sends { H.Up.view sends ≡ new_up (H.Up.view sends).split 256 true }
    requires down { H.Down.view down ≡ new_down (H.Up.view sends).split 256 }
    requires names { (K.script ≡ script) × (K.up ≡ (H.Up.view ends.up).split)
        × (K.down ≡ (H.Up.view sends).split) × (K.tells ≡ true) }
    requires hosted { (N.up ≡ (H.Up.view ends.up).split)
        × (N.down ≡ (H.Up.view sends).split) × (N.room ≡ ends.captured.room) }
    requires means { Means (G.told gate.now) N.told }
    requires ledgers { AreNamed blanks E.names }
    ensures script { IfOk result (λ r. r.script ≡ K.script) }
    ensures run { IfOk result (λ r. IsSteeredRun K.script
        r.turns r.settled r.captured.items r.rest.items r.orders r.unheard.items) }
    ensures rings { IfOk result (λ r. (r.settled.ring ≡ H.KIND) × (r.orders.ring ≡ H.KIND)) }
    ensures asked { IfOk result (λ _.
        (w : ℕ) → w < 8 → WasPassed (G.passed gate.now w) 0 (count_of K.script w)) }
    ensures told { IfOk result (λ r. WasTold N.told 0 (length r.captured.items)) }
{
    script.lawful();
    let RingEnds {
        up,
        down: reads,
        captured,
    } = ends;
    let host = order_sender::<N, H::Up, H::Down, G>(reads, captured, sends, orders, gate);
    let (mut steered, helms) = Steered::<
        Eight<E>,
        EachTurn<K>,
        Steering<K, H::Up, H::Down, C>,
    >::start(alloc, blanks, script, stamp, up, down)?;
    steered.note_sent(&helms, &host.sends);
    let (mut helms, mut host) = run_threads(rt, steered.shared(), helms, gate, true, host);
    finish(rt, steered.shared(), &mut helms, gate, &mut host);
    let (turns, mut up, down, script) = steered.close(helms);
    host.take_rest(rt, &mut up);
    settle_steered::<H, N, K, G>(alloc, turns, up, down, script, host)
}

// The orders of a script.
fn orders_of(alloc: Global, script: &Script) -> Result<Vec<(u32, Level)>, Memory>
    ensures { IfOk result (λ orders. orders.items ≡ script.now.settings.orders) }
{
    script.lawful();
    let mut orders = Vec::new(alloc);
    let mut number = 0;
    while let Some(order) = script.order(number) {
        orders.push(order)?;
        number += 1;
    }
    Ok(orders)
}

// The orders of a script, the ends of the ring of frames, and those of the ring of orders.
fn prepare_steered<H: Channel>(
    alloc: Global,
    script: &Script,
) -> Result<
    (
        Vec<(u32, Level)>,
        RingEnds<H::Up, H::Down>,
        (H::Up, H::Down),
    ),
    Memory,
>
    requires { H.tells ≡ true }
    ensures orders { IfOk result (λ p. p.0.items ≡ script.now.settings.orders) }
    ensures up { IfOk result (λ p. H.Up.view p.1.up
        ≡ new_up (H.Up.view p.1.up).split (H.Up.view p.1.up).size (H.Up.view p.1.up).tells) }
    ensures reads { IfOk result (λ p. H.Down.view p.1.down
        ≡ new_down (H.Up.view p.1.up).split (H.Up.view p.1.up).size) }
    ensures tells { IfOk result (λ p. (H.Up.view p.1.up).tells ≡ true) }
    ensures captured { IfOk result (λ p. p.1.captured.items ≡ []) }
    ensures room { IfOk result (λ p. HoldsStreams script.now p.1.captured.room) }
    ensures sends { IfOk result (λ p. H.Up.view p.2.0
        ≡ new_up (H.Up.view p.2.0).split 256 true) }
    ensures down { IfOk result (λ p. H.Down.view p.2.1
        ≡ new_down (H.Up.view p.2.0).split 256) }
{
    let orders = orders_of(alloc, script)?;
    let ends = prepare::<H>(alloc, script)?;
    let order_ends = split_ring::<H>(alloc, RING_SIZE)?;
    Ok((orders, ends, order_ends))
}

/// Runs a script under orders: a thread for each writer that has statements takes their turns, and the calling thread reads the
/// frames and sends the orders.
///
/// The stamp counts as the script's stamps do, and by 0 and 0 without them. Each order is sent once as many frames were captured
/// as it says, behind the one in front of it; those that are due at first are sent before any turn is taken, and the others as far
/// as they are due after the last take, behind which no byte of frames is left. The gate is asked before each statement, and told
/// the total of each take that took something; that it was asked at each place is a clause, that it was asked before the statement
/// isn't. A writer whose thread couldn't be started is run by the calling thread. The call waits for its threads.
///
/// # Errors
/// `Memory` where there is none.
pub fn run_steered<H: Channel, C: Clock + Send + Drop, G: Gate + Sync, R: Threads + Wait + Sync>(
    rt: &R,
    alloc: Global,
    script: Script,
    stamp: Stamp<C>,
    gate: &G,
) -> Result<SteeredRun, Memory>
    requires pace { stamp ≡ pace_of script.settings.stamp }
    requires tells { H.tells ≡ true }
    ensures script { IfOk result (λ r. r.script ≡ script) }
    ensures run { IfOk result (λ r. IsSteeredRun script
        r.turns r.settled r.captured.items r.rest.items r.orders r.unheard.items) }
    ensures rings { IfOk result (λ r. (r.settled.ring ≡ H.KIND) × (r.orders.ring ≡ H.KIND)) }
    ensures asked { IfOk result (λ _.
        (w : ℕ) → w < 8 → WasPassed (G.passed gate.now w) 0 (count_of script w)) }
    ensures told { IfOk result (λ r. WasTold (G.told gate.now) 0 (length r.captured.items)) }
{
    let (orders, ends, (sends, down)) = prepare_steered::<H>(alloc, &script)?;
    run_hosted::<H, Brand, Brand, Brand, C, G, R>(
        rt,
        alloc,
        Blanks::new(),
        script,
        orders,
        stamp,
        gate,
        ends,
        sends,
        down,
    )
}
