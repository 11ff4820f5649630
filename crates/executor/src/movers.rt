//! Movers: evacuators and fetchers, which go on until every program has ended.
ghost use Rattle.std.specs.Prelude.{◌≡◌, ◌≤◌, [], length, vec_capacity, vec_len};
ghost use Rattle.object_moves.specs.Ways.{did_of};
ghost use Rattle.executor.specs.Ends.{AreSame, IsSeatOf};
ghost use Rattle.executor.specs.Given.{AreGivenBack, IsGivenBack};
ghost use Rattle.executor.specs.Movers.{IsOf};
ghost use Rattle.evacuator.specs.Rounds.{HasMadeRounds};
ghost use Rattle.fetcher.specs.Serving.{HasServed};
ghost use Rattle.object_lock.specs.SeatViews.{IsSeat};
ghost use Rattle.pointer_word.specs.Asked.{HasNothing};

use crate::counts::{Evacuated, Fetched, MoverCounts};
use evacuator::round_from;
use fetcher::{HintPass, Hints, Served, serve_one};
use object_lock::MoverSeat;
use program_run::Gate;
use region::Region;
use remote_store::RawStore;
use std::hint::spin_loop;
use std::marker::Model;
use std::sync::Wait;
use std::sync::atomic::{AtomicUsize, Ordering};
use std::thread;
use std::thread::Threads;
use std::time::{Clock, Duration};

/// At how many frames an evacuator looks in a round.
const BUDGET: u32 = 16;

/// Evacuators make rounds only while fewer than one frame in so many is free.
const SHARE: usize = 8;

/// After so many turns with nothing to do a mover or a worker yields its processor at each turn.
const SPINS: u32 = 16;

/// After so many turns with nothing to do a mover or a worker sleeps at each turn.
const YIELDS: u32 = 64;

/// How long a mover or a worker sleeps, in microseconds.
const SLEEP_MICROS: u64 = 1_000;

/// An evacuator at its seat, which goes round the frames like the hand of a clock. Its hands are empty, and all that it did are rounds.
#[derive(Drop)]
pub(crate) struct SeatedEvacuator<'a, S: RawStore> {
    region: &'a Region<S>,
    number: u32,
    seat: MoverSeat<S>,
    // The frame at which the next round begins.
    next: usize,
    counts: Evacuated,
}

impl<'a, S: RawStore> Model for SeatedEvacuator<'a, S> {
    ghost use Rattle.evacuator.specs.Rounds.{HasMadeRounds};
    ghost use Rattle.object_lock.specs.SeatViews.{IsSeat};
    ghost use Rattle.object_moves.specs.Ways.{did_of};
    ghost use Rattle.pointer_word.specs.Asked.{HasNothing};
    ghost use Rattle.executor.specs.Movers.{MoverView};

    ghost Value = { MoverView };

    ghost view = { λ e. record { table = e.region.now.table; mover = e.seat.view.number } };

    ghost invariant = { λ e. IsSeat e.region.now.table e.seat × HasNothing e.seat.view.hand × HasMadeRounds S.reliable e.region.now.table.sizes e.seat.view.number (did_of e.seat) };
}

/// A fetcher at its seat, with its pass of the hints. Its hands are empty, and all that it did it did with hints.
#[derive(Drop)]
pub(crate) struct SeatedFetcher<'a, S: RawStore> {
    region: &'a Region<S>,
    hints: &'a Hints,
    number: u32,
    seat: MoverSeat<S>,
    pass: HintPass,
    counts: Fetched,
}

impl<'a, S: RawStore> Model for SeatedFetcher<'a, S> {
    ghost use Rattle.fetcher.specs.Serving.{HasServed};
    ghost use Rattle.object_lock.specs.SeatViews.{IsSeat};
    ghost use Rattle.object_moves.specs.Ways.{did_of};
    ghost use Rattle.pointer_word.specs.Asked.{HasNothing};
    ghost use Rattle.executor.specs.Movers.{MoverView};
    ghost use Rattle.std.specs.Prelude.{◌≡◌};

    ghost Value = { MoverView };

    ghost view = { λ f. record { table = f.region.now.table; mover = f.seat.view.number } };

    ghost invariant = { λ f. IsSeat f.region.now.table f.seat × HasNothing f.seat.view.hand × (f.pass ≡ f.hints.now) × (f.hints.now.objects ≡ f.region.now.objects) × HasServed S.reliable f.region.now.table.sizes f.seat.view.number (did_of f.seat) };
}

/// An evacuator or a fetcher.
#[derive(Drop)]
pub(crate) enum Mover<'a, S: RawStore> {
    Evacuates(SeatedEvacuator<'a, S>),
    Fetches(SeatedFetcher<'a, S>),
}

/// Whether fewer than `wanted` frames are free, by one look at each until so many are seen.
fn lacks_frames<S: RawStore>(region: &Region<S>, seat: &mut MoverSeat<S>, wanted: usize) -> bool
    requires table { IsSeat region.now.table seat.old }
    ensures same { seat.new ≡ seat.old }
{
    let table = region.table();
    let mut free = 0;
    for frame in 0..table.frames() {
        if free >= wanted {
            return false;
        }
        if table.look(seat, frame).is_none() {
            free += 1;
        }
    }
    free < wanted
}

impl<'a, S: RawStore> SeatedEvacuator<'a, S> {
    /// An evacuator of this number at its seat.
    pub(crate) fn new(
        region: &'a Region<S>,
        number: u32,
        seat: MoverSeat<S>,
    ) -> SeatedEvacuator<'a, S>
        requires seat { IsSeatOf region.now.table seat }
        ensures { result ≡ record { table = region.now.table; mover = seat.view.number } }
    {
        SeatedEvacuator {
            region,
            number,
            seat,
            next: 0,
            counts: Evacuated::none(),
        }
    }

    /// Makes a round where frames are short, which they never are where all objects have room in them. False where it found nothing to move out.
    fn turn(&mut self) -> bool
        ensures { self.new ≡ self.old }
    {
        let frames = self.region.table().frames();
        if self.region.objects() <= frames {
            return false;
        }
        if !lacks_frames(self.region, &mut self.seat, frames / SHARE + 1) {
            return false;
        }
        let round = round_from(self.region, &mut self.seat, self.next, BUDGET);
        self.next = (self.next.wrapping_add(BUDGET as usize)) % frames.max(1);
        self.counts.add(round);
        round.left > 0
    }

    /// Its seat, at which all that was done are its rounds.
    fn into_seat(self) -> MoverSeat<S>
        ensures of { IsOf self.entry result }
        ensures did { HasMadeRounds S.reliable self.entry.table.sizes self.entry.mover (did_of result) }
    {
        self.seat
    }
}

impl<'a, S: RawStore> SeatedFetcher<'a, S> {
    /// A fetcher of this number at its seat, with a pass of the hints.
    pub(crate) fn new(
        region: &'a Region<S>,
        hints: &'a Hints,
        number: u32,
        seat: MoverSeat<S>,
        pass: HintPass,
    ) -> SeatedFetcher<'a, S>
        requires seat { IsSeatOf region.now.table seat }
        requires pass { pass ≡ hints.now }
        requires hints { hints.now.objects ≡ region.now.objects }
        ensures { result ≡ record { table = region.now.table; mover = seat.view.number } }
    {
        SeatedFetcher {
            region,
            hints,
            number,
            seat,
            pass,
            counts: Fetched::none(),
        }
    }

    /// Serves a hint. False where it found none.
    fn turn<R: Wait>(&mut self, rt: &R) -> bool
        ensures { self.new ≡ self.old }
    {
        let served = serve_one(rt, self.region, self.hints, &mut self.pass, &mut self.seat);
        self.counts.add(served);
        match served {
            Served::Nothing => false,
            Served::Dropped | Served::Brought | Served::Failed => true,
        }
    }

    /// Its seat, at which all that was done it did with hints.
    fn into_seat(self) -> MoverSeat<S>
        ensures of { IsOf self.entry result }
        ensures did { HasServed S.reliable self.entry.table.sizes self.entry.mover (did_of result) }
    {
        self.seat
    }
}

/// Waits a little, the longer the more turns there were with nothing to do: who is idle takes next to no processor.
pub(crate) fn rest<C: Clock>(clock: &C, idle: u32) {
    if idle > YIELDS {
        thread::sleep(clock, Duration::from_micros(SLEEP_MICROS));
    } else if idle > SPINS {
        thread::yield_now();
    } else if idle > 0 {
        spin_loop();
    }
}

impl<'a, S: RawStore> Mover<'a, S> {
    /// Makes a round, or serves a hint, and tells the gate so. False where there was nothing to do.
    fn turn<R: Wait, G: Gate>(&mut self, rt: &R, gate: &G) -> bool
        ensures { self.new ≡ self.old }
    {
        match self {
            Mover::Evacuates(evacuator) => {
                let moved = evacuator.turn();
                gate.turned(evacuator.number);
                moved
            }
            Mover::Fetches(fetcher) => {
                let served = fetcher.turn(rt);
                gate.turned(fetcher.number);
                served
            }
        }
    }

    /// What it did.
    fn counts(&self) -> MoverCounts {
        match self {
            Mover::Evacuates(evacuator) => MoverCounts::Evacuates(evacuator.counts),
            Mover::Fetches(fetcher) => MoverCounts::Fetches(fetcher.counts),
        }
    }

    /// Its seat, at which all that was done it did.
    fn into_seat(self) -> MoverSeat<S>
        ensures { IsGivenBack S.reliable self.entry result }
    {
        match self {
            Mover::Evacuates(evacuator) => evacuator.into_seat(),
            Mover::Fetches(fetcher) => fetcher.into_seat(),
        }
    }

    /// Goes on until every program has ended, when none is left.
    fn go_on<R: Wait + Clock, G: Gate>(&mut self, rt: &R, gate: &G, left: &AtomicUsize)
        ensures { self.new ≡ self.old }
    {
        let mut idle = 0u32;
        for _ in rt.forever() {
            if left.load(Ordering::SeqCst) == 0 {
                break;
            }
            idle = if self.turn(rt, gate) {
                0
            } else {
                idle.saturating_add(1)
            };
            rest(rt, idle);
        }
    }
}

/// Has each mover go on until every program has ended, on a thread of its own where one can be made.
pub(crate) fn move_all<S: RawStore + Send, G: Gate, R: Threads + Wait + Clock + Sync>(
    rt: &R,
    gate: &G,
    left: &AtomicUsize,
    movers: &mut [Mover<'_, S>],
)
    ensures { AreSame movers.old movers.new }
{
    let count = movers.len();
    if count == 0 {
        return;
    }
    thread::for_each_mut(rt, movers, count, &|_, mover| mover.go_on(rt, gate, left));
}

/// Has each mover go on until every program has ended.
pub(crate) fn move_each<'a, S: RawStore + Send, G: Gate, R: Threads + Wait + Clock + Sync>(
    rt: &R,
    gate: &G,
    left: &AtomicUsize,
    mut movers: Vec<Mover<'a, S>>,
) -> Vec<Mover<'a, S>>
    ensures { AreSame movers.entry.items result.items }
{
    move_all(rt, gate, left, movers.as_mut_slice());
    movers
}

/// What each of these movers did, as far as `counts` has room, which has room for all.
pub(crate) fn counts_of<S: RawStore>(
    movers: &[Mover<'_, S>],
    mut counts: Vec<MoverCounts>,
) -> Vec<MoverCounts> {
    for mover in movers {
        if counts.len() < counts.capacity() {
            counts.push_reserved(mover.counts());
        }
    }
    counts
}

/// The seats of these movers, in their order. `seats` has room for them.
pub(crate) fn seats_of<S: RawStore>(
    movers: Vec<Mover<'_, S>>,
    mut seats: Vec<MoverSeat<S>>,
) -> Vec<MoverSeat<S>>
    requires empty { (vec_len seats ≡ 0) × (seats.items ≡ []) }
    requires room { length movers.items ≤ vec_capacity seats }
    ensures given { AreGivenBack S.reliable movers.entry.items result.items }
    ensures room { (vec_capacity result ≡ vec_capacity seats) × (vec_len result ≡ length movers.entry.items) }
{
    for mover in movers {
        seats.push_reserved(mover.into_seat());
    }
    seats
}
