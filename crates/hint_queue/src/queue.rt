//! The queue of hints, and its passes.
ghost use Rattle.cells.specs.declared.ending.Want.TheVariants.{OutOfMemory};
ghost use Rattle.std.specs.List.{All};
ghost use Rattle.std.specs.Prelude.{◌≡◌, ◌+◌, ◌<◌, IfErr, IfOk, IfSome, length};

use crate::rule::{Founds, KnowsObjects, Named, Puts, Same, Takes};
use cells::Want;
use crossbeam_queue::{Pass, RuledArrayQueue};
use region::Region;
use remote_store::RawStore;
use std::alloc::{AllocError, Global};
use std::marker::Model;
use std::sync::Wait;

/// How many hints the queue has room for.
const ROOM: usize = 256;

/// A queue of hints that threads share. Each hint is one of the objects below a number that is fixed when the queue is made.
#[derive(Drop)]
pub struct Hints {
    queue: RuledArrayQueue<usize, KnowsObjects, Named>,
    objects: usize,
}

impl Model for Hints {
    ghost use Rattle.hint_queue.specs.Queues.{HintsView};

    ghost Value = { HintsView };

    ghost view = { λ h. record { id = h.queue.table.shared.table_id; objects = h.objects } };
}

/// The right of one thread to put hints into a queue and to take them.
#[derive(Drop)]
pub struct HintPass {
    pass: Pass<usize, KnowsObjects>,
    objects: usize,
}

impl Model for HintPass {
    ghost use Rattle.hint_queue.specs.Named.{knows};
    ghost use Rattle.hint_queue.specs.Queues.{HintsView};
    ghost use Rattle.std.specs.Prelude.{◌≡◌, []};

    ghost Value = { HintsView };

    ghost view = { λ p. record { id = p.pass.table_id; objects = p.objects } };

    ghost invariant = { λ p. (p.pass.me.1 ≡ []) × (p.pass.me.0.client ≡ knows p.objects) };
}

/// A queue with no hint, for objects below `objects`, and a pass of it.
fn found(alloc: Global, objects: usize) -> Result<(Hints, HintPass), AllocError>
    ensures { IfOk result (λ r. (r.0.objects ≡ objects) × (r.1 ≡ r.0)) }
{
    let (queue, mut first) = RuledArrayQueue::ruled(alloc, ROOM)?;
    // The last object of all tells the number, by the rule, and is taken again.
    if objects > 0 {
        if queue
            .try_push_as::<Founds>(&mut first, objects - 1)
            .is_err()
        {
            return Err(AllocError);
        }
        let _ = queue.try_pop_as::<Takes>(&mut first);
    }
    let pass = queue.another::<Same>(&mut first);
    Ok((Hints { queue, objects }, HintPass { pass, objects }))
}

impl Hints {
    /// A queue with no hint, for the objects of the region's programs, with a pass for each program and then for each fetcher. `OutOfMemory` where a
    /// growth was refused.
    pub fn new<S: RawStore>(
        alloc: Global,
        region: &Region<S>,
    ) -> Result<(Hints, Vec<HintPass>), Want>
        ensures objects { IfOk result (λ r. r.0.objects ≡ region.now.objects) }
        ensures passes { IfOk result (λ r. (length r.1.items ≡ length region.now.programs + region.now.fetchers) × All (λ p. p ≡ r.0) r.1.items) }
        ensures wants { IfErr result (λ want. want ≡ OutOfMemory) }
    {
        let Ok((hints, mut first)) = found(alloc, region.objects()) else {
            return Err(Want::OutOfMemory);
        };
        let count = region.programs() + region.fetchers();
        match hints.passes(alloc, &mut first, count) {
            Ok(passes) => Ok((hints, passes)),
            Err(_refused) => Err(Want::OutOfMemory),
        }
    }

    /// Below which number the objects of its hints are.
    pub fn objects(&self) -> usize
        ensures { result ≡ self.now.objects }
    {
        self.objects
    }

    /// One more pass.
    fn another(&self, pass: &mut HintPass) -> HintPass
        requires { pass.old ≡ self.now }
        ensures { (pass.new ≡ pass.old) × (result ≡ self.now) }
    {
        HintPass {
            pass: self.queue.another::<Same>(&mut pass.pass),
            objects: self.objects,
        }
    }

    /// So many more passes.
    fn passes(
        &self,
        alloc: Global,
        first: &mut HintPass,
        count: usize,
    ) -> Result<Vec<HintPass>, AllocError>
        requires { first.old ≡ self.now }
        ensures { IfOk result (λ v. (length v.items ≡ count) × All (λ p. p ≡ self.now) v.items) }
    {
        let mut passes = Vec::new(alloc);
        for _made in 0..count {
            passes.push(self.another(first))?;
        }
        Ok(passes)
    }

    /// Puts a hint, which is dropped where the queue is full. Whether it was put.
    pub fn push<R: Wait>(&self, rt: &R, pass: &mut HintPass, object: usize) -> bool
        requires pass { pass.old ≡ self.now }
        requires named { object < self.now.objects }
        ensures { pass.new ≡ pass.old }
    {
        self.queue
            .push_as::<Puts, R>(rt, &mut pass.pass, object)
            .is_ok()
    }

    /// Takes the oldest hint.
    pub fn pop<R: Wait>(&self, rt: &R, pass: &mut HintPass) -> Option<usize>
        requires { pass.old ≡ self.now }
        ensures pass { pass.new ≡ pass.old }
        ensures named { IfSome result (λ object. object < self.now.objects) }
    {
        self.queue.pop_as::<Takes, R>(rt, &mut pass.pass)
    }
}
