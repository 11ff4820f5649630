//! A mover's way to the store, with what was refused through it.
ghost use Rattle.std.specs.Prelude.{◌≡◌};
ghost use Rattle.remote_store.specs.Refusing.{no_refusals, refused_once};

use crate::raw::RawStore;

/// Why a call of the store failed, as far as the store tells. No contract says which cause is told.
#[derive(Clone, Copy, PartialEq, Eq, Debug)]
pub enum Cause {
    /// The store tells none.
    Untold,
    /// The file, or its folder, is not there.
    NotFound,
    /// The file may not be read or written, or its folder may not be looked at.
    Denied,
    /// There is no room for the file.
    Full,
    /// What has the file's name is no regular file.
    NotRegular,
    /// The file has another length than what was written.
    OtherLength,
}

/// The store failed.
#[derive(Clone, Copy, PartialEq, Eq, Debug)]
pub struct Failed {
    pub cause: Cause,
}

/// Why a get was refused.
#[derive(Clone, Copy, PartialEq, Eq, Debug)]
pub enum Refusal {
    /// The store failed.
    Failed = 1,
    /// What was read has another header than the berth's.
    Wrong = 2,
}

/// A call that was refused, with the number of its object.
#[derive(Clone, Copy, PartialEq, Eq, Debug)]
pub enum RefusedCall {
    /// A put, as the store failed.
    Put(usize, Cause),
    /// A get, as the store failed.
    Get(usize, Cause),
    /// A get, as what was read has another header than the berth's.
    Wrong(usize),
}

/// What was refused through a port.
#[derive(Clone, Copy, PartialEq, Eq, Debug)]
pub struct Refusals {
    /// How many calls, modulo 2^64.
    pub count: u64,
    /// The last of them.
    pub last: Option<RefusedCall>,
}

impl Refusals {
    /// One call more was refused: this one.
    pub(crate) fn add(&mut self, call: RefusedCall)
        ensures { self.new ≡ refused_once self.old call }
    {
        self.count = self.count.wrapping_add(1);
        self.last = Some(call);
    }
}

/// A mover's way to the store. `refusals` tells of the failures and the wrong headers that it met.
#[derive(Drop)]
pub struct Port<S: RawStore> {
    pub(crate) store: S,
    pub(crate) refusals: Refusals,
}

impl<S: RawStore> Port<S> {
    /// A port of this store, through which nothing was refused yet.
    pub fn new(store: S) -> Port<S>
        ensures store { result.store ≡ store }
        ensures refusals { result.refusals ≡ no_refusals }
    {
        Port {
            store,
            refusals: Refusals {
                count: 0,
                last: None,
            },
        }
    }

    /// The store that it leads to.
    pub fn store(&self) -> &S
        ensures { result.now ≡ self.now.store }
    {
        &self.store
    }

    /// How many puts and gets were refused through it, and the last of these.
    pub fn refusals(&self) -> Refusals
        ensures { result ≡ self.now.refusals }
    {
        self.refusals
    }
}
