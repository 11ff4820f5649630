//! Runs over far memory.
ghost use Rattle.object_lock.specs.Fresh.{IsFresh};
ghost use Rattle.std.specs.Prelude.{◌≤◌};

use crate::setting::Setting;
use crate::shelf::Shelf;
use crate::touches::put_output;
use code_form::Image;
use object_lock::{ObjectTable, OwnerSeat};
use remote_store::{FarHeap, FaultStore, RawStore};
use scope_verifier::{Verified, verify};
use session::Session;
use std::alloc::{AllocError, Global};
use std::fmt::Write;
use std::sync::Wait;

/// Runs the session on, for so many instructions at most, and tells what it answers.
fn put_run<R: Wait, S: RawStore>(
    rt: &R,
    session: &mut Session<'_, S>,
    limit: u64,
    told: &mut String,
) -> Result<(), AllocError> {
    if session.completed() > u64::MAX - limit {
        return told.push_str("more than can be counted\n");
    }
    let run = session.run(rt, limit);
    let completed = session.completed();
    writeln!(told, "{run}, {completed} completed")
}

/// Runs the session with each of these limits, and tells what it answers.
fn tell_runs<R: Wait, S: RawStore>(
    rt: &R,
    alloc: Global,
    session: &mut Session<'_, S>,
    limits: &[u64],
) -> Result<String, AllocError> {
    let mut told = String::new(alloc);
    for limit in limits {
        put_run(rt, session, *limit, &mut told)?;
    }
    put_output(&mut told, session.output())?;
    Ok(told)
}

/// What is told of an image's runs with this seat of the table.
fn tell_seat<R: Wait, S: RawStore>(
    rt: &R,
    alloc: Global,
    table: &ObjectTable<S>,
    verified: &Verified,
    seat: OwnerSeat<S>,
    limits: &[u64],
) -> Result<String, AllocError>
    requires fresh { IsFresh table.now seat }
    requires own { seat.view.low ≤ seat.view.high }
{
    match Session::over(alloc, table, verified, seat) {
        Ok(mut session) => tell_runs(rt, alloc, &mut session, limits),
        Err(_) => Err(AllocError),
    }
}

/// What is told of an image's runs.
fn tell_image<R: Wait>(
    rt: &R,
    alloc: Global,
    verified: &Verified,
    setting: &Setting<'_>,
) -> Result<String, AllocError> {
    let piece = verified.image().piece;
    let Some(config) = setting.config(alloc, piece) else {
        return String::from_str(alloc, "numbers out of range");
    };
    match ObjectTable::<FaultStore<FarHeap>>::new(alloc, 1, &config, piece) {
        Ok((table, mut owners, _movers)) => match owners.pop() {
            Some(seat) => tell_seat(rt, alloc, &table, verified, seat, &setting.numbers),
            None => Err(AllocError),
        },
        Err(_) => Err(AllocError),
    }
}

/// What is told of the last of these images, or the first thing that is wrong with it.
fn tell_images<R: Wait>(
    rt: &R,
    alloc: Global,
    mut images: Vec<Image>,
    setting: &Setting<'_>,
) -> Result<String, AllocError> {
    let Some(image) = images.pop() else {
        return String::from_str(alloc, "no image");
    };
    match verify(alloc, image) {
        Ok(verified) => tell_image(rt, alloc, &verified, setting),
        Err(fault) => format!(in alloc; "{fault}"),
    }
}

/// What is told of a row.
pub(crate) fn tell<R: Wait>(
    rt: &R,
    alloc: Global,
    shelf: &Shelf,
    setting: &Setting<'_>,
) -> Result<String, AllocError> {
    match setting.images(alloc, shelf)? {
        Some(images) => tell_images(rt, alloc, images, setting),
        None => String::from_str(alloc, "no such image"),
    }
}
