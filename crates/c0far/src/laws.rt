//! What holds of all that the commands show.
ghost use Rattle.c0far.specs.Lives.{LiveShowsTheSame};
ghost use Rattle.c0far.specs.Replays.{ReplaysNeverFail};

use command_files::Files;
use schedule_replay::never_fails;

/// Where no folder is named and no call of the store is to fail, `replay` shows of no program that the store failed.
pub fn replays_never_fail()
    ensures { ReplaysNeverFail }
{
    never_fails();
}

/// Over an honest store `run --live` shows just what `run` shows.
pub fn live_shows_the_same<F: Files>()
    ensures { LiveShowsTheSame F.Place.honest }
{}
