//! From words to a command.
ghost use Rattle.std.specs.Prelude.{◌≡◌, ◌≢◌, [], codes, false, IfErr, IfOk, List, MatchResult, None, Some, ℕ, map, option_and_then, option_map, true};
ghost use Rattle.clap.specs.Words.{App, Rule, Shape, all_of, app_of, first_of, found_of, kind_of, rows_of, rule_of, subcommand_rows_of, with_rule, with_subcommand};
ghost use Rattle.c0_syntax.specs.Levels.{has_loops};
ghost use Rattle.cells.specs.Pieces.{cells_in};
ghost use Rattle.command_line.specs.Shell.{Check, Command as Asked, IsLocal, Names, bound_in, bound_of, build_command, build_shape, check_shape, command_in, command_of, compiling_in, compiling_of, file_rule, files_rule, has_checks, has_flag, is_signed, level_in, limit_in, list_command, list_shape, live_command, live_of as live_run, live_rule, mean_command, mean_shape, memory_in, memory_of, named_command, number_in, number_or, of_checked_texts as checked_texts_app, of_code as code_app, of_programs as programs_app, of_texts as texts_app, option_rule, piece_in, replay_command, replay_shape, replayed_in, replayed_of, run_command, run_shape, shell, short_number_in, short_option, started_in, started_of, stats_rule, texts_in, texts_of, turns_in, where_rule, whole_command, with_memory, with_movers as movers_app, with_work, work_in, work_of};

use crate::words::{Bound, Compiling, Line, Memory, ReplayOptions, RunOptions, Texts, Usage, Work};
use c0_syntax::level::Level;
use cells::Piece;
use clap::error::ErrorKind;
use clap::{Arg, ArgAction, ArgMatches, Command, Error};
use std::alloc::{AllocError, Global};

/// An option of this name with a value, which may be left out.
fn option<'a>(alloc: Global, name: &'a str) -> Arg<'a>
    ensures rule { rule_of result ≡ option_rule name.now }
    ensures own { result.global ≡ false }
{
    Arg::new(alloc, name).long(name).action(ArgAction::Set)
}

/// The command with this argument more, where it was made.
fn with<'a>(
    command: Result<Command<'a>, AllocError>,
    arg: Arg<'a>,
) -> Result<Command<'a>, AllocError>
    ensures shape { (app : App) → (rule : Rule) → IfOk command.entry (λ c. app_of c ≡ app) → rule_of arg.entry ≡ rule → arg.entry.global ≡ false → IfOk result (λ c. app_of c ≡ with_rule app rule) }
    ensures local { IfOk command.entry IsLocal → arg.entry.global ≡ false → IfOk result IsLocal }
{
    command?.arg(arg)
}

/// A command of this name, which reads texts at a level.
fn of_texts<'a>(alloc: Global, name: &'a str) -> Result<Command<'a>, AllocError>
    ensures shape { IfOk result (λ c. app_of c ≡ texts_app name.now) }
    ensures local { IfOk result IsLocal }
{
    with(Ok(Command::new(alloc, name)), option(alloc, "level"))
}

/// A command of this name, which reads texts at a level, with contracts checked or not.
fn of_checked_texts<'a>(alloc: Global, name: &'a str) -> Result<Command<'a>, AllocError>
    ensures shape { IfOk result (λ c. app_of c ≡ checked_texts_app name.now) }
    ensures local { IfOk result IsLocal }
{
    let checks = Arg::new(alloc, "checks")
        .short('d')
        .action(ArgAction::SetTrue);
    with(of_texts(alloc, name), checks)
}

/// A command of this name, which makes code of texts.
fn of_code<'a>(alloc: Global, name: &'a str) -> Result<Command<'a>, AllocError>
    ensures shape { IfOk result (λ c. app_of c ≡ code_app name.now) }
    ensures local { IfOk result IsLocal }
{
    with(of_checked_texts(alloc, name), option(alloc, "piece"))
}

/// The file, just one.
fn one_file<'a>(alloc: Global) -> Arg<'a>
    ensures rule { rule_of result ≡ file_rule }
    ensures own { result.global ≡ false }
{
    Arg::new(alloc, "file")
        .required(true)
        .action(ArgAction::Set)
}

/// The check, with its options and its file.
fn check<'a>(alloc: Global) -> Result<Command<'a>, AllocError>
    ensures shape { IfOk result (λ c. app_of c ≡ record { top = check_shape; subs = [] }) }
    ensures local { IfOk result IsLocal }
{
    with(of_texts(alloc, "check"), one_file(alloc))
}

/// The listing, with its options and its file.
fn list<'a>(alloc: Global) -> Result<Command<'a>, AllocError>
    ensures shape { IfOk result (λ c. app_of c ≡ record { top = list_shape; subs = [] }) }
    ensures local { IfOk result IsLocal }
{
    let sized = with(of_texts(alloc, "list"), option(alloc, "piece"));
    with(sized, one_file(alloc))
}

/// The writing of an image, with its options and its file.
fn build<'a>(alloc: Global) -> Result<Command<'a>, AllocError>
    ensures shape { IfOk result (λ c. app_of c ≡ record { top = build_shape; subs = [] }) }
    ensures local { IfOk result IsLocal }
{
    let out = Arg::new(alloc, "out")
        .short('o')
        .required(true)
        .action(ArgAction::Set);
    let named = with(of_code(alloc, "build"), out);
    with(named, one_file(alloc))
}

/// The plain run, with its options and its file.
fn mean<'a>(alloc: Global) -> Result<Command<'a>, AllocError>
    ensures shape { IfOk result (λ c. app_of c ≡ record { top = mean_shape; subs = [] }) }
    ensures local { IfOk result IsLocal }
{
    let turns = Arg::new(alloc, "turns")
        .long("turns")
        .required(true)
        .action(ArgAction::Set);
    let bound = with(of_checked_texts(alloc, "mean"), turns);
    let explained = with(bound, explains(alloc));
    let limited = with(explained, option(alloc, "memory"));
    with(limited, one_file(alloc))
}

/// A command with the options of its memory.
fn over_memory<'a>(alloc: Global, command: Command<'a>) -> Result<Command<'a>, AllocError>
    ensures shape { IfOk result (λ c. app_of c ≡ with_memory (app_of command.entry)) }
    ensures local { IsLocal command.entry → IfOk result IsLocal }
{
    let framed = with(Ok(command), option(alloc, "frames"));
    let counted = with(framed, option(alloc, "objects"));
    let stored = with(counted, option(alloc, "store"));
    with(stored, option(alloc, "fail-from"))
}

/// A command with the options of its work.
fn with_workers<'a>(alloc: Global, command: Command<'a>) -> Result<Command<'a>, AllocError>
    ensures shape { IfOk result (λ c. app_of c ≡ with_work (app_of command.entry)) }
    ensures local { IsLocal command.entry → IfOk result IsLocal }
{
    let worked = with(Ok(command), option(alloc, "workers"));
    with(worked, option(alloc, "quantum"))
}

/// The option that has what a program prints written as it comes.
fn live<'a>(alloc: Global) -> Arg<'a>
    ensures rule { rule_of result ≡ live_rule }
    ensures own { result.global ≡ false }
{
    Arg::new(alloc, "live")
        .long("live")
        .action(ArgAction::SetTrue)
}

/// The option that has what was counted told.
fn stats<'a>(alloc: Global) -> Arg<'a>
    ensures rule { rule_of result ≡ stats_rule }
    ensures own { result.global ≡ false }
{
    Arg::new(alloc, "stats")
        .long("stats")
        .action(ArgAction::SetTrue)
}

/// The option that has told where programs stopped, and what they wanted.
fn explains<'a>(alloc: Global) -> Arg<'a>
    ensures rule { rule_of result ≡ where_rule }
    ensures own { result.global ≡ false }
{
    Arg::new(alloc, "where")
        .long("where")
        .action(ArgAction::SetTrue)
}

/// The files, one or more.
fn files<'a>(alloc: Global) -> Arg<'a>
    ensures rule { rule_of result ≡ files_rule }
    ensures own { result.global ≡ false }
{
    Arg::new(alloc, "file")
        .required(true)
        .action(ArgAction::Append)
}

/// A command with the options of its movers.
fn with_movers<'a>(alloc: Global, command: Command<'a>) -> Result<Command<'a>, AllocError>
    ensures shape { IfOk result (λ c. app_of c ≡ movers_app (app_of command.entry)) }
    ensures local { IsLocal command.entry → IfOk result IsLocal }
{
    let evacuated = with(Ok(command), option(alloc, "evacuators"));
    with(evacuated, option(alloc, "fetchers"))
}

/// A command of this name, which runs programs.
fn of_programs<'a>(alloc: Global, name: &'a str) -> Result<Command<'a>, AllocError>
    ensures shape { IfOk result (λ c. app_of c ≡ programs_app name.now) }
    ensures local { IfOk result IsLocal }
{
    let command = over_memory(alloc, of_code(alloc, name)?)?;
    with_workers(alloc, with_movers(alloc, command)?)
}

/// The run, with its options and its files.
fn run<'a>(alloc: Global) -> Result<Command<'a>, AllocError>
    ensures shape { IfOk result (λ c. app_of c ≡ record { top = run_shape; subs = [] }) }
    ensures local { IfOk result IsLocal }
{
    let written = with(of_programs(alloc, "run"), live(alloc));
    let told = with(written, stats(alloc));
    let explained = with(told, explains(alloc));
    let limited = with(explained, option(alloc, "memory"));
    with(limited, files(alloc))
}

/// The replay of a schedule, with its options and its files.
fn replay<'a>(alloc: Global) -> Result<Command<'a>, AllocError>
    ensures shape { IfOk result (λ c. app_of c ≡ record { top = replay_shape; subs = [] }) }
    ensures local { IfOk result IsLocal }
{
    let schedule = option(alloc, "schedule").required(true);
    let scheduled = with(of_programs(alloc, "replay"), schedule);
    with(scheduled, files(alloc))
}

/// The command with this one below it, where both were made.
fn with_below<'a>(
    command: Result<Command<'a>, AllocError>,
    below: Result<Command<'a>, AllocError>,
) -> Result<Command<'a>, AllocError>
    ensures { (top : App) → (shape : Shape) → IfOk command.entry (λ c. app_of c ≡ top) → IfOk below.entry (λ c. app_of c ≡ record { top = shape; subs = [] }) → IfOk below.entry IsLocal → IfOk result (λ c. app_of c ≡ with_subcommand top shape) }
{
    command?.subcommand(below?)
}

/// The commands that there are.
fn command<'a>(alloc: Global) -> Result<Command<'a>, AllocError>
    ensures { IfOk result (λ c. app_of c ≡ shell) }
{
    let none = Ok(Command::new(alloc, "c0far").subcommand_required(true));
    let first = with_below(none, build(alloc));
    let second = with_below(first, check(alloc));
    let third = with_below(second, list(alloc));
    let fourth = with_below(third, mean(alloc));
    let fifth = with_below(fourth, replay(alloc));
    with_below(fifth, run(alloc))
}

fn refusal(error: Error) -> Usage
    ensures memory { kind_of error ≡ ErrorKind.OutOfMemory → result ≡ Usage.OutOfMemory }
    ensures other { kind_of error ≢ ErrorKind.OutOfMemory → result ≡ Usage.Refused }
{
    match error.kind() {
        ErrorKind::OutOfMemory => Usage::OutOfMemory,
        _ => Usage::Refused,
    }
}

/// Whether the text begins with a plus.
fn has_plus(text: &[u8]) -> bool
    ensures { result ≡ is_signed text.now }
{
    match text.first() {
        Some(byte) => *byte == b'+',
        None => false,
    }
}

/// The number that the text writes in digits. None where there is a sign or no digit, or it has more than 64 bits.
pub(crate) fn number(text: &str) -> Option<u64>
    ensures { result ≡ number_in text.now }
{
    if has_plus(text.as_bytes()) {
        return None;
    }
    text.parse().ok()
}

/// The number that the text writes in digits. None where there is a sign or no digit, or it has more than 32 bits.
pub(crate) fn short_number(text: &str) -> Option<u32>
    ensures { result ≡ short_number_in text.now }
{
    match number(text) {
        Some(number) => u32::try_from(number).ok(),
        None => None,
    }
}

/// The number of this option, or else this one. None where it is no number of 32 bits.
fn short_option(matches: &ArgMatches<'_>, name: &str, default: u32) -> Option<u32>
    ensures { result ≡ short_option name.now default (rows_of (found_of matches.now)) }
{
    match matches.get_str(name) {
        Some(text) => short_number(text),
        None => Some(default),
    }
}

/// The number of the store's first call that fails, or 0. None where it is no number.
fn fail_from(matches: &ArgMatches<'_>) -> Option<u64>
    ensures { result ≡ number_or number_in 0 (first_of (codes "fail-from") (rows_of (found_of matches.now))) }
{
    match matches.get_str("fail-from") {
        Some(text) => number(text),
        None => Some(0),
    }
}

/// The level of the language that the options tell. None where it is none.
fn level(matches: &ArgMatches<'_>) -> Option<Level>
    ensures { option_map has_loops result ≡ level_in (rows_of (found_of matches.now)) }
{
    match short_option(matches, "level", 0) {
        Some(0) => Some(Level::C0),
        Some(1) => Some(Level::Loops),
        Some(_) | None => None,
    }
}

/// The memory that the options tell.
fn memory<'a>(matches: &ArgMatches<'a>) -> Option<Memory<'a>>
    ensures { option_map memory_of result ≡ memory_in (rows_of (found_of matches.now)) }
{
    let Some(frames) = short_option(matches, "frames", 64) else {
        return None;
    };
    let Some(objects) = short_option(matches, "objects", 65_536) else {
        return None;
    };
    let Some(fail_from) = fail_from(matches) else {
        return None;
    };
    Some(Memory {
        frames,
        objects,
        store: matches.get_str("store"),
        fail_from,
    })
}

/// Whether the option of this name, which has no value, is given.
fn flag(matches: &ArgMatches<'_>, name: &str) -> bool
    ensures { result ≡ has_flag name.now (rows_of (found_of matches.now)) }
{
    match matches.get_str(name) {
        Some(text) => text == "true",
        None => false,
    }
}

/// Whether contracts are to be checked.
fn checks(matches: &ArgMatches<'_>) -> bool
    ensures { result ≡ has_checks (rows_of (found_of matches.now)) }
{
    flag(matches, "checks")
}

/// How texts are taken, by the options that clap found.
fn texts(matches: &ArgMatches<'_>) -> Option<Texts>
    ensures { option_map texts_of result ≡ texts_in (rows_of (found_of matches.now)) }
{
    let Some(level) = level(matches) else {
        return None;
    };
    let checks = checks(matches);
    Some(Texts { level, checks })
}

/// The size of pieces that the options tell. None where there is none such.
fn piece(matches: &ArgMatches<'_>) -> Option<Piece>
    ensures { option_map cells_in result ≡ piece_in (rows_of (found_of matches.now)) }
{
    match short_option(matches, "piece", 64) {
        Some(cells) => Piece::new(cells),
        None => None,
    }
}

/// How code is made of texts, by the options that clap found.
fn compiling(matches: &ArgMatches<'_>) -> Option<Compiling>
    ensures { option_map compiling_of result ≡ compiling_in (rows_of (found_of matches.now)) }
{
    let Some(texts) = texts(matches) else {
        return None;
    };
    match piece(matches) {
        Some(piece) => Some(Compiling { texts, piece }),
        None => None,
    }
}

/// The turns of the options. None where they tell none, or that is no number.
fn turns(matches: &ArgMatches<'_>) -> Option<u64>
    ensures { result ≡ turns_in (rows_of (found_of matches.now)) }
{
    match matches.get_str("turns") {
        Some(text) => number(text),
        None => None,
    }
}

/// How many MiB the options let each use of memory take, or 0. None where they tell no number.
fn limit(matches: &ArgMatches<'_>) -> Option<u32>
    ensures { result ≡ limit_in (rows_of (found_of matches.now)) }
{
    short_option(matches, "memory", 0)
}

/// How a text is run plainly, by the options that clap found.
fn bound(matches: &ArgMatches<'_>) -> Option<Bound>
    ensures { option_map bound_of result ≡ bound_in (rows_of (found_of matches.now)) }
{
    let Some(texts) = texts(matches) else {
        return None;
    };
    let Some(turns) = turns(matches) else {
        return None;
    };
    let Some(limit) = limit(matches) else {
        return None;
    };
    Some(Bound {
        texts,
        turns,
        explains: flag(matches, "where"),
        limit,
    })
}

/// The plain run of this file, with the options that clap found.
fn plain_run<'a>(matches: &ArgMatches<'a>, file: &'a str) -> Option<Line<'a>>
    ensures { option_map command_of result ≡ mean_command (rows_of (found_of matches.now)) file.now }
{
    match bound(matches) {
        Some(asked) => Some(Line::Mean { asked, file }),
        None => None,
    }
}

/// The writing of this file's image, with the options that clap found.
fn written<'a>(matches: &ArgMatches<'a>, file: &'a str) -> Option<Line<'a>>
    ensures { option_map command_of result ≡ build_command (rows_of (found_of matches.now)) file.now }
{
    let Some(compiling) = compiling(matches) else {
        return None;
    };
    let Some(out) = matches.get_str("out") else {
        return None;
    };
    Some(Line::Build {
        compiling,
        out,
        file,
    })
}

/// The work that the options say that clap found.
fn work(matches: &ArgMatches<'_>) -> Option<Work>
    ensures { option_map work_of result ≡ work_in (rows_of (found_of matches.now)) }
{
    let Some(workers) = short_option(matches, "workers", 4) else {
        return None;
    };
    let Some(quantum) = short_option(matches, "quantum", 1_000) else {
        return None;
    };
    Some(Work { workers, quantum })
}

/// How programs are run, by the options that clap found.
fn started<'a>(matches: &ArgMatches<'a>) -> Option<RunOptions<'a>>
    ensures { option_map started_of result ≡ started_in (rows_of (found_of matches.now)) }
{
    let Some(compiling) = compiling(matches) else {
        return None;
    };
    let Some(memory) = memory(matches) else {
        return None;
    };
    let Some(evacuators) = short_option(matches, "evacuators", 1) else {
        return None;
    };
    let Some(fetchers) = short_option(matches, "fetchers", 1) else {
        return None;
    };
    let Some(work) = work(matches) else {
        return None;
    };
    let Some(limit) = limit(matches) else {
        return None;
    };
    let stats = flag(matches, "stats");
    let explains = flag(matches, "where");
    Some(RunOptions {
        compiling,
        memory,
        evacuators,
        fetchers,
        work,
        stats,
        explains,
        limit,
    })
}

/// How programs are replayed, by the options that clap found.
fn replayed<'a>(matches: &ArgMatches<'a>) -> Option<ReplayOptions<'a>>
    ensures { option_map replayed_of result ≡ replayed_in (rows_of (found_of matches.now)) }
{
    let Some(compiling) = compiling(matches) else {
        return None;
    };
    let Some(memory) = memory(matches) else {
        return None;
    };
    let Some(evacuators) = short_option(matches, "evacuators", 1) else {
        return None;
    };
    let Some(fetchers) = short_option(matches, "fetchers", 1) else {
        return None;
    };
    let Some(work) = work(matches) else {
        return None;
    };
    let Some(schedule) = matches.get_str("schedule") else {
        return None;
    };
    Some(ReplayOptions {
        compiling,
        memory,
        evacuators,
        fetchers,
        work,
        schedule,
    })
}

/// The files that clap found. `Refused` where there is none, `OutOfMemory` where a growth was refused.
fn files_of<'a>(alloc: Global, matches: &ArgMatches<'a>) -> Result<Vec<&'a str>, Usage>
    ensures { MatchResult result (λ v. Some (map (λ f. f.now) v.items) ≡ all_of (codes "file") (rows_of (found_of matches.now)))
        (λ u. u ≡ Usage.Refused → None ≡ all_of (codes "file") (rows_of (found_of matches.now))) }
{
    let Some(named) = matches.get_strs("file") else {
        return Err(Usage::Refused);
    };
    let mut files = Vec::new(alloc);
    match files.extend_from_slice(named) {
        Ok(()) => Ok(files),
        Err(_refused) => Err(Usage::OutOfMemory),
    }
}

/// The run of the files that clap found, whose output is written when all have ended. `Refused` where a number is none, `OutOfMemory` where a growth was refused.
fn runs_whole<'a>(alloc: Global, matches: &ArgMatches<'a>) -> Result<Line<'a>, Usage>
    ensures { MatchResult result (λ l. Some (command_of l) ≡ whole_command (rows_of (found_of matches.now)))
        (λ u. u ≡ Usage.Refused → None ≡ whole_command (rows_of (found_of matches.now))) }
{
    let Some(asked) = started(matches) else {
        return Err(Usage::Refused);
    };
    match files_of(alloc, matches) {
        Ok(files) => Ok(Line::Run { asked, files }),
        Err(usage) => Err(usage),
    }
}

/// The run of the one file among these, whose output is written as it comes.
fn live_of<'a>(asked: RunOptions<'a>, files: &[&'a str]) -> Option<Line<'a>>
    ensures { option_map command_of result ≡ live_run (started_of asked.entry) (map (λ f. f.now) files.now) }
{
    match files {
        [file] => Some(Line::Live { asked, file }),
        [] | [_, _, ..] => None,
    }
}

/// The run of the one file that clap found, whose output is written as it comes.
fn runs_live<'a>(matches: &ArgMatches<'a>) -> Option<Line<'a>>
    ensures { option_map command_of result ≡ live_command (rows_of (found_of matches.now)) }
{
    let Some(asked) = started(matches) else {
        return None;
    };
    let Some(files) = matches.get_strs("file") else {
        return None;
    };
    live_of(asked, files)
}

/// The run that clap found. `Refused` where a number is none, or one file is wanted and there are several, `OutOfMemory` where a growth was refused.
fn runs<'a>(alloc: Global, matches: &ArgMatches<'a>) -> Result<Line<'a>, Usage>
    ensures { MatchResult result (λ l. Some (command_of l) ≡ run_command (rows_of (found_of matches.now)))
        (λ u. u ≡ Usage.Refused → None ≡ run_command (rows_of (found_of matches.now))) }
{
    if !flag(matches, "live") {
        return runs_whole(alloc, matches);
    }
    match runs_live(matches) {
        Some(line) => Ok(line),
        None => Err(Usage::Refused),
    }
}

/// The replay of the files that clap found. `Refused` where a number is none, `OutOfMemory` where a growth was refused.
fn replays<'a>(alloc: Global, matches: &ArgMatches<'a>) -> Result<Line<'a>, Usage>
    ensures { MatchResult result (λ l. Some (command_of l) ≡ replay_command (rows_of (found_of matches.now)))
        (λ u. u ≡ Usage.Refused → None ≡ replay_command (rows_of (found_of matches.now))) }
{
    let Some(asked) = replayed(matches) else {
        return Err(Usage::Refused);
    };
    match files_of(alloc, matches) {
        Ok(files) => Ok(Line::Replay { asked, files }),
        Err(usage) => Err(usage),
    }
}

/// The check of this file, at the level that clap found.
fn checked<'a>(matches: &ArgMatches<'a>, file: &'a str) -> Option<Line<'a>>
    ensures { option_map command_of result ≡ option_map (λ l. Check l file.now) (level_in (rows_of (found_of matches.now))) }
{
    match level(matches) {
        Some(level) => Some(Line::Check { level, file }),
        None => None,
    }
}

/// The listing of this file, with the options that clap found.
fn listed<'a>(matches: &ArgMatches<'a>, file: &'a str) -> Option<Line<'a>>
    ensures { option_map command_of result ≡ list_command (rows_of (found_of matches.now)) file.now }
{
    let Some(level) = level(matches) else {
        return None;
    };
    match piece(matches) {
        Some(piece) => Some(Line::List { level, piece, file }),
        None => None,
    }
}

/// The command of this name, with this file and what else clap found.
fn named<'a>(name: &str, matches: &ArgMatches<'a>, file: &'a str) -> Option<Line<'a>>
    ensures { option_map command_of result ≡ named_command name.now (rows_of (found_of matches.now)) file.now }
{
    match name {
        "build" => written(matches, file),
        "check" => checked(matches, file),
        "list" => listed(matches, file),
        "mean" => plain_run(matches, file),
        _ => None,
    }
}

/// The command of this name, with the file that clap found and what else.
fn of_file<'a>(name: &str, matches: &ArgMatches<'a>) -> Result<Line<'a>, Usage>
    ensures { MatchResult result (λ l. Some (command_of l) ≡ option_and_then (named_command name.now (rows_of (found_of matches.now))) (first_of (codes "file") (rows_of (found_of matches.now))))
        (λ u. None ≡ option_and_then (named_command name.now (rows_of (found_of matches.now))) (first_of (codes "file") (rows_of (found_of matches.now)))) }
{
    let Some(file) = matches.get_str("file") else {
        return Err(Usage::Refused);
    };
    match named(name, matches, file) {
        Some(line) => Ok(line),
        None => Err(Usage::Refused),
    }
}

/// The command that clap found, with its file or files. `Refused` where there is none, `OutOfMemory` where a growth was refused.
fn found<'a>(alloc: Global, matches: &ArgMatches<'a>) -> Result<Line<'a>, Usage>
    ensures { MatchResult result (λ l. Some (command_of l) ≡ command_in (subcommand_rows_of matches.now))
        (λ u. u ≡ Usage.Refused → None ≡ command_in (subcommand_rows_of matches.now)) }
{
    let Some((name, inner)) = matches.subcommand() else {
        return Err(Usage::Refused);
    };
    match name {
        "replay" => replays(alloc, inner),
        "run" => runs(alloc, inner),
        _ => of_file(name, inner),
    }
}

/// The command that the words name, of which the first is the program's name. `Refused` where clap finds a fault in them, or they name
/// no command with its file; `OutOfMemory` where a growth was refused.
pub fn line<'a>(alloc: Global, words: &'a [&'a str]) -> Result<Line<'a>, Usage>
    ensures named { IfOk result (λ l. Names (map (λ w. w.now) words.entry.now) (command_of l)) }
    ensures refused { IfErr result (λ u. (command : Asked) → Names (map (λ w. w.now) words.entry.now) command → u ≡ Usage.OutOfMemory) }
{
    let command = match command(alloc) {
        Ok(command) => command,
        Err(_) => return Err(Usage::OutOfMemory),
    };
    let matches = match command.try_get_matches_from(words) {
        Ok(matches) => matches,
        Err(error) => return Err(refusal(error)),
    };
    found(alloc, &matches)
}
