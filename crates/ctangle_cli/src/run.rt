//! Runs of both programs, from their arguments on.
ghost use Rattle.std.specs.Prelude.{◌≡◌, ◌<◌, ◌-◌, ◌^◌, ℕ, List, Option, None, Some, IfNone, IfSome};
ghost use Rattle.std.specs.Prelude.{IsSome, codes, map};
ghost use Rattle.ctangle_cli.specs.Arguments.{names_by_arguments};
ghost use Rattle.ctangle_cli.specs.Messages.{faults_status};
ghost use Rattle.tangle_files.specs.Roles.{RolesRead};
ghost use Rattle.tangle_folders.specs.Folder.{FolderRead};
ghost use Rattle.tangle_script.specs.Script.{conversation};
ghost use Rattle.ctangle_cli.specs.Run.{EndsUnstarted, RetangleEnds, RunEnds, SessionEnds};
ghost use Rattle.ctangle_cli.specs.Run.{Moment, StartsSession, moment};

use crate::arguments::{WordFault, Words, read_words};
use crate::conversation::run_retangle;
use crate::messages::{is_error_among, say, write_faults_at_once, write_load, write_unwritten};
use crate::retangle_names::{RetangleFault, read_retangle};
use crate::writing::create_outputs;
use clap::Error;
use std::alloc::Global;
use std::convert::AsStr;
use std::mem::forget;
use tangle_folders::Folder;
use tangle_lines::{Fault, Feed, Sink};
use tangle_loading::{LoadFault, load};
use tangle_script::SinkFailed;
use tangle_session::Session;

fn status(faults: &[Fault]) -> u8
    ensures { result ≡ faults_status faults.now }
{
    if is_error_among(faults) { 1 } else { 0 }
}

// Writes the lines of the session's faults, and then the outputs.
fn run_session<F: Folder, E: Sink>(
    alloc: Global,
    session: &Session,
    folder: &mut F,
    err: &mut E,
) -> u8
    ensures { SessionEnds session.now.files session.now.roles
        (moment (F.state folder.old) (E.stream err.old))
        (moment (F.state folder.new) (E.stream err.new)) result }
{
    let faults = session.faults();
    match write_faults_at_once(alloc, faults, err) {
        Err(_) => 3,
        Ok(()) => match create_outputs(alloc, session, folder) {
            Ok(()) => status(faults),
            Err(stop) => {
                let _ = write_unwritten(stop.name, stop.fault, err);
                3
            }
        },
    }
}

// Loads the files of these names, and starts a session of them. Where that fails it writes why. The
// loaded files have the web and the change file, if one is named, so only an allocation can fail at
// the start.
fn start_session<F: Folder, E: Sink>(
    alloc: Global,
    program: &[u8],
    names: &Words,
    folder: &mut F,
    err: &mut E,
) -> Option<Session>
    ensures started { IfSome result (λ session. StartsSession names.now
        (moment (F.state folder.old) (E.stream err.old))
        (moment (F.state folder.new) (E.stream err.new)) session) }
    ensures unstarted { IfNone result
        ((usage : List ℕ) → EndsUnstarted program.now usage (Some names.now)
        (moment (F.state folder.old) (E.stream err.old))
        (moment (F.state folder.new) (E.stream err.new)) 3) }
{
    match load(alloc, names, folder) {
        Err(fault) => {
            let _ = write_load(program, &fault, err);
            None
        }
        Ok((files, roles)) => match Session::start(alloc, files, roles) {
            Err(_) => {
                let _ = write_load(program, &LoadFault::NoMemory, err);
                None
            }
            Ok(session) => Some(session),
        },
    }
}

// Starts a session of the files of these names, and writes its faults and outputs. Returns the
// status, and the session unless none was started.
fn run_named<F: Folder, E: Sink>(
    alloc: Global,
    names: &Words,
    folder: &mut F,
    err: &mut E,
) -> (u8, Option<Session>)
    ensures { (arguments : List (List ℕ)) → names_by_arguments arguments ≡ Some names.now
        → RunEnds arguments (moment (F.state folder.old) (E.stream err.old))
        (moment (F.state folder.new) (E.stream err.new)) result.0 }
{
    match start_session(alloc, b"ctangle", names, folder, err) {
        None => (3, None),
        Some(session) => {
            let status = run_session(alloc, &session, folder, err);
            (status, Some(session))
        }
    }
}

// Runs `ctangle`, and keeps the session.
fn run_keeping_session<F: Folder, E: Sink>(
    alloc: Global,
    arguments: &[&[u8]],
    folder: &mut F,
    err: &mut E,
) -> (u8, Option<Session>)
    ensures { RunEnds (map (λ w. w.now) arguments.now)
        (moment (F.state folder.old) (E.stream err.old))
        (moment (F.state folder.new) (E.stream err.new)) result.0 }
{
    match read_words(alloc, arguments) {
        Err(WordFault::Usage) => match say(err, &[b"usage: ctangle [flags] web [change [out]]\n"]) {
            Ok(_) => (2, None),
            Err(_) => (3, None),
        },
        Err(WordFault::NoMemory) => {
            let _ = write_load(b"ctangle", &LoadFault::NoMemory, err);
            (3, None)
        }
        Ok(names) => run_named(alloc, &names, folder, err),
    }
}

/// Runs `ctangle` with these arguments, in a folder and with an error stream. Returns the status.
///
/// It loads the files, starts a session of them, writes the line of each fault on the error stream,
/// and then each output into the folder, the main file first. The status is 0, or 1 where an error
/// is among the faults. It is 2, with the usage line, where the arguments give no names. It is 3,
/// with a line that says why, where a file can't be read or written or is refused, or memory runs
/// out; and 3 where the error stream fails. A C compiler reads each output as the author wrote it
/// (`specs/WhatTheCompilerReads.antt`).
///
/// Of CTANGLE's command line it keeps the three names, their extensions and `-` for no change file;
/// flags are accepted and have no effect (`docs/programs.md`).
pub fn run_ctangle<F: Folder, E: Sink>(
    alloc: Global,
    arguments: &[&[u8]],
    folder: &mut F,
    err: &mut E,
) -> u8
    ensures { RunEnds (map (λ w. w.now) arguments.now)
        (moment (F.state folder.old) (E.stream err.old))
        (moment (F.state folder.new) (E.stream err.new)) result }
{
    let ended = run_keeping_session(alloc, arguments, folder, err);
    ended.0
}

/// Runs `ctangle` as [`run_ctangle`] does, for a program that ends after the run. The session is not
/// dropped: the system takes all memory back at once.
pub fn run_before_exit<F: Folder, E: Sink>(
    alloc: Global,
    arguments: &[&[u8]],
    folder: &mut F,
    err: &mut E,
) -> u8
    ensures { RunEnds (map (λ w. w.now) arguments.now)
        (moment (F.state folder.old) (E.stream err.old))
        (moment (F.state folder.new) (E.stream err.new)) result }
{
    let (status, session) = run_keeping_session(alloc, arguments, folder, err);
    forget(session);
    status
}

// Writes what `clap` says of arguments that give no names. Returns the status.
fn write_refused<E: Sink>(alloc: Global, error: &Error, err: &mut E) -> u8
    ensures { (names : Option RolesRead) (folder : FolderRead) → names ≡ None → (usage : List ℕ)
        × EndsUnstarted (codes "retangle") usage names (moment folder (E.stream err.old))
        (moment folder (E.stream err.new)) result }
{
    let Ok(usage) = error.to_string(alloc) else {
        let _ = write_load(b"retangle", &LoadFault::NoMemory, err);
        return 3;
    };
    match say(err, &[usage.as_bytes()]) {
        Ok(()) => 2,
        Err(SinkFailed) => 3,
    }
}

/// Runs `retangle` with these arguments, in a folder and with an error stream, for a program that
/// ends after the run: the session is not dropped. The first argument is the program's name.
/// Returns the status.
///
/// It loads the files, starts a session of them, and answers the script as [`run_retangle`] does,
/// with its status. A C compiler reads each output that is shown as the author wrote it
/// (`specs/WhatTheCompilerReads.antt`). The status is 2, and `clap`'s text is written, where `clap`
/// refuses the arguments, or they ask for help or the version. It is 3, with a line that says why,
/// where a file can't be read or is refused, or memory runs out; and 3 where the error stream fails.
///
/// CWEB has no such program (`docs/sessions.md`).
pub fn run_retangle_before_exit<A: AsStr, F: Folder, E: Sink, R: Feed, S: Sink>(
    alloc: Global,
    arguments: &[A],
    folder: &mut F,
    err: &mut E,
    feed: &mut R,
    sink: &mut S,
) -> u8
    ensures { RetangleEnds (map A.text arguments.now)
        (moment (F.state folder.old) (E.stream err.old))
        (moment (F.state folder.new) (E.stream err.new))
        (λ s. conversation s (S.stream sink.old) (R.remaining feed.old) (R.failures feed.old))
        (λ s. conversation s (S.stream sink.new) (R.remaining feed.new) (R.failures feed.new))
        result }
{
    match read_retangle(alloc, arguments) {
        Err(RetangleFault::Parse(error)) => write_refused(alloc, &error, err),
        Err(RetangleFault::NoMemory) => {
            let _ = write_load(b"retangle", &LoadFault::NoMemory, err);
            3
        }
        Ok(names) => match start_session(alloc, b"retangle", &names, folder, err) {
            None => 3,
            Some(mut session) => {
                let status = run_retangle(alloc, &mut session, feed, sink);
                forget(session);
                status
            }
        },
    }
}

/// A run that leaves the folder and the error stream as they were does not end with status 3, unless
/// the failures of the stream were too many to count one more. So the contract refuses a body that
/// always returns 3 without writing a line.
pub fn status_3_needs_a_failure()
    ensures { (arguments : List (List ℕ)) (same : Moment) → IsSome same.stream.taken
        → same.stream.failures < 2 ^ 64 - 1 → RunEnds arguments same same 3 → ⊥ }
{}
