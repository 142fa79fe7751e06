//! `retangle WEB [--change FILE] [--out FILE]`: tangles a web, and again after each edit on
//! standard input.
#![tactic(auto)]

use ctangle_cli::{Disk, LoadFault, command_line, lines_to, run_retangle_before_exit, write_load};
use std::process::ExitCode;
use tangle_lines::{IoFeed, Sink};

// Runs `retangle`, and returns its status.
fn run<E: Sink>(rt: &HostRuntime, err: &mut E) -> u8 {
    let Ok(arguments) = command_line(rt) else {
        let _ = write_load(b"retangle", &LoadFault::NoMemory, err);
        return 3;
    };
    let mut folder = Disk::new(rt);
    let mut script = IoFeed::new(rt.stdin());
    let mut answers = lines_to(rt, rt.stdout());
    run_retangle_before_exit(
        rt.alloc(),
        arguments.as_slice(),
        &mut folder,
        err,
        &mut script,
        &mut answers,
    )
}

// `main` has no `?`: an error that `main` returned would be status 1.
fn main(rt: HostRuntime) -> ExitCode {
    let mut err = lines_to(&rt, rt.stderr());
    let status = run(&rt, &mut err);
    err.flush();
    ExitCode::from(if err.failures() == 0 { status } else { 3 })
}
