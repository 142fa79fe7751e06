//! `ctangle [flags] web [change [out]]`: tangles a web into C, in the current folder.
#![tactic(auto)]

use ctangle_cli::{Disk, LoadFault, command_line, lines_to, run_before_exit, write_load};
use std::process::ExitCode;
use tangle_lines::Sink;

// Runs `ctangle`, and returns its status.
fn run<E: Sink>(rt: &HostRuntime, err: &mut E) -> u8 {
    let Ok(arguments) = command_line(rt) else {
        return no_memory(err);
    };
    let names = arguments.iter().skip(1).map(|argument| argument.as_bytes());
    match names.collect::<Vec<&[u8]>>(rt.alloc()) {
        Ok(arguments) => run_before_exit(rt.alloc(), arguments.as_slice(), &mut Disk::new(rt), err),
        Err(_) => no_memory(err),
    }
}

fn no_memory<E: Sink>(err: &mut E) -> u8 {
    let _ = write_load(b"ctangle", &LoadFault::NoMemory, err);
    3
}

// `main` has no `?`: an error that `main` returned would be status 1.
fn main(rt: HostRuntime) -> ExitCode {
    let mut err = lines_to(&rt, rt.stderr());
    let status = run(&rt, &mut err);
    err.flush();
    ExitCode::from(if err.failures() == 0 { status } else { 3 })
}
