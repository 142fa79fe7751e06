//! A run of the program.
use crate::arguments::{Arguments, read_arguments};
use crate::differences::list_differences;
use crate::layers::{Project, list_layers, store_after};
use crate::listing::Listing;
use ctangle_cli::{Disk, LoadFault, WordFault, Words, command_line, load, write_load};
use std::alloc::Global;
use tangle_lines::{NoMemory, Sink, write_after};

const USAGE: &[u8] =
    b"usage: tangle_layers [flags] web [change [out]] [--and web [change [out]]]\n";

// Writes the line of a fault, and returns status 3.
fn report<E: Sink>(fault: &LoadFault, err: &mut E) -> u8 {
    let _ = write_load(b"tangle_layers", fault, err);
    3
}

/// Writes the line that says that memory ran out, and returns status 3.
pub fn report_no_memory<E: Sink>(err: &mut E) -> u8 {
    report(&LoadFault::NoMemory, err)
}

fn report_usage<E: Sink>(err: &mut E) -> u8 {
    let _ = write_after(err, Ok(0), USAGE);
    2
}

fn load_project(rt: &HostRuntime, names: &Words) -> Result<Project, LoadFault> {
    let (files, roles) = load(rt.alloc(), names, &mut Disk::new(rt))?;
    Ok(Project { files, roles })
}

fn load_second(rt: &HostRuntime, names: &Option<Words>) -> Result<Option<Project>, LoadFault> {
    match names {
        Some(names) => Ok(Some(load_project(rt, names)?)),
        None => Ok(None),
    }
}

fn list_loaded<S: Sink>(
    alloc: Global,
    out: &mut Listing<S>,
    first: &Project,
    second: &Option<Project>,
) -> Result<(), NoMemory> {
    let store = list_layers(alloc, out, first)?;
    match second {
        Some(second) => {
            let edited = store_after(alloc, second, &store)?;
            list_differences(alloc, out, &store, &edited)
        }
        None => Ok(()),
    }
}

// Loads the webs, and lists the layers of the first and what differs in the second.
fn list_all<S: Sink>(
    rt: &HostRuntime,
    out: &mut Listing<S>,
    arguments: &Arguments,
) -> Result<(), LoadFault> {
    let first = load_project(rt, &arguments.first)?;
    let second = load_second(rt, &arguments.second)?;
    match list_loaded(rt.alloc(), out, &first, &second) {
        Ok(()) => Ok(()),
        Err(NoMemory) => Err(LoadFault::NoMemory),
    }
}

fn run_arguments<S: Sink, E: Sink>(
    rt: &HostRuntime,
    arguments: &[&[u8]],
    out: &mut Listing<S>,
    err: &mut E,
) -> u8 {
    match read_arguments(rt.alloc(), arguments) {
        Err(WordFault::Usage) => report_usage(err),
        Err(WordFault::NoMemory) => report_no_memory(err),
        Ok(arguments) => match list_all(rt, out, &arguments) {
            Ok(()) => 0,
            Err(fault) => report(&fault, err),
        },
    }
}

/// Runs the program, and returns its status.
pub fn run<S: Sink, E: Sink>(rt: &HostRuntime, out: &mut Listing<S>, err: &mut E) -> u8 {
    let Ok(arguments) = command_line(rt) else {
        return report_no_memory(err);
    };
    let names = arguments.iter().skip(1).map(|argument| argument.as_bytes());
    match names.collect::<Vec<&[u8]>>(rt.alloc()) {
        Ok(arguments) => run_arguments(rt, arguments.as_slice(), out, err),
        Err(_) => report_no_memory(err),
    }
}
