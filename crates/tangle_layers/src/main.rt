//! `tangle_layers [flags] web [change [out]] [--and web [change [out]]]`: prints what the layers
//! below the session make of a web, and what differs in a second one (`docs/layers.md`).
#![tactic(auto)]

mod arguments;
mod differences;
mod faults;
mod graph;
mod layers;
mod listing;
mod names;
mod output_files;
mod running;
mod section_names;
mod source_parts;
mod sources;
mod text_lines;
mod web_parts;

use ctangle_cli::lines_to;
use listing::Listing;
use running::{report_no_memory, run};
use std::io::BufWriter;
use std::process::ExitCode;
use tangle_lines::{IoSink, Sink};

// Runs the program, and returns its status. What was printed before a fault stays.
fn run_buffered<E: Sink>(rt: &HostRuntime, err: &mut E) -> u8 {
    let Ok(buffer) = BufWriter::new(rt.alloc(), rt.stdout()) else {
        return report_no_memory(err);
    };
    let mut out = Listing::new(IoSink::new(buffer));
    let status = run(rt, &mut out, err);
    let mut sink = out.into_sink();
    sink.flush();
    if sink.failures() == 0 { status } else { 3 }
}

fn main(rt: HostRuntime) -> ExitCode {
    let mut err = lines_to(&rt, rt.stderr());
    let status = run_buffered(&rt, &mut err);
    err.flush();
    ExitCode::from(if err.failures() == 0 { status } else { 3 })
}
