//! The faults that a layer finds.
use crate::listing::Listing;
use crate::text_lines::{LineFeeds, TextLines};
use std::fmt::Write;
use tangle_lines::{Fault, FaultKind, Sink, write_fault};

fn level(kind: FaultKind) -> &'static [u8] {
    if kind.is_error() {
        b"error"
    } else {
        b"warning"
    }
}

fn list_fault<S: Sink>(out: &mut Listing<S>, layer: &[u8], fault: &Fault) {
    let kind = fault.kind();
    out.begin(b"fault");
    out.word(layer);
    let _ = write!(out, " {kind:?}");
    out.word(level(kind));
    match fault.place() {
        Some(place) => out.place(place.file(), place.line()),
        None => out.word(b"nowhere"),
    }
    out.text(fault.subject());
    out.number(fault.count());
    out.end();
    let mut line = TextLines::new(out, LineFeeds::Dropped);
    let _ = write_fault(fault, &mut line);
    line.close();
}

/// Lists the faults that a layer finds, and the line of each.
pub fn list_faults<S: Sink>(out: &mut Listing<S>, layer: &[u8], faults: &[Fault]) {
    for fault in faults {
        list_fault(out, layer, fault);
    }
}
