//! The full names of a web.
use crate::listing::Listing;
use tangle_lines::Sink;
use tangle_names::NameTable;

fn list_found<S: Sink>(out: &mut Listing<S>, table: &NameTable, text: &[u8]) {
    out.begin(b"find");
    out.text(text);
    match table.find(text) {
        Some(id) => out.number(id),
        None => out.word(b"none"),
    }
    out.end();
}

/// Lists the full names, and what is found for each and for white space, which is no name.
pub fn list_names<S: Sink>(out: &mut Listing<S>, table: &NameTable) {
    for id in 0..table.count() {
        out.begin(b"name");
        out.number(id);
        out.text(table.text(id));
        out.word(b"occurrence");
        out.number(table.first_occurrence(id));
        if let Some(occurrence) = table.first_file_occurrence(id) {
            out.word(b"file");
            out.number(occurrence);
        }
        out.end();
    }
    for id in 0..table.count() {
        list_found(out, table, table.text(id));
    }
    list_found(out, table, b"  ");
}
