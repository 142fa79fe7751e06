//! The roles, the files and the source lines.
use crate::listing::Listing;
use tangle_lines::{Files, Roles, Sink, Source};

fn list_named<S: Sink>(out: &mut Listing<S>, word: &[u8], name: &[u8]) {
    out.begin(word);
    out.text(name);
    out.end();
}

/// Lists the names of the web, of its change file, if there is one, and of the main file.
pub fn list_roles<S: Sink>(out: &mut Listing<S>, roles: &Roles) {
    list_named(out, b"web", roles.web());
    if let Some(change) = roles.change() {
        list_named(out, b"change", change);
    }
    list_named(out, b"out", roles.out());
}

/// Lists the files of the table.
pub fn list_files<S: Sink>(out: &mut Listing<S>, files: &Files) {
    for number in 0..files.count() {
        let number = number as u16;
        out.begin(b"file");
        out.number(number);
        out.text(files.name_at(number));
        out.number(files.lines_at(number).len());
        out.end();
    }
}

/// Lists the source lines.
pub fn list_lines<S: Sink>(out: &mut Listing<S>, source: &Source) {
    for number in 0..source.count() {
        let origin = source.origin(number);
        out.begin(b"line");
        out.number(number);
        out.place(source.file_name(origin), origin.line);
        out.word_if(source.is_changed(number), b"changed");
        out.text(source.line(number));
        out.end();
    }
}
