//! The occurrences of section names.
ghost use Rattle.std.specs.Prelude.{◌≡◌};
ghost use Rattle.tangle_names.specs.NameTable.{table_of};

use crate::listing::Listing;
use tangle_lines::Sink;
use tangle_names::{NameTable, Resolved};
use tangle_scan::{Occurrence, OccurrenceRole, Web};

fn role_word(role: OccurrenceRole) -> &'static [u8] {
    match role {
        OccurrenceRole::Definition => b"definition",
        OccurrenceRole::Use => b"use",
        OccurrenceRole::Mention => b"mention",
    }
}

fn form(occurrence: &Occurrence) -> &'static [u8] {
    if occurrence.is_abbreviation() {
        b"abbreviated"
    } else {
        b"full"
    }
}

fn add_target<S: Sink>(out: &mut Listing<S>, resolved: Resolved) {
    match resolved {
        Resolved::Name(id) => {
            out.word(b"name");
            out.number(id);
        }
        Resolved::NoFullName => out.word(b"no full name"),
        Resolved::Ambiguous => out.word(b"several full names"),
    }
}

/// Lists the occurrences of section names, each with what it resolves to in the web's table.
pub fn list_occurrences<S: Sink>(out: &mut Listing<S>, web: &Web, table: &NameTable)
    requires { table.now ≡ table_of web.now }
{
    for (number, occurrence) in web.occurrences().iter().enumerate() {
        let origin = occurrence.origin();
        out.begin(b"occurrence");
        out.number(number);
        out.place(web.file_name(origin), origin.line);
        out.word(role_word(occurrence.role()));
        out.word(if occurrence.is_file() { b"@(" } else { b"@<" });
        out.word(form(occurrence));
        out.text(occurrence.text());
        add_target(out, table.resolve(number));
        out.end();
    }
}
