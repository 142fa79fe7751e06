//! The requests of script lines.
ghost use Rattle.std.specs.Prelude.{◌≡◌};
ghost use Rattle.std.specs.Option.{option_copied, option_map};
ghost use Rattle.tangle_script.specs.Requests.{Command, after_word, request_read, word_request};
ghost use Rattle.tangle_script.specs.Requests.{file_request, is_quit, number_and_file, request_of};
ghost use Rattle.tangle_script.specs.Requests.{takes_text, text_request};
ghost use Rattle.tangle_script.specs.Table.{AsksForItsRow};

/// The request of a script line. Some lines take the line after them as their text.
#[derive(Clone, Copy, Debug, PartialEq, Eq)]
pub enum Request<'a> {
    /// Insert the text before this line of the file, so that it gets the line's number.
    Insert {
        at: u32,
        file: &'a [u8],
        text: &'a [u8],
    },
    /// Replace this line of the file by the text.
    Replace {
        at: u32,
        file: &'a [u8],
        text: &'a [u8],
    },
    /// Remove this line of the file.
    Remove {
        at: u32,
        file: &'a [u8],
    },
    /// Add a file without lines.
    Create {
        file: &'a [u8],
    },
    /// Remove the file.
    Discard {
        file: &'a [u8],
    },
    /// Write the output of this name.
    Show {
        file: &'a [u8],
    },
    /// From here on, write line marks in full.
    MarksFull,
    /// From here on, write line marks as line feeds.
    MarksNone,
    /// Open a list of edits, which holds edits until it is committed or dropped.
    Begin,
    /// Make all edits of the open list, or none.
    Commit,
    /// Drop the open list.
    Cancel,
    /// List the faults.
    Faults,
    /// Give the number of nodes that were expanded last.
    Work,
    /// End the run.
    Quit,
    /// The line is not in the table, or it takes a text and has none.
    BadCommand,
}

impl Request<'_> {
    /// Whether the run ends after this request.
    pub fn is_quit(&self) -> bool
        ensures { result ≡ is_quit (request_read self.now) }
    {
        matches!(self, Request::Quit)
    }
}

// The rest of the line, if it begins with this word.
fn after_word<'a>(line: &'a [u8], word: &[u8]) -> Option<&'a [u8]>
    ensures { option_copied result ≡ after_word word.now line.now }
{
    line.strip_prefix(word)
}

// Reads one to nine digits and a space. Returns their number and the rest of the line.
#[tactic(auto, using(crate::proofs::BufferLemmas::powers))]
fn number_and_file(rest: &[u8]) -> Option<(u32, &[u8])>
    ensures { option_map (λ p. (p.0, p.1.now)) result ≡ number_and_file 0 0 rest.now }
{
    let mut number = 0u32;
    for (count, byte) in rest.iter().enumerate() {
        if byte.is_ascii_digit() && count < 9 {
            number = number * 10 + (*byte - b'0') as u32;
        } else if *byte == b' ' && 0 < count {
            return Some((number, &rest[count + 1..]));
        } else {
            return None;
        }
    }
    None
}

// The request of a line that is one of the fixed lines of the table.
fn word_request<'a>(line: &'a [u8]) -> Request<'a>
    ensures { request_read result ≡ word_request line.now }
{
    if line == b"marks full".as_slice() {
        Request::MarksFull
    } else if line == b"marks none".as_slice() {
        Request::MarksNone
    } else if line == b"begin".as_slice() {
        Request::Begin
    } else if line == b"commit".as_slice() {
        Request::Commit
    } else if line == b"cancel".as_slice() {
        Request::Cancel
    } else if line == b"faults".as_slice() {
        Request::Faults
    } else if line == b"work".as_slice() {
        Request::Work
    } else if line == b"quit".as_slice() {
        Request::Quit
    } else {
        Request::BadCommand
    }
}

// The request of a line without a text, which may name a file.
fn file_request<'a>(line: &'a [u8]) -> Request<'a>
    ensures { request_read result ≡ file_request line.now }
{
    if let Some(rest) = after_word(line, b"remove ") {
        return match number_and_file(rest) {
            Some((at, file)) => Request::Remove { at, file },
            None => Request::BadCommand,
        };
    }
    if let Some(file) = after_word(line, b"create ") {
        return Request::Create { file };
    }
    if let Some(file) = after_word(line, b"discard ") {
        return Request::Discard { file };
    }
    if let Some(file) = after_word(line, b"show ") {
        return Request::Show { file };
    }
    word_request(line)
}

// The request of a line with a text.
fn text_request<'a>(line: &'a [u8], text: &'a [u8]) -> Request<'a>
    ensures { request_read result ≡ text_request line.now text.now }
{
    if let Some(rest) = after_word(line, b"insert ") {
        return match number_and_file(rest) {
            Some((at, file)) => Request::Insert { at, file, text },
            None => Request::BadCommand,
        };
    }
    if let Some(rest) = after_word(line, b"replace ") {
        return match number_and_file(rest) {
            Some((at, file)) => Request::Replace { at, file, text },
            None => Request::BadCommand,
        };
    }
    Request::BadCommand
}

/// Whether the line takes the next line as its text.
#[tactic(auto, unfolding(crate::specs::Requests::takes_text))]
pub fn takes_text(line: &[u8]) -> bool
    ensures { result ≡ takes_text line.now }
{
    after_word(line, b"insert ").is_some() || after_word(line, b"replace ").is_some()
}

/// The request of a line, with its text if there is one.
#[tactic(auto, unfolding(crate::specs::Requests::request_of))]
pub fn parse<'a>(line: &'a [u8], text: Option<&'a [u8]>) -> Request<'a>
    ensures { request_read result
        ≡ request_of (record { line = line.now; text = option_copied text.entry }) }
{
    match text {
        Some(text) => text_request(line, text),
        None => file_request(line),
    }
}

/// A command gives the request of its row in the table of script lines, and no other. It is a bad
/// command exactly if it is in no row.
#[tactic(auto, using(crate::proofs::TableLemmas::asks_for_its_row))]
pub fn each_command_asks_for_its_row()
    ensures { (command : Command) → AsksForItsRow command }
{}
