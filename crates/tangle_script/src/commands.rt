//! Finds the commands in a part of a script.
ghost use Rattle.std.specs.Prelude.{◌≡◌, ◌<◌, [], ◌∷◌, ◌++◌, length, nat_lt, IfSome};
ghost use Rattle.std.specs.Prelude.{IfNone};
ghost use Rattle.std.specs.Option.{option_copied};
ghost use Rattle.tangle_script.specs.Commands.{IsEnd, OnlyWaits, all_commands, ended};
ghost use Rattle.tangle_script.specs.Commands.{ended_commands, found_commands, last_text, pending};
ghost use Rattle.tangle_script.specs.Commands.{unended};

use crate::request::takes_text;
use memchr::memchr;

/// A command, which is a line with its text if it takes one, and the bytes after the command.
#[derive(Clone, Copy, Drop)]
pub struct Found<'a> {
    pub line: &'a [u8],
    pub text: Option<&'a [u8]>,
    pub rest: &'a [u8],
}

/// The first line, and the bytes after its line feed, if there is one.
fn split_line(bytes: &[u8]) -> Option<(&[u8], &[u8])>
    ensures some { IfSome result (λ p. (ended [] bytes.now ≡ p.0.now ∷ ended [] p.1.now)
        × (unended [] bytes.now ≡ unended [] p.1.now)
        × (bytes.now ≡ p.0.now ++ 10 ∷ p.1.now)
        × IsEnd p.1.now bytes.now × (length p.1.now < length bytes.now)) }
    ensures none { IfNone result ((ended [] bytes.now ≡ []) × (unended [] bytes.now ≡ bytes.now)) }
{
    match memchr(b'\n', bytes) {
        Some(end) => Some((&bytes[..end], &bytes[end + 1..])),
        None => None,
    }
}

/// Whether the bytes have a line feed.
pub fn ends_a_line(bytes: &[u8]) -> bool
    ensures { result ≡ nat_lt 0 (length (ended [] bytes.now)) }
{
    match split_line(bytes) {
        Some(_) => true,
        None => false,
    }
}

/// The first command that has ended in these bytes, if there is one.
pub fn first_command(bytes: &[u8]) -> Option<Found<'_>>
    ensures commands { IfSome result (λ f. ended_commands bytes.now
        ≡ found_commands f.line.now (option_copied f.text) ++ ended_commands f.rest.now) }
    ensures pending { IfSome result (λ f. pending bytes.now ≡ pending f.rest.now) }
    ensures rest { IfSome result (λ f. IsEnd f.rest.now bytes.now) }
    ensures fewer { IfSome result (λ f. length f.rest.now < length bytes.now) }
    ensures none { IfNone result
        ((ended_commands bytes.now ≡ []) × (pending bytes.now ≡ bytes.now)) }
{
    let (line, rest) = split_line(bytes)?;
    if !takes_text(line) {
        return Some(Found {
            line,
            text: None,
            rest,
        });
    }
    let (text, rest) = split_line(rest)?;
    Some(Found {
        line,
        text: Some(text),
        rest,
    })
}

// The text at the end of a script, if there is one.
fn last_text(bytes: &[u8]) -> Option<&[u8]>
    ensures { option_copied result ≡ last_text bytes.now }
{
    match bytes {
        [] => None,
        _ => Some(bytes),
    }
}

/// The command at the end of a script: a line without a line feed, or one whose text is missing or
/// has no line feed.
#[tactic(auto, using(crate::proofs::CommandLemmas::last_with_text))]
pub fn last_command(bytes: &[u8]) -> (&[u8], Option<&[u8]>)
    requires { OnlyWaits bytes.now }
    ensures { all_commands bytes.now ≡ found_commands result.0.now (option_copied result.1) }
{
    match split_line(bytes) {
        None => (bytes, None),
        Some((line, text)) => (line, last_text(text)),
    }
}
