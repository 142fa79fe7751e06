//! The name that a line includes.
ghost use Rattle.std.specs.Prelude.{◌≡◌, ◌==◌, ◌||◌};
ghost use Rattle.std.specs.List.{before_first};
ghost use Rattle.std.specs.Option.{option_copied};
ghost use Rattle.tangle_lines.specs.Bytes.{double_quote, is_white};
ghost use Rattle.tangle_lines.specs.Inclusion.{name_in, after_white};
ghost use Rattle.tangle_lines.specs.Inclusion.{included_name as name_of_inclusion};

use bstr::ByteSlice;

/// White space: the space, tab, carriage return, vertical tab and form feed.
pub(crate) const WHITE: &[u8] = b" \t\r\x0b\x0c";

/// White space and the quote: the first of these ends a name without quotes.
const WHITE_OR_QUOTE: &[u8] = b" \t\r\x0b\x0c\"";

/// The name that a line includes, which may be empty. A line that begins with `@i` or `@I` is an
/// inclusion; a name in quotes may have white space in it, and what follows the name is ignored.
/// Other lines include nothing.
pub fn included_name(line: &[u8]) -> Option<&[u8]>
    ensures { option_copied result ≡ name_of_inclusion line.now }
{
    match line {
        [b'@', b'i' | b'I', rest @ ..] => Some(inclusion_name(skip_white(rest))),
        _ => None,
    }
}

/// The name in the bytes after `@i` and white space.
fn inclusion_name(bytes: &[u8]) -> &[u8]
    ensures { result.now ≡ name_in bytes.now }
{
    match bytes {
        [] => bytes,
        [b'"', rest @ ..] => before_quote(rest),
        _ => before_white_or_quote(bytes),
    }
}

/// The bytes from the first one on that isn't white space.
// This function and `before_white_or_quote` are not inlined: the search puts a table on the stack,
// and most lines include nothing.
#[inline(never)]
fn skip_white(bytes: &[u8]) -> &[u8]
    ensures { result.now ≡ after_white bytes.now }
{
    let start = bytes.find_not_byteset(WHITE).unwrap_or(bytes.len());
    &bytes[start..]
}

/// The bytes before the first quote.
fn before_quote(bytes: &[u8]) -> &[u8]
    ensures { result.now ≡ before_first (λ c. c == double_quote) bytes.now }
{
    let end = bytes.find_byte(b'"').unwrap_or(bytes.len());
    &bytes[..end]
}

/// The bytes before the first white space or quote.
#[inline(never)]
fn before_white_or_quote(bytes: &[u8]) -> &[u8]
    ensures { result.now ≡ before_first (λ c. is_white c || (c == double_quote)) bytes.now }
{
    let end = bytes.find_byteset(WHITE_OR_QUOTE).unwrap_or(bytes.len());
    &bytes[..end]
}
