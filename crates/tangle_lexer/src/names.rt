//! Section names.
#![tactic(auto, using(crate::proofs::lemmas::NameLemmas::name_steps))]

ghost use Rattle.std.specs.Prelude.{◌≡◌, ◌+◌, ◌++◌, [], ◌∷◌, ℕ, List, length, drop, not, true};
ghost use Rattle.std.specs.Prelude.{if◌then◌else◌, Decides, IfOk, OnOk};
ghost use Rattle.tangle_text.specs.Bytes as byte;
ghost use Rattle.tangle_text.specs.Text.{byte_at, front_line};
ghost use Rattle.tangle_text.specs.Regions.{region_end, unit_at};
ghost use Rattle.tangle_lexer.specs.Occurrences.{occurrence_of};
ghost use Rattle.tangle_text.specs.declared.regions.Region.TheVariants as region;
ghost use Rattle.tangle_text.specs.declared.regions.Unit.TheVariants as unit;
ghost use Rattle.tangle_faults.specs.declared.faults.FaultKind.TheVariants as fault;
ghost use Rattle.tangle_lexer.specs.declared.tokens.Token.TheVariants as token;
ghost use Rattle.tangle_lexer.specs.Lexemes.{fault_if, is_in_directive};
ghost use Rattle.tangle_lexer.specs.declared.names.Equals.TheVariants as equals;
ghost use Rattle.tangle_lexer.specs.declared.occurrences.OccurrenceRole.TheVariants as role;
ghost use Rattle.tangle_lexer.specs.Reads.{PassesEquals, ReadsLexeme};
ghost use Rattle.tangle_lexer.specs.Names as spec;
ghost use Rattle.tangle_lexer.specs.Names.{form_after};
ghost use Rattle.tangle_text.specs.NameBytes as name_bytes;

use crate::comments::{is_region_end, pass_end};
use crate::modes::{Lexed, LexerState, Mode};
use crate::occurrences::{Occurrence, OccurrenceRole};
use crate::tokens::{LexerBuffers, Pushed, Token, Tokens, push_fault_if};
use crate::white::skip_white;
use bstr::ByteSlice;
use std::alloc::{AllocError, Global};
use tangle_files::SharedSlice;
use tangle_lines::{FaultKind, Source};
use tangle_text::{Front, Reader, Region, Unit, holds, is_white, unit_of};

/// The equals sign after a name of documentation, which makes the name a definition.
#[derive(Clone, Copy)]
pub enum Equals {
    Absent,
    /// `=` alone.
    Single,
    /// `==`.
    Double,
}

/// A section name that was read, before it has a role.
#[derive(Drop)]
struct Name {
    text: SharedSlice,
    is_file: bool,
    /// The line of the `@` that opens the name.
    line: u32,
    /// The line on which the name ends.
    end_line: u32,
    /// Whether `@>` ends the name.
    is_ended: bool,
}

/// Adds a byte to a name in normal form. White space adds nothing by itself: the next byte adds one
/// space for it, inside the name. `white` is whether the byte before was white space, and the
/// result whether this byte is.
#[inline(always)]
fn push_byte(name: &mut Vec<u8>, white: bool, byte: u8) -> Result<bool, AllocError>
    ensures { IfOk result (λ after. (rest : List ℕ) → form_after name.new.items after rest
        ≡ form_after name.old.items white (byte ∷ rest)) }
{
    if is_white(byte) {
        return Ok(true);
    }
    if !name.is_empty() && white {
        name.push(b' ')?;
    }
    name.push(byte)?;
    Ok(false)
}

/// Adds a unit of one or two bytes to a name; `@@` adds one `@`, and a line end (`None`) a space.
/// `white` and the result are those of `push_byte`.
fn push_unit(name: &mut Vec<u8>, white: bool, unit: Unit, front: Front) -> Result<bool, AllocError>
    ensures { IfOk result (λ after. (rest : List ℕ) → form_after name.new.items after rest
        ≡ form_after name.old.items white
        (name_bytes.unit_name_bytes unit front.byte front.next ++ rest)) }
{
    match unit {
        Unit::Two => {
            let white = push_byte(name, white, b'@')?;
            if holds(b'@', front.next) {
                return Ok(white);
            }
            push_byte(name, white, front.next.unwrap_or(b' '))
        }
        _ => push_byte(name, white, front.byte.unwrap_or(b' ')),
    }
}

/// Adds bytes other than `@` to a name. `white` and the result are those of `push_byte`.
fn push_bytes(name: &mut Vec<u8>, white: bool, bytes: &[u8]) -> Result<bool, AllocError>
    ensures { IfOk result (λ after. (rest : List ℕ) → form_after name.new.items after rest
        ≡ form_after name.old.items white (bytes.now ++ rest)) }
{
    let mut after = white;
    for byte in bytes {
        after = push_byte(name, after, *byte)?;
    }
    Ok(after)
}

/// Whether these bytes, as those of most names, are past the space but for single spaces between
/// them. Then they are in normal form. `false` promises nothing: such a name is read byte by byte.
fn has_single_spaces(bytes: &[u8]) -> bool
    ensures { result ≡ true → spec.normal_form bytes.now ≡ bytes.now }
{
    let mut white = true;
    for byte in bytes {
        if *byte > b' ' {
            white = false;
        } else if white || *byte < b' ' {
            return false;
        } else {
            white = true;
        }
    }
    !white || bytes.is_empty()
}

/// The initial capacity of the text of a name, in bytes. Most names are not longer.
const NAME_CAPACITY: usize = 32;

/// Reads the text of a name up to its end, and returns its normal form.
#[inline(always)]
fn read_text(alloc: Global, reader: &mut Reader) -> Result<SharedSlice, AllocError>
    ensures text { IfOk result (λ name. name ≡ spec.name_text reader.old) }
    ensures ahead { OnOk result (reader.new ≡ region_end region.Name reader.old) }
{
    let slice = reader.take_name_bytes()?;
    // Most names end on their line and are written as they are stored.
    if is_region_end(Region::Name, reader) && has_single_spaces(slice.bytes()) {
        return Ok(slice);
    }
    let mut name = Vec::with_capacity(alloc, NAME_CAPACITY)?;
    let mut white = push_bytes(&mut name, false, slice.bytes())?;
    while let Some(front) = reader.front() {
        let unit = unit_of(Region::Name, front.byte, front.next);
        if let Unit::Stop = unit {
            return SharedSlice::whole(alloc, name);
        }
        white = push_unit(&mut name, white, unit, front)?;
        reader.pass(unit);
        let slice = reader.take_name_bytes()?;
        white = push_bytes(&mut name, white, slice.bytes())?;
    }
    SharedSlice::whole(alloc, name)
}

/// Reads a name with its opening, and with `@>` if that ends it. `last` is the number of the last
/// source line.
fn read_name(alloc: Global, reader: &mut Reader, last: u32) -> Result<Name, AllocError>
    ensures text { IfOk result (λ name. name.text ≡ spec.name_text (drop 2 reader.old)) }
    ensures is_file { IfOk result
        (λ name. name.is_file ≡ byte.holds byte.left_parenthesis (byte_at 1 reader.old)) }
    ensures line { IfOk result (λ name. name.line ≡ front_line last reader.old) }
    ensures end_line { IfOk result
        (λ name. name.end_line ≡ front_line last (spec.name_end reader.old)) }
    ensures is_ended { IfOk result (λ name. name.is_ended ≡ spec.is_ended reader.old) }
    ensures ahead { OnOk result (reader.new ≡ spec.after_name reader.old) }
{
    let line = reader.line(last);
    let is_file = matches!(reader.front(), Some(front) if holds(b'(', front.next));
    reader.pass(Unit::Two);
    let text = read_text(alloc, reader)?;
    let end_line = reader.line(last);
    let is_ended = pass_end(Region::Name, reader);
    Ok(Name {
        text,
        is_file,
        line,
        end_line,
        is_ended,
    })
}

/// Whether a name is an abbreviation: it ends in three dots.
fn is_abbreviation(name: &[u8]) -> bool
    ensures { result ≡ spec.is_abbreviation name.now }
{
    name.ends_with_str(b"...")
}

/// Adds an occurrence of this name in this role, and returns the state with one more occurrence.
#[inline(always)]
fn push_occurrence(
    source: &Source,
    occurrences: &mut Vec<Occurrence>,
    name: Name,
    role: OccurrenceRole,
    state: LexerState,
) -> Lexed
    requires { state.occurrences ≡ length occurrences.old.items }
    ensures occurrences { OnOk result (occurrences.new.items ≡ occurrences.old.items
        ++ occurrence_of source.now.lines (spec.in_role role name) ∷ []) }
    ensures state { IfOk result
        (λ after. after ≡ record state { occurrences = state.occurrences + 1 }) }
{
    let is_abbreviation = is_abbreviation(name.text.bytes());
    occurrences.push(Occurrence {
        text: name.text,
        is_abbreviation,
        is_file: name.is_file,
        role,
        origin: source.origin(name.line as usize),
    })?;
    Ok(LexerState {
        occurrences: occurrences.len(),
        ..state
    })
}

/// Advances over optional white space, an optional `+` and optional white space, to where the
/// equals sign of a definition may be. All that is white space in C text is white space here, if it
/// ends on the line and without a fault.
fn skip_to_equals(reader: &mut Reader)
    ensures { reader.new ≡ drop (spec.count_before_equals reader.old) reader.old }
{
    skip_white(reader);
    if holds(b'+', reader.byte()) {
        reader.advance();
        skip_white(reader);
    }
}

/// Whether the byte after a name shows that no equals sign follows: it is none itself, and neither
/// `+` nor white space, a comment or a control code begins with it. `false` promises nothing.
#[inline(always)]
fn has_no_equals(reader: &Reader) -> bool
    ensures { result ≡ true → spec.equals_in reader.now ≡ equals.Absent }
{
    match reader.byte() {
        Some(byte) => !is_white(byte) && !matches!(byte, b'=' | b'+' | b'/' | b'@'),
        None => true,
    }
}

/// The equals sign that the text ahead begins with.
fn equals_at(reader: &Reader) -> Equals
    ensures { result ≡ spec.equals_by (byte_at 0 reader.now) (byte_at 1 reader.now) }
{
    match reader.front() {
        Some(front) if holds(b'=', front.byte) && holds(b'=', front.next) => Equals::Double,
        Some(front) if holds(b'=', front.byte) => Equals::Single,
        _ => Equals::Absent,
    }
}

/// The equals sign that follows a name. Advances to its last byte, if there is one.
fn to_equals(reader: &mut Reader) -> Equals
    ensures equals { result ≡ spec.equals_in reader.old }
    ensures ahead { (result ≡ equals.Absent → ⊥)
        → reader.new ≡ drop (spec.equals_last reader.old) reader.old }
{
    if has_no_equals(reader) {
        return Equals::Absent;
    }
    skip_to_equals(reader);
    let equals = equals_at(reader);
    if let Equals::Double = equals {
        reader.advance();
    }
    equals
}

/// Whether a single `=` follows a name, which makes a use look like a definition.
fn has_single_equals(reader: &Reader) -> bool
    ensures { result ≡ spec.has_single_equals reader.now }
{
    let mut further = reader.copy();
    matches!(to_equals(&mut further), Equals::Single)
}

/// Adds a use of this name, which is the next occurrence, and the faults of the use.
fn push_use(tokens: &mut Tokens, name: &Name, state: LexerState, has_single_equals: bool) -> Pushed
    ensures { OnOk result (tokens.new.items ≡ tokens.old.items
        ++ token.UseOf name.now.end_line state.occurrences
        ∷ fault_if (is_in_directive state) fault.UseInDirective name.now.line
        ++ fault_if (not name.now.is_ended) fault.NameEnd name.now.end_line
        ++ fault_if has_single_equals fault.NameEquals name.now.line) }
{
    tokens.push(Token::UseOf(name.end_line, state.occurrences))?;
    let in_directive = state.is_in_directive();
    push_fault_if(tokens, in_directive, FaultKind::UseInDirective, name.line)?;
    push_fault_if(tokens, !name.is_ended, FaultKind::NameEnd, name.end_line)?;
    push_fault_if(tokens, has_single_equals, FaultKind::NameEquals, name.line)
}

/// Reads a name in C text. It is a use, even if it is in a directive or looks like a definition,
/// which are faults.
#[inline(never)]
pub fn use_of_name(
    source: &Source,
    buffers: &mut LexerBuffers,
    reader: &mut Reader,
    state: LexerState,
) -> Lexed
    requires { state.occurrences ≡ length buffers.old.occurrences.items }
    ensures { IfOk result (λ after. ReadsLexeme source.now.lines buffers.old buffers.new
        reader.old reader.new after (spec.use_of_name state reader.old)) }
{
    let name = read_name(*buffers.occurrences.allocator(), reader, state.last_line)?;
    let equals = has_single_equals(reader);
    push_use(&mut buffers.tokens, &name, state, equals)?;
    let occurrences = &mut buffers.occurrences;
    let after = state.after_use();
    let after = push_occurrence(source, occurrences, name, OccurrenceRole::Use, after)?;
    Ok(after)
}

/// Advances past the equals sign after a name that `@>` ends, and returns the line of that sign. If
/// none follows, does not advance and returns `None`.
fn pass_equals(reader: &mut Reader, is_ended: bool, last: u32) -> Option<u32>
    ensures { PassesEquals (if is_ended then spec.equals_in reader.old else equals.Absent)
        (spec.equals_last reader.old) last reader.old reader.new result }
{
    if !is_ended {
        return None;
    }
    let mut further = reader.copy();
    if let Equals::Absent = to_equals(&mut further) {
        return None;
    }
    let line = further.line(last);
    further.advance();
    *reader = further;
    Some(line)
}

/// Reads a name in documentation, or one that ends a macro: a definition with its equals sign,
/// after which a C part begins, or else a mention, after which documentation follows.
pub fn name_in_documentation(
    source: &Source,
    buffers: &mut LexerBuffers,
    reader: &mut Reader,
    state: LexerState,
) -> Lexed
    requires { state.occurrences ≡ length buffers.old.occurrences.items }
    ensures { IfOk result (λ after. ReadsLexeme source.now.lines buffers.old buffers.new
        reader.old reader.new after (spec.name_in_documentation state reader.old)) }
{
    let name = read_name(*buffers.occurrences.allocator(), reader, state.last_line)?;
    let occurrences = &mut buffers.occurrences;
    let Some(line) = pass_equals(reader, name.is_ended, state.last_line) else {
        let tokens = &mut buffers.tokens;
        push_fault_if(tokens, !name.is_ended, FaultKind::NameEnd, name.end_line)?;
        let in_macro = matches!(state.mode, Mode::Macro);
        push_fault_if(tokens, in_macro, FaultKind::NameInMacro, name.line)?;
        let after = state.in_mode(Mode::Documentation);
        let after = push_occurrence(source, occurrences, name, OccurrenceRole::Mention, after)?;
        return Ok(after);
    };
    let head = Token::NamedPart(line, state.occurrences);
    buffers.tokens.push(head)?;
    let after = state.in_mode(Mode::CPart);
    let after = push_occurrence(source, occurrences, name, OccurrenceRole::Definition, after)?;
    Ok(after)
}
