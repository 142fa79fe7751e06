//! The faults among the tokens of a web.
ghost use Rattle.std.specs.Prelude.{◌≡◌, ◌++◌, ◌∷◌, [], None, OnOk};
ghost use Rattle.std.specs.List.{All, list_any};
ghost use Rattle.tangle_lexer.specs.Runs.{IsRunIn};
ghost use Rattle.tangle_scan.specs.RawStrings as raw;
ghost use Rattle.tangle_scan.specs.Rules.{texts_of};
ghost use Rattle.tangle_scan.specs.Web as web;

use crate::raw_strings::add_raw_fault;
use std::alloc::Global;
use tangle_lexer::{Token, is_between_items};
use tangle_lines::{Fault, FaultKind, NoMemory, Source};

/// Adds a fault on a source line.
pub(crate) fn add_fault(
    alloc: Global,
    source: &Source,
    faults: &mut Vec<Fault>,
    kind: FaultKind,
    line: u32,
) -> Result<(), NoMemory>
    ensures { OnOk result (faults.new.items
        ≡ faults.old.items ++ web.fault_on source.now.files source.now.lines kind line ∷ []) }
{
    let origin = source.origin(line as usize);
    let fault = Fault::at(alloc, kind, source.file_name(origin), origin.line)?;
    faults.push(fault)?;
    Ok(())
}

/// Adds the fault of a token, if the token is a fault.
fn add_own_fault(
    alloc: Global,
    source: &Source,
    faults: &mut Vec<Fault>,
    token: Token,
) -> Result<(), NoMemory>
    ensures { OnOk result (faults.new.items ≡ faults.old.items
        ++ web.own_fault source.now.files source.now.lines token) }
{
    if let Token::Fault(kind, line) = token {
        add_fault(alloc, source, faults, kind, line)?;
    }
    Ok(())
}

/// Adds the faults of some tokens: of those that are faults, and of raw strings that are not whole.
pub(crate) fn add_faults(
    alloc: Global,
    source: &Source,
    faults: &mut Vec<Fault>,
    tokens: &[Token],
) -> Result<(), NoMemory>
    requires { All (IsRunIn (texts_of source.now.lines)) tokens.now }
    ensures { OnOk result (faults.new.items ≡ faults.old.items
        ++ web.token_faults source.now.files source.now.lines None tokens.now) }
{
    let mut before = Token::White;
    let mut left = tokens;
    while let [token, rest @ ..] = left {
        add_raw_fault(alloc, source, faults, before, left)?;
        add_own_fault(alloc, source, faults, *token)?;
        before = *token;
        left = rest;
    }
    Ok(())
}

/// Adds the faults of some tokens, if some of them may have one.
pub(crate) fn add_faults_if(
    alloc: Global,
    source: &Source,
    faults: &mut Vec<Fault>,
    tokens: &[Token],
    may_have_fault: bool,
) -> Result<(), NoMemory>
    requires runs { All (IsRunIn (texts_of source.now.lines)) tokens.now }
    requires noted { may_have_fault
        ≡ list_any (raw.may_have_fault (texts_of source.now.lines)) tokens.now }
    ensures { OnOk result (faults.new.items ≡ faults.old.items
        ++ web.token_faults source.now.files source.now.lines None tokens.now) }
{
    if may_have_fault {
        add_faults(alloc, source, faults, tokens)?;
    }
    Ok(())
}

/// Adds the faults of the tokens of a macro. Its first item is its name, which makes no raw string.
pub(crate) fn add_macro_faults(
    alloc: Global,
    source: &Source,
    faults: &mut Vec<Fault>,
    tokens: &[Token],
) -> Result<(), NoMemory>
    requires { All (IsRunIn (texts_of source.now.lines)) tokens.now }
    ensures { OnOk result (faults.new.items ≡ faults.old.items
        ++ web.macro_token_faults source.now.files source.now.lines tokens.now) }
{
    let mut left = tokens;
    while let [token, rest @ ..] = left {
        add_own_fault(alloc, source, faults, *token)?;
        if !is_between_items(*token) {
            return add_faults(alloc, source, faults, rest);
        }
        left = rest;
    }
    Ok(())
}
