//! The arguments of a run of `ctangle`.
ghost use Rattle.std.specs.Prelude.{◌≡◌, ◌≢◌, ◌++◌, ◌==◌, not};
ghost use Rattle.std.specs.Prelude.{Some, None, filter, map, IfErr, IfOk};
ghost use Rattle.std.specs.Option.{option_copied, option_map};
ghost use Rattle.std.specs.List.{before_last};
ghost use Rattle.ctangle_cli.specs.Arguments.{base_name, change_of, completed_names, dot};
ghost use Rattle.ctangle_cli.specs.Arguments.{has_extension as name_has_extension, is_flag};
ghost use Rattle.ctangle_cli.specs.Arguments.{named_by, names_by_arguments, out_of, with_extension};
ghost use Rattle.ctangle_cli.specs.declared.arguments.WordFault.TheVariants.{NoMemory};

use bstr::ByteSlice;
use std::alloc::{AllocError, Global};

// The file names that the arguments give, not yet tested.
pub use tangle_lines::Words;

/// Why arguments give no names.
#[derive(Clone, Copy, Debug, PartialEq, Eq)]
pub enum WordFault {
    /// There is no name among them, or there are more than three.
    Usage,
    /// An allocation failed.
    NoMemory,
}

fn is_flag_argument(argument: &[u8]) -> bool
    ensures { result ≡ is_flag argument.now }
{
    match argument {
        [] => false,
        [first, rest @ ..] => !rest.is_empty() && (*first == b'-' || *first == b'+'),
    }
}

fn after_slash(name: &[u8]) -> &[u8]
    ensures { result.now ≡ base_name name.now }
{
    match name.rfind_byte(b'/') {
        Some(slash) => &name[slash + 1..],
        None => name,
    }
}

fn before_dot(name: &[u8]) -> &[u8]
    ensures { result.now ≡ before_last (λ b. b == dot) name.now }
{
    match name.rfind_byte(b'.') {
        Some(end) => &name[..end],
        None => &[],
    }
}

fn has_extension(name: &[u8]) -> bool
    ensures { result ≡ name_has_extension name.now }
{
    after_slash(name).find_byte(b'.').is_some()
}

fn joined(alloc: Global, front: &[u8], back: &[u8]) -> Result<Vec<u8>, AllocError>
    ensures { IfOk result (λ v. v.items ≡ front.now ++ back.now) }
{
    let mut both = Vec::from_slice(alloc, front)?;
    both.extend_from_slice(back)?;
    Ok(both)
}

// Adds the extension to a name that has none.
fn extended(alloc: Global, name: &[u8], extension: &[u8]) -> Result<Vec<u8>, AllocError>
    ensures { IfOk result (λ v. v.items ≡ with_extension name.now extension.now) }
{
    if has_extension(name) {
        return Vec::from_slice(alloc, name);
    }
    joined(alloc, name, extension)
}

fn change_for(alloc: Global, argument: Option<&[u8]>) -> Result<Option<Vec<u8>>, AllocError>
    ensures { IfOk result (λ o. option_map (λ v. v.items) o
        ≡ change_of (option_copied argument.entry)) }
{
    match argument {
        None => Ok(None),
        Some(b"-") => Ok(None),
        Some(argument) => {
            let name = extended(alloc, argument, b".ch")?;
            Ok(Some(name))
        }
    }
}

fn out_for(alloc: Global, web: &[u8], argument: Option<&[u8]>) -> Result<Vec<u8>, AllocError>
    ensures { IfOk result (λ v. v.items ≡ out_of web.now (option_copied argument.entry)) }
{
    match argument {
        None => joined(alloc, before_dot(after_slash(web)), b".c"),
        Some(argument) => extended(alloc, argument, b".c"),
    }
}

/// Completes the names of a web, a change file and a main file, as [`read_words`] says.
pub fn complete(
    alloc: Global,
    web: &[u8],
    change: Option<&[u8]>,
    out: Option<&[u8]>,
) -> Result<Words, AllocError>
    ensures { IfOk result (λ w. w ≡ completed_names web.now (option_copied change.entry)
        (option_copied out.entry)) }
{
    let web = extended(alloc, web, b".w")?;
    let change = change_for(alloc, change)?;
    let out = out_for(alloc, web.as_slice(), out)?;
    Ok(Words::new(web, change, out))
}

fn names_among<'a>(alloc: Global, arguments: &[&'a [u8]]) -> Result<Vec<&'a [u8]>, AllocError>
    ensures { IfOk result (λ names. map (λ n. n.now) names.items
        ≡ filter (λ w. not (is_flag w)) (map (λ w. w.now) arguments.now)) }
{
    let mut names = Vec::new(alloc);
    for argument in arguments {
        if !is_flag_argument(argument) {
            names.push(*argument)?;
        }
    }
    Ok(names)
}

// Completes the names of a web, perhaps a change file, and then perhaps a main file.
fn complete_all(alloc: Global, names: &[&[u8]]) -> Result<Words, WordFault>
    ensures ok { IfOk result (λ w. named_by (map (λ n. n.now) names.now) ≡ Some w) }
    ensures usage { IfErr result
        (λ fault. fault ≢ NoMemory → named_by (map (λ n. n.now) names.now) ≡ None) }
{
    let completed = match names {
        [web] => complete(alloc, web, None, None),
        [web, change] => complete(alloc, web, Some(change), None),
        [web, change, out] => complete(alloc, web, Some(change), Some(out)),
        _ => return Err(WordFault::Usage),
    };
    match completed {
        Ok(names) => Ok(names),
        Err(_) => Err(WordFault::NoMemory),
    }
}

/// The names that the arguments give.
///
/// An argument of two bytes or more that begins with `-` or `+` is a flag, which has no effect. The
/// other arguments are the names of the web, of the change file (`-` for none) and of the main
/// file. `.w`, `.ch` and `.c` are added to a name whose part after the last `/` has no dot. If no
/// main file is named, its name is the part of the web's name after the last `/`, without the last
/// dot and what follows it, and then `.c`.
///
/// Of CTANGLE's command line it keeps the three names, their extensions and `-` for no change file;
/// flags are accepted and have no effect (`docs/programs.md`).
///
/// # Errors
///
/// `Usage` where there is no name among the arguments, or more than three; `NoMemory` where an
/// allocation failed.
#[tactic(auto, unfolding(crate::specs::Arguments::names_by_arguments))]
pub fn read_words(alloc: Global, arguments: &[&[u8]]) -> Result<Words, WordFault>
    ensures ok { IfOk result (λ w. names_by_arguments (map (λ v. v.now) arguments.now) ≡ Some w) }
    ensures usage { IfErr result
        (λ fault. fault ≢ NoMemory → names_by_arguments (map (λ v. v.now) arguments.now) ≡ None) }
{
    match names_among(alloc, arguments) {
        Ok(names) => complete_all(alloc, names.as_slice()),
        Err(_) => Err(WordFault::NoMemory),
    }
}
