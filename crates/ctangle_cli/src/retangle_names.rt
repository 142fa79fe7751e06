//! The arguments of a run of `retangle`, which are read by `clap`.
ghost use Rattle.std.specs.Prelude.{◌≡◌, ◌≢◌, ◌↔◌, [], None, Some, codes, false, is_some, map, true};
ghost use Rattle.std.specs.Prelude.{IfErr, IfOk};
ghost use Rattle.std.specs.Option.{option_copied, option_map};
ghost use Rattle.clap.specs.Built.{TakesValue};
ghost use Rattle.clap.specs.Words.{IsParsedFrom, IsPlainArg, app_of, args_of, first_value};
ghost use Rattle.clap.specs.Words.{fault_of, found_of, groups_of, matches_of, rule_of, takes};
ghost use Rattle.clap.specs.declared.builder.command.Command.TheViews.{out-Command};
ghost use Rattle.clap.specs.declared.parser.matches.ArgMatches.{ArgMatches};
ghost use Rattle.ctangle_cli.specs.RetangleArguments.{GivesValues, empty_app, file_rule};
ghost use Rattle.ctangle_cli.specs.RetangleArguments.{retangle_app, retangle_names_of, web_rule};
ghost use Rattle.ctangle_cli.specs.declared.retangle_names.RetangleFault.TheVariants.{NoMemory};

use crate::arguments::{Words, complete};
use clap::error::ErrorKind;
use clap::{Arg, ArgAction, Command, Error};
use std::alloc::{AllocError, Global};
use std::convert::AsStr;

/// Why the arguments of `retangle` give no names.
#[derive(Debug, Drop)]
pub enum RetangleFault {
    /// `clap` refuses the arguments, or they ask for help or for the version. The error is the text
    /// to print.
    Parse(Error),
    /// An allocation failed.
    NoMemory,
}

impl From<AllocError> for RetangleFault {
    ghost use Rattle.ctangle_cli.specs.declared.retangle_names.RetangleFault.TheVariants.{NoMemory};

    ghost from_gives = { λ _ fault. fault ≡ NoMemory };

    fn from(_error: AllocError) -> RetangleFault {
        RetangleFault::NoMemory
    }
}

impl From<Error> for RetangleFault {
    ghost use Rattle.clap.specs.Words.{kind_of};
    ghost use Rattle.clap.specs.declared.error.kind.ErrorKind.TheVariants.{OutOfMemory};
    ghost use Rattle.ctangle_cli.specs.declared.retangle_names.RetangleFault.TheVariants.{NoMemory};

    ghost from_gives = { λ error fault. (fault ≡ NoMemory) ↔ (kind_of error ≡ OutOfMemory) };

    fn from(error: Error) -> RetangleFault {
        match error.kind() {
            ErrorKind::OutOfMemory => RetangleFault::NoMemory,
            _ => RetangleFault::Parse(error),
        }
    }
}

// The values of WEB, `--change` and `--out`; the options may be missing.
#[derive(Clone, Copy, Debug)]
struct Values<'a> {
    web: &'a str,
    change: Option<&'a str>,
    out: Option<&'a str>,
}

// The argument WEB, which is required.
fn web_argument<'a>(alloc: Global) -> Arg<'a>
    ensures rule { rule_of result ≡ web_rule }
    ensures plain { IsPlainArg result × (result.global ≡ false) }
    ensures needed { TakesValue result }
{
    Arg::new(alloc, "WEB")
        .required(true)
        .action(ArgAction::Set)
        .help("The web")
}

// An option whose value is the name of a file.
fn file_option<'a>(alloc: Global, name: &'a str, help: &'a str) -> Arg<'a>
    ensures rule { rule_of result ≡ file_rule name.entry.now }
    ensures plain { IsPlainArg result × (result.global ≡ false) }
{
    Arg::new(alloc, name)
        .long(name)
        .value_name("FILE")
        .help(help)
}

// The command, before its arguments are added.
fn empty_command<'a>(alloc: Global) -> Command<'a>
    ensures app { app_of result ≡ empty_app }
    ensures empty { (args_of result ≡ []) × (groups_of result ≡ []) }
    ensures plain { ((out-Command result).has_globals ≡ false)
        × ((out-Command result).subcommand_negates_reqs ≡ false) }
{
    Command::new(alloc, "retangle").version("1.0").about(
        "Tangles a CWEB web, and again after each edit that standard input asks for",
    )
}

// The command with its arguments. If it accepts a command line, WEB has a value.
fn retangle_command<'a>(alloc: Global) -> Result<Command<'a>, AllocError>
    ensures app { IfOk result (λ c. app_of c ≡ retangle_app) }
    ensures web { IfOk result (λ c. (m : ArgMatches) → IsParsedFrom c m
        → is_some (first_value (found_of m) (codes "WEB")) ≡ true) }
{
    let web = web_argument(alloc);
    let change = file_option(alloc, "change", "The change file; - means none");
    let out = file_option(
        alloc,
        "out",
        "The main file; without it the web's name with .c",
    );
    let empty = empty_command(alloc);
    empty.arg(web)?.arg(change)?.arg(out)
}

// Reads the values of WEB, `--change` and `--out` from the command line.
fn read_values<'a, S: AsStr>(alloc: Global, arguments: &'a [S]) -> Result<Values<'a>, RetangleFault>
    ensures ok { IfOk result (λ values. GivesValues
        (matches_of retangle_app (map S.text arguments.entry.now)) values) }
    ensures faultless { IfOk result
        (λ _. fault_of retangle_app (map S.text arguments.entry.now) ≡ []) }
    ensures usage { IfErr result
        (λ fault. fault ≢ NoMemory → retangle_names_of (map S.text arguments.entry.now) ≡ None) }
    ensures accepted { IfErr result
        (λ fault. takes retangle_app (map S.text arguments.entry.now) ≡ true → fault ≡ NoMemory) }
{
    let command = retangle_command(alloc)?;
    let matches = command.try_get_matches_from(arguments)?;
    let web = matches.get_str("WEB").unwrap();
    let change = matches.get_str("change");
    let out = matches.get_str("out");
    Ok(Values { web, change, out })
}

fn value_bytes(value: Option<&str>) -> Option<&[u8]>
    ensures { option_copied result ≡ option_map (λ s. s.now) value.entry }
{
    value.map(|value| value.as_bytes())
}

/// Reads the names that the arguments of `retangle WEB [--change FILE] [--out FILE]` give. The
/// first argument is the program's name.
///
/// `clap` reads the arguments, and adds `--help` and `--version`. The values of WEB, `--change` and
/// `--out` are completed as the names of `ctangle` are: `.w`, `.ch` and `.c` are added to a name
/// whose part after the last `/` has no dot, and `-` means no change file. If no main file is
/// named, its name is the part of the web's name after the last `/`, without the last dot and what
/// follows it, and then `.c`.
///
/// CWEB has no such program (`docs/sessions.md`).
///
/// # Errors
///
/// `Parse` where `clap` refuses the arguments or they ask for help or the version; never where
/// clap's definition of the command's matches accepts them. `NoMemory` where an allocation failed.
#[tactic(auto, unfolding(crate::specs::RetangleArguments::retangle_names_of))]
pub fn read_retangle<S: AsStr>(alloc: Global, arguments: &[S]) -> Result<Words, RetangleFault>
    ensures ok { IfOk result (λ w. retangle_names_of (map S.text arguments.now) ≡ Some w) }
    ensures usage { IfErr result
        (λ fault. fault ≢ NoMemory → retangle_names_of (map S.text arguments.now) ≡ None) }
    ensures accepted { IfErr result
        (λ fault. takes retangle_app (map S.text arguments.now) ≡ true → fault ≡ NoMemory) }
{
    let values = read_values(alloc, arguments)?;
    let change = value_bytes(values.change);
    let out = value_bytes(values.out);
    let names = complete(alloc, values.web.as_bytes(), change, out)?;
    Ok(names)
}
