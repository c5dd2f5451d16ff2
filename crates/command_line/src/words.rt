//! What a subcommand takes, and the values that `clap` finds for it.

ghost use Rattle.std.specs.Prelude.{◌≡◌, ◌∷◌, [], ℕ, IfOk, Some, true, codes, is_some, option_map};
ghost use Rattle.std.specs.List.{All};
ghost use Rattle.clap.specs.Words.{FailsBy, Text, fault_of, first_value, found_of, is_simple_and_free};
ghost use Rattle.bag_text.specs.Text.{texts};
ghost use Rattle.command_line.specs.Lines.{value_under};
ghost use Rattle.command_line.specs.CommandBuilding.{AreReadBy, IsReadBy, TakesArguments, are_names, command_for, names_of, needed_names, rule_for, rules_for};

use clap::{Arg, ArgAction, ArgMatches, Command, Error};
use std::alloc::{AllocError, Global};

/// A value that a subcommand takes: a word in its place, or the value of an option.
#[derive(Clone, Copy)]
pub struct Argument<'a> {
    /// Its name in help and usage.
    pub name: &'a str,
    /// The option before it, without `--`; none where it is a word in its place.
    pub option: Option<&'a str>,
    pub is_required: bool,
    /// What help says of it.
    pub help: &'a str,
}

/// How a subcommand of the program is used.
#[derive(Clone, Copy)]
pub struct Usage<'a> {
    pub name: &'a str,
    /// What help says of it.
    pub about: &'a str,
    /// What it takes, the words in their order.
    pub arguments: &'a [Argument<'a>],
}

/// The argument as `clap` has it.
fn arg_of<'a>(alloc: Global, argument: &Argument<'a>) -> Arg<'a>
    ensures { IsReadBy (rule_for argument.now) result }
{
    let arg = Arg::new(alloc, argument.name)
        .required(argument.is_required)
        .action(ArgAction::Set)
        .help(argument.help);
    match argument.option {
        Some(option) => arg.long(option),
        None => arg,
    }
}

/// The arguments as `clap` has them.
fn args_of<'a>(alloc: Global, arguments: &[Argument<'a>]) -> Result<Vec<Arg<'a>>, AllocError>
    ensures { IfOk result (λ args. AreReadBy (rules_for arguments.now) args.items) }
{
    let mut args = Vec::new(alloc);
    for argument in arguments {
        args.push(arg_of(alloc, argument))?;
    }
    Ok(args)
}

/// The command that reads the words of the subcommand.
fn command_of<'a>(alloc: Global, usage: &Usage<'a>) -> Result<Command<'a>, AllocError>
    ensures { IfOk result (TakesArguments usage.now.name.now (rules_for usage.now.arguments.now)) }
{
    let args = args_of(alloc, usage.arguments)?;
    let name = usage.name;
    let call = format!(in alloc; "depot {name}")?;
    Command::new(alloc, name)
        .about(usage.about)
        .bin_name(call.as_str())?
        .args(args)
}

/// What `clap` makes of the words for the subcommand. The first word is passed over.
pub fn matches_of<'a>(
    alloc: Global,
    usage: &Usage<'a>,
    words: &'a [&'a str],
) -> Result<ArgMatches<'a>, Error>
    requires simple { is_simple_and_free (command_for usage.now) ≡ true }
    requires names { are_names (names_of (rules_for usage.now.arguments.now)) ≡ true }
    ensures given { IfOk result (λ matches.
        All (λ wanted. is_some (first_value (found_of matches) wanted) ≡ true)
        (needed_names (rules_for usage.now.arguments.now))) }
    ensures values { IfOk result (λ matches. (wanted : Text)
        → first_value (found_of matches) wanted
        ≡ value_under (command_for usage.now) wanted (texts words.entry.now)) }
    ensures faults { FailsBy (fault_of (command_for usage.now) (texts words.entry.now))
        result }
{
    let command = command_of(alloc, usage)?;
    command.try_get_matches_from(words)
}

/// The value of an argument that is there.
pub fn word_at<'a>(matches: &ArgMatches<'a>, name: &str) -> &'a str
    requires { is_some (first_value (found_of matches.now) name.now) ≡ true }
    ensures { Some result.now ≡ first_value (found_of matches.now) name.now }
{
    matches.get_str(name).unwrap()
}
