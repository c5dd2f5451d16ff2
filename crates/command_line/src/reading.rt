//! The words of a command line, read.

ghost use Rattle.std.specs.Prelude.{◌≡◌, ◌⊎◌, IfErr, IfOk};
ghost use Rattle.std.specs.List.{list_any};
ghost use Rattle.std.specs.Str.{bytes_eq};
ghost use Rattle.bag_text.specs.Text.{texts};
ghost use Rattle.command_line.specs.Lines.{AskNothing, Asks, IsPlainLine, Names, words_of};
ghost use Rattle.command_line.specs.Usage.{IsExplainedBy, NamesNone, help_words, usage_for, usage_for_word, uses_text};
ghost use Rattle.command_line.specs.declared.line.Line.{Line};
ghost use Rattle.command_line.specs.declared.use_fault.UseFault.TheVariants.{Memory};

use crate::line::Line;
use crate::subcommand::Subcommand;
use crate::use_fault::{UseFault, clap_fault};
use crate::values::line_of;
use crate::version::VERSION;
use crate::words::matches_of;
use fault_words::Escaped;
use std::alloc::Global;

const USES: &str = "Usage: depot check FILE
       depot pack DIR FILE
       depot unpack FILE DIR
       depot explain [--day DAY] POLICY CALLER ACTION COLLECTION CLASS
       depot policy STORE POLICY
       depot ask STORE DAY
       depot replay [--policy POLICY] STORE
       depot serve --port P --count N STORE DAY

Depot checks and keeps BagIt bags, serves them by a policy, and destroys them when due.
depot COMMAND --help says what each command takes.
";

/// Reads words of which the first names the subcommand.
fn read_named<'a>(
    alloc: Global,
    subcommand: Subcommand,
    words: &'a [&'a str],
) -> Result<Line<'a>, UseFault>
    requires { Names (texts words.now) subcommand }
    ensures taken { IfOk result (Asks (texts words.entry.now)) }
    ensures refused { IfErr result (λ fault.
        (fault ≡ Memory) ⊎ AskNothing (texts words.entry.now)) }
{
    match matches_of(alloc, subcommand.usage(), words) {
        Ok(matches) => line_of(alloc, subcommand, &matches),
        Err(error) => Err(clap_fault(alloc, &error)),
    }
}

/// How the program is used, as it is printed.
fn told_uses(alloc: Global) -> UseFault
    ensures { IsExplainedBy (uses_text VERSION.now) result }
{
    match format!(in alloc; "depot {VERSION}\n{USES}") {
        Ok(text) => UseFault::Use(text),
        Err(_) => UseFault::Memory,
    }
}

/// Whether the word asks how the program is used.
fn asks_for_help(word: &str) -> bool
    ensures { result ≡ list_any (bytes_eq word.now) help_words }
{
    word == "help" || word == "--help" || word == "-h"
}

/// What is said of a first word that names no subcommand.
fn usage_for_word(alloc: Global, word: &str) -> UseFault
    ensures { IsExplainedBy (usage_for_word VERSION.now word.now) result }
{
    if asks_for_help(word) {
        return told_uses(alloc);
    }
    let name = Escaped(word);
    match format!(in alloc; "depot has no subcommand {name}\ndepot {VERSION}\n{USES}") {
        Ok(text) => UseFault::Use(text),
        Err(_) => UseFault::Memory,
    }
}

/// Reads the words after the program's name.
fn read_words<'a>(alloc: Global, words: &'a [&'a str]) -> Result<Line<'a>, UseFault>
    ensures taken { IfOk result (Asks (texts words.entry.now)) }
    ensures refused { IfErr result (λ fault.
        (fault ≡ Memory) ⊎ AskNothing (texts words.entry.now)) }
    ensures uses { NamesNone (texts words.entry.now)
        → IfErr result (IsExplainedBy (usage_for VERSION.now (texts words.entry.now))) }
{
    let Some(word) = words.first() else {
        return Err(told_uses(alloc));
    };
    match Subcommand::read(word) {
        Some(subcommand) => read_named(alloc, subcommand, words),
        None => Err(usage_for_word(alloc, word)),
    }
}

/// Reads the words after the program's name.
pub fn read_line<'a>(alloc: Global, words: &'a [&'a str]) -> Result<Line<'a>, UseFault>
    // A line is what the words ask for.
    ensures taken { IfOk result (Asks (texts words.entry.now)) }
    // The words ask for no other: whatever they ask for is written as the line is.
    ensures only { IfOk result (λ line. (other : Line) → Asks (texts words.entry.now) other
        → words_of other ≡ words_of line) }
    // Words that are refused ask for nothing.
    ensures refused { IfErr result (λ fault.
        (fault ≡ Memory) ⊎ AskNothing (texts words.entry.now)) }
    // Where the first word names no subcommand, the text says so, and which there are.
    ensures uses { NamesNone (texts words.entry.now)
        → IfErr result (IsExplainedBy (usage_for VERSION.now (texts words.entry.now))) }
    // Each line that can be written in plain words is read of them, unless memory runs out.
    ensures plain { (line : Line) → IsPlainLine line → texts words.entry.now ≡ words_of line
        → Asks (texts words.entry.now) line × IfErr result (λ fault. fault ≡ Memory) }
{
    read_words(alloc, words)
}
