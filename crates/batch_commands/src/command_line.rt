ghost use Rattle.std.specs.Prelude.{◌≡◌, ◌≤◌, ◌↔◌, ◌∷◌, ◌++◌, List, ℕ, [], false, IsTrue, IfOk, IfSome, IfErr, IsErrAnd, codes, map};
ghost use Rattle.clap.specs.Words.{app_of, new_app, rule_of};
ghost use Rattle.batch_commands.specs.Asked.{IsAsked, IsLogName, IsNumberText, AskForNone, AsksFor, AsksForFile, HasFlag, HasFlags, HasOptions, NamesFile, NamesLog};
ghost use Rattle.batch_commands.specs.Commands.{IsShown, bare_app, batchctl_app, check_app, compact_rule, file_rule, log_rule, run_app, runs_app, script_app, scripts_app, tags_rule, workers_rule};

use crate::asked::Arguments;
use crate::help::{
    ABOUT, CHECK_ABOUT, CHECK_HELP, COMPACT_HELP, FILE_HELP, LOG_HELP, RUN_ABOUT, RUN_HELP,
    SCRIPT_ABOUT, SCRIPT_HELP, TAGS_HELP, WORKERS_HELP,
};
use clap::builder::ValueParser;
use clap::error::ErrorKind;
use clap::{Arg, ArgAction, ArgMatches, Command, Error};
use std::alloc::{AllocError, Global};

/// The maximum number of workers of a run.
const MOST_WORKERS: u64 = 16;

/// The number of workers of a run, unless an option sets it.
const DEFAULT_WORKERS: u64 = 2;

fn is_script(words: &[&str]) -> bool
    ensures { IsTrue result ↔ (map (λ word. word.now) words.now ≡ codes "script" ∷ []) }
{
    match words {
        [word] => *word == "script",
        _ => false,
    }
}

/// Returns the words after the first, if that is this command.
fn behind<'a, 'b>(words: &'b [&'a str], command: &str) -> Option<&'b [&'a str]>
    ensures { IfSome result (λ rest. map (λ word. word.now) words.now ≡ command.now ∷ map (λ word. word.now) rest.now) }
{
    match words {
        [word, rest @ ..] if *word == command => Some(rest),
        _ => None,
    }
}

/// Returns the text if it is the name of a file: it isn't empty, and doesn't begin with a hyphen.
fn log_named(name: &str) -> Option<&str>
    ensures { IfSome result (λ log. (log.now ≡ name.now) × IsLogName name.now) }
{
    match name.as_bytes() {
        [first, ..] if *first != b'-' => Some(name),
        _ => None,
    }
}

/// Returns the log that the words after `script` name: `--log FILE` or `--log=FILE`.
fn log_of<'a>(words: &[&'a str]) -> Option<&'a str>
    ensures { IfSome result (λ log. IsLogName log.now × NamesLog log.now (map (λ word. word.now) words.now)) }
{
    match words {
        [word] => log_named(word.strip_prefix("--log=")?),
        [option, name] if *option == "--log" => log_named(name),
        _ => None,
    }
}

/// Returns the file to check that a word names, or `None` for the standard input.
fn file_named(word: &str) -> Option<Option<&str>>
    ensures { IfSome result (λ file. NamesFile file (word.now ∷ [])) }
{
    if word == "-" {
        return Some(None);
    }
    let file = log_named(word)?;
    Some(Some(file))
}

/// Returns the file to check that the words after `check` name, or `None` for the standard input.
fn file_of<'a>(words: &[&'a str]) -> Option<Option<&'a str>>
    ensures { IfSome result (λ file. NamesFile file (map (λ word. word.now) words.now)) }
{
    match words {
        [] => Some(None),
        [word] => file_named(word),
        _ => None,
    }
}

/// Returns the name of the file to check, if the words ask for that.
pub(crate) fn file_to_check<'a>(words: &[&'a str]) -> Option<&'a str>
    ensures { IfSome result (λ file. AsksForFile file.now (map (λ word. word.now) words.now)) }
{
    let rest = behind(words, "check")?;
    let named = file_of(rest)?;
    named
}

/// Returns the words without a flag at their begin or at their end, and whether there was one.
fn without<'a, 'b>(words: &'b [&'a str], flag: &str) -> (&'b [&'a str], bool)
    ensures { HasFlag flag.now result.1 (map (λ word. word.now) result.0.now) (map (λ word. word.now) words.now) }
{
    match words {
        [option, others @ ..] if *option == flag => (others, true),
        [others @ .., option] if *option == flag => (others, true),
        _ => (words, false),
    }
}

/// The words after `script` without its flags.
struct Flagged<'a, 'b> {
    options: &'b [&'a str],
    tags: bool,
    compact: bool,
}

/// Returns the words without `--tags` and `--compact`.
fn without_flags<'a, 'b>(words: &'b [&'a str]) -> Flagged<'a, 'b>
    ensures { HasFlags result.tags result.compact (map (λ word. word.now) result.options.now) (map (λ word. word.now) words.now) }
{
    let (others, tags) = without(words, "--tags");
    if tags {
        let (options, compact) = without(others, "--compact");
        return Flagged {
            options,
            tags,
            compact,
        };
    }
    let (others, compact) = without(words, "--compact");
    let (options, tags) = without(others, "--tags");
    Flagged {
        options,
        tags,
        compact,
    }
}

/// Returns the number of workers of a run, if it is 1 to 16.
fn workers_of(matches: &ArgMatches<'_>) -> Option<u64>
    ensures { IfSome result (λ workers. (1 ≤ workers) × (workers ≤ 16)) }
{
    let workers = matches
        .subcommand_matches("run")?
        .get_one::<u64>("workers")?;
    if workers >= 1 && workers <= MOST_WORKERS {
        Some(workers)
    } else {
        None
    }
}

/// Checks whether a text is this number in decimal digits.
fn writes(text: &str, number: u64) -> bool
    ensures { IsTrue result → IsNumberText text.now number }
{
    match text.parse::<u64>() {
        Ok(written) => written == number,
        Err(_) => false,
    }
}

/// Checks whether one word asks for this many workers: `--workers=N`.
fn word_asks_for(word: &str, workers: u64) -> bool
    ensures { IsTrue result → (text : List ℕ) × (word.now ≡ codes "--workers=" ++ text) × IsNumberText text workers }
{
    match word.strip_prefix("--workers=") {
        Some(text) => writes(text, workers),
        None => false,
    }
}

/// Checks whether the words after `run` ask for this many workers. No words ask for 2.
fn asks_for(words: &[&str], workers: u64) -> bool
    ensures { IsTrue result → AsksFor workers (map (λ word. word.now) words.now) }
{
    match words {
        [] => workers == DEFAULT_WORKERS,
        [word] => word_asks_for(word, workers),
        [option, text] => *option == "--workers" && writes(text, workers),
        _ => false,
    }
}

/// Returns the words without a `--` at the end, which ends the options.
fn options_of<'a, 'b>(words: &'b [&'a str]) -> &'b [&'a str]
    ensures { HasOptions (map (λ word. word.now) result.now) (map (λ word. word.now) words.now) }
{
    match words {
        [options @ .., last] if *last == "--" => options,
        _ => words,
    }
}

/// Returns the command for words that `clap` has accepted.
fn asked<'a>(matches: &ArgMatches<'_>, words: &[&'a str]) -> Option<Arguments<'a>>
    ensures { IfSome result (λ arguments. IsAsked arguments (map (λ word. word.now) words.now)) }
{
    if is_script(words) {
        return Some(Arguments::Script);
    }
    if let Some(rest) = behind(words, "script") {
        let Flagged {
            options,
            tags,
            compact,
        } = without_flags(rest);
        let log = log_of(options)?;
        return Some(Arguments::LoggedScript { log, tags, compact });
    }
    if let Some(rest) = behind(words, "check") {
        let file = file_of(rest)?;
        return Some(Arguments::Check { file });
    }
    let rest = behind(words, "run")?;
    let workers = workers_of(matches)?;
    if asks_for(options_of(rest), workers) {
        Some(Arguments::Run { workers })
    } else {
        None
    }
}

/// Returns the argument `--log` of the command `script`.
fn log_argument<'a>(alloc: Global) -> Arg<'a>
    ensures rule { rule_of result ≡ log_rule }
    ensures local { result.global ≡ false }
{
    Arg::new(alloc, "log")
        .long("log")
        .value_name("FILE")
        .help(LOG_HELP)
        .value_parser(ValueParser::string())
}

/// Returns the argument `--tags` of the command `script`.
fn tags_argument<'a>(alloc: Global) -> Arg<'a>
    ensures rule { rule_of result ≡ tags_rule }
    ensures local { result.global ≡ false }
{
    Arg::new(alloc, "tags")
        .long("tags")
        .help(TAGS_HELP)
        .action(ArgAction::SetTrue)
}

/// Returns the argument `--compact` of the command `script`.
fn compact_argument<'a>(alloc: Global) -> Arg<'a>
    ensures rule { rule_of result ≡ compact_rule }
    ensures local { result.global ≡ false }
{
    Arg::new(alloc, "compact")
        .long("compact")
        .help(COMPACT_HELP)
        .action(ArgAction::SetTrue)
}

/// Returns the command `script`.
fn script_command<'a>(alloc: Global) -> Result<Command<'a>, AllocError>
    ensures { IfOk result (λ command. app_of command ≡ script_app) }
{
    Command::new(alloc, "script")
        .about(SCRIPT_ABOUT)
        .after_help(SCRIPT_HELP)
        .arg(log_argument(alloc))?
        .arg(tags_argument(alloc))?
        .arg(compact_argument(alloc))
}

/// Returns the argument `--workers` of the command `run`.
fn workers_argument<'a>(alloc: Global) -> Arg<'a>
    ensures rule { rule_of result ≡ workers_rule }
    ensures local { result.global ≡ false }
{
    Arg::new(alloc, "workers")
        .long("workers")
        .value_name("N")
        .help(WORKERS_HELP)
        .value_parser(ValueParser::unsigned(1, MOST_WORKERS))
        .default_value("2")
}

/// Returns the command `run`.
fn run_command<'a>(alloc: Global) -> Result<Command<'a>, AllocError>
    ensures { IfOk result (λ command. app_of command ≡ run_app) }
{
    Command::new(alloc, "run")
        .about(RUN_ABOUT)
        .after_help(RUN_HELP)
        .arg(workers_argument(alloc))
}

/// Returns the argument FILE of the command `check`.
fn file_argument<'a>(alloc: Global) -> Arg<'a>
    ensures rule { rule_of result ≡ file_rule }
    ensures local { result.global ≡ false }
{
    Arg::new(alloc, "file")
        .value_name("FILE")
        .help(FILE_HELP)
        .value_parser(ValueParser::string())
}

/// Returns the command `check`.
fn check_command<'a>(alloc: Global) -> Result<Command<'a>, AllocError>
    ensures { IfOk result (λ command. app_of command ≡ check_app) }
{
    Command::new(alloc, "check")
        .about(CHECK_ABOUT)
        .after_help(CHECK_HELP)
        .arg(file_argument(alloc))
}

/// Parses the words that follow the program's name.
///
/// These are accepted, and no others:
///
/// - the one word `script`
/// - `script` with a log by `--log FILE` or `--log=FILE`, whose name begins with no hyphen, and if
///   need be with `--tags` and `--compact`, each before or behind that
/// - `run` with 1 to 16 workers, by `--workers N` or `--workers=N`, or with 2 by default
/// - `check`, alone or with `-` or with the name of a file, which begins with no hyphen
///
/// # Errors
///
/// Returns `clap`'s error for other words, for a request for help or for the version, and if memory
/// is refused. It is never a requested text if the words ask for one of the commands.
pub fn arguments<'a>(alloc: Global, words: &'a [&'a str]) -> Result<Arguments<'a>, Error>
    ensures only { IfOk result (λ arguments. IsAsked arguments (map (λ word. word.now) words.now)) }
    ensures shown { IfErr result (λ error. IsShown error → AskForNone (map (λ word. word.now) words.now)) }
{
    let mut command = batchctl_command(alloc)?;
    let read = read_words(&mut command, words);
    drop(command);
    read
}

/// Returns a command with the program's name, which its help has before each command.
fn named_command<'a>(alloc: Global) -> Result<Command<'a>, AllocError>
    ensures { IfOk result (λ command. app_of command ≡ new_app (codes "batchctl")) }
{
    Command::new(alloc, "batchctl").bin_name("batchctl")
}

/// Returns the program's command without its subcommands.
fn bare_command<'a>(alloc: Global) -> Result<Command<'a>, AllocError>
    ensures { IfOk result (λ command. app_of command ≡ bare_app) }
{
    let named = named_command(alloc)?;
    Ok(
        named
            .about(ABOUT)
            .version("1.0.0-rc.1")
            .no_binary_name(true)
            .subcommand_required(true)
            .arg_required_else_help(true),
    )
}

/// Returns the program's command with the subcommand `script`.
fn command_of_scripts<'a>(alloc: Global) -> Result<Command<'a>, AllocError>
    ensures { IfOk result (λ command. app_of command ≡ scripts_app) }
{
    let command = bare_command(alloc)?;
    match script_command(alloc) {
        Ok(script) => command.subcommand(script),
        Err(error) => {
            drop(command);
            Err(error)
        }
    }
}

/// Returns the program's command with the subcommands `script` and `run`.
fn command_of_runs<'a>(alloc: Global) -> Result<Command<'a>, AllocError>
    ensures { IfOk result (λ command. app_of command ≡ runs_app) }
{
    let command = command_of_scripts(alloc)?;
    match run_command(alloc) {
        Ok(run) => command.subcommand(run),
        Err(error) => {
            drop(command);
            Err(error)
        }
    }
}

/// Returns the program's command.
fn batchctl_command<'a>(alloc: Global) -> Result<Command<'a>, AllocError>
    ensures { IfOk result (λ command. app_of command ≡ batchctl_app) }
{
    let command = command_of_runs(alloc)?;
    match check_command(alloc) {
        Ok(check) => command.subcommand(check),
        Err(error) => {
            drop(command);
            Err(error)
        }
    }
}

/// Parses the words with this command.
fn read_words<'a>(command: &mut Command<'a>, words: &'a [&'a str]) -> Result<Arguments<'a>, Error>
    requires { app_of command.old ≡ batchctl_app }
    ensures only { IfOk result (λ arguments. IsAsked arguments (map (λ word. word.now) words.now)) }
    ensures shown { IfErr result (λ error. IsShown error → AskForNone (map (λ word. word.now) words.now)) }
{
    let matches = command.try_get_matches_from_mut(words)?;
    let asked = asked(&matches, words);
    drop(matches);
    match asked {
        Some(arguments) => Ok(arguments),
        None => refuse_others(command),
    }
}

/// Refuses words that `clap` accepts, but that ask for none of the commands.
fn refuse_others<'a>(command: &mut Command<'_>) -> Result<Arguments<'a>, Error>
    ensures { IsErrAnd result (λ error. IsShown error → ⊥) }
{
    Err(command.error(
        ErrorKind::InvalidSubcommand,
        "`script`, if need be with a log, `run` with 1 to 16 workers, or `check` is expected",
    )?)
}
