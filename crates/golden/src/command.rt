//! The command line.
ghost use Rattle.std.specs.Prelude.{◌≡◌, Some};
ghost use Rattle.std.specs.Result.{result_map_both};
ghost use Rattle.golden.specs.Commands.{action_alone, action_named, compare_named, file_name};
ghost use Rattle.golden.specs.Commands.{input_named, action_of, input_of, misuse_of};
ghost use Rattle.golden.specs.Commands.{texts, usage_text};

use std::error::Error;
use std::fmt;

/// Where the calls come from.
#[derive(Clone, Copy, PartialEq, Eq, Debug)]
pub enum Source<'a> {
    StandardInput,
    File { path: &'a str },
}

/// What the program is to do.
#[derive(Clone, Copy, PartialEq, Eq, Debug)]
pub enum Command<'a> {
    /// The listing of the calls.
    List { calls: Source<'a> },
    /// Whether a listing is that of the calls, and if not, where it differs first.
    Compare { listing: &'a str, calls: Source<'a> },
    /// The listing of the calls, and under each row why it is as it is.
    Explain { calls: Source<'a> },
    Help,
    Version,
}

/// Why a command line is refused.
#[derive(Clone, Copy, PartialEq, Eq, Debug)]
pub enum UsageError<'a> {
    UnknownOption { word: &'a str },
    ExtraWord { word: &'a str },
    NoListing,
}

impl fmt::Display for UsageError<'_> {
    ghost output = { λ error. Some (usage_text error) };

    fn fmt<W: fmt::Write>(&self, f: &mut fmt::Formatter<W>) -> fmt::Result {
        match *self {
            UsageError::UnknownOption { word } => write!(
                f,
                "there is no option {word}, see golden --help"
            ),
            UsageError::ExtraWord { word } => write!(
                f,
                "{word} is a word too many, see golden --help"
            ),
            UsageError::NoListing => write!(f, "--compare needs a listing, see golden --help"),
        }
    }
}

impl Error for UsageError<'_> {}

/// Reads the words after the program's name.
pub fn parse_command(words: &[String]) -> Result<Command<'_>, UsageError<'_>>
    ensures { result_map_both action_of misuse_of result ≡ action_named (texts words.now) }
{
    let Some((first, rest)) = words.split_first() else {
        return Ok(Command::List {
            calls: Source::StandardInput,
        });
    };
    match first.as_str() {
        "--help" => alone(rest, Command::Help),
        "--version" => alone(rest, Command::Version),
        "--explain" => Ok(Command::Explain {
            calls: parse_source(rest)?,
        }),
        "--compare" => parse_compare(rest),
        _ => Ok(Command::List {
            calls: parse_source(words)?,
        }),
    }
}

// A command that takes no further words.
fn alone<'a>(rest: &'a [String], command: Command<'a>) -> Result<Command<'a>, UsageError<'a>>
    ensures { result_map_both action_of misuse_of result
        ≡ action_alone (action_of command.entry) (texts rest.now) }
{
    match rest.first() {
        None => Ok(command),
        Some(word) => Err(UsageError::ExtraWord {
            word: word.as_str(),
        }),
    }
}

// The words after --compare: a listing's file, and where the calls come from.
fn parse_compare(rest: &[String]) -> Result<Command<'_>, UsageError<'_>>
    ensures { result_map_both action_of misuse_of result ≡ compare_named (texts rest.now) }
{
    let (first, rest) = rest.split_first().ok_or(UsageError::NoListing)?;
    let listing = parse_path(first.as_str())?;
    let calls = parse_source(rest)?;
    Ok(Command::Compare { listing, calls })
}

// The one file that is named, or standard input if none is.
fn parse_source(words: &[String]) -> Result<Source<'_>, UsageError<'_>>
    ensures { result_map_both input_of misuse_of result ≡ input_named (texts words.now) }
{
    match words {
        [] => Ok(Source::StandardInput),
        [word] => Ok(Source::File {
            path: parse_path(word.as_str())?,
        }),
        [_, word, ..] => Err(UsageError::ExtraWord {
            word: word.as_str(),
        }),
    }
}

// A file's name. A word that begins with a dash is an option and names no file.
fn parse_path(word: &str) -> Result<&str, UsageError<'_>>
    ensures { result_map_both (λ path. path.now) misuse_of result ≡ file_name word.now }
{
    match word.as_bytes() {
        [b'-', ..] => Err(UsageError::UnknownOption { word }),
        _ => Ok(word),
    }
}
