//! Lists the calls of a file, explains them, and compares other listings with theirs.
#![tactic(auto)]

ghost use Rattle.std.specs.Io.{ReadsAtMost};

use anyhow::Context;
use command::{Command, Source, parse_command};
use explain::annotate;
use listing::{enough_bytes, list};
use report::compare_listing;
use std::fs::File;
use std::io::{Read, Write};
use std::process::ExitCode;
use std::{env, io};

mod command;

/// The level of the machine's rules. A change that gives any calls file another listing raises it.
const RULES_LEVEL: u32 = 1;

/// The version of Rattle that this repository is proved with, as `rt version` prints it.
const KIT: &str = "rattle-kit-13f logic dac8208d650f15bf";

/// The number of bytes per read. The buffer is zeroed first, and above this size the C library does
/// that byte by byte.
const READ_BYTES: usize = 2048;

/// More bytes than any listing has.
const ENOUGH_OF_A_LISTING: u64 = 1 << 20;

const HELP: &str = "\
golden, the reference machine for a GPU's transactional memory

    golden [FILE]                     lists the calls
    golden --compare LISTING [FILE]   says whether LISTING is the listing of the calls
    golden --explain [FILE]           lists the calls, and under each row why it is so
    golden --help                     prints this
    golden --version                  prints what it is proved with, and the level of its rules

The calls are those of FILE, or of standard input. A name that begins with a dash is
written ./-NAME. What fails is told in one sentence on standard error, and the status
is 1; it is 1 too where a listing differs.
";

fn main(rt: HostRuntime) -> ExitCode {
    answer(&rt).unwrap_or_else(|error| {
        let _ = eprintln!(rt; "golden: {error:#}");
        ExitCode::FAILURE
    })
}

// Executes the command line. Nothing is written before the whole text is there.
fn answer(rt: &HostRuntime) -> anyhow::Result<ExitCode> {
    let heap = rt.alloc();
    let words: Vec<String> = env::args(rt)?.skip(1).collect(heap)?;
    match parse_command(words.as_slice())? {
        Command::List { calls } => {
            let bytes = read_calls(rt, calls)?;
            write_text(rt, list(heap, bytes.as_slice())?.as_str())
        }
        Command::Explain { calls } => {
            let bytes = read_calls(rt, calls)?;
            write_text(rt, annotate(heap, bytes.as_slice())?.as_str())
        }
        Command::Compare { listing, calls } => compare(rt, listing, calls),
        Command::Help => write_text(rt, HELP),
        Command::Version => {
            let text = format!(in heap; "{KIT}\nrules level {RULES_LEVEL}\n")?;
            write_text(rt, text.as_str())
        }
    }
}

// A listing that differs is no error, but has status 1.
fn compare(rt: &HostRuntime, listing: &str, calls: Source) -> anyhow::Result<ExitCode> {
    let listing = read_file(rt, listing, ENOUGH_OF_A_LISTING)?;
    let bytes = read_calls(rt, calls)?;
    let report = compare_listing(rt.alloc(), bytes.as_slice(), listing.as_slice())?;
    write_text(rt, report.text.as_str())?;
    Ok(if report.matches {
        ExitCode::SUCCESS
    } else {
        ExitCode::FAILURE
    })
}

// Reads only as many bytes of the calls as can change their listing.
fn read_calls(rt: &HostRuntime, calls: Source) -> anyhow::Result<Vec<u8>> {
    let limit = enough_bytes() as u64;
    match calls {
        Source::StandardInput => Ok(read_front(rt, rt.stdin(), limit)?),
        Source::File { path } => read_file(rt, path, limit),
    }
}

fn read_file(rt: &HostRuntime, path: &str, limit: u64) -> anyhow::Result<Vec<u8>> {
    open_front(rt, path, limit).context(format_args!("{path} cannot be read"))
}

fn open_front(rt: &HostRuntime, path: &str, limit: u64) -> io::Result<Vec<u8>> {
    read_front(rt, File::open(rt, path)?, limit)
}

// The first bytes of the input, up to a limit. Each turn but the last reads at least one byte, so
// the turns suffice.
fn read_front<R: Read + Drop>(rt: &HostRuntime, input: R, limit: u64) -> io::Result<Vec<u8>> {
    let mut input = input.take(limit);
    let mut bytes = Vec::new(rt.alloc());
    for _ in 0..=limit {
        if read_more(&mut input, &mut bytes)? == 0 {
            break;
        }
    }
    Ok(bytes)
}

// Reads more bytes onto the end, and returns how many: none at the end of the input.
fn read_more<R: Read>(input: &mut R, bytes: &mut Vec<u8>) -> io::Result<usize> {
    let filled = bytes.len();
    bytes.resize(filled + READ_BYTES, 0)?;
    let count = read_retrying(input, &mut bytes[filled..])?;
    bytes.truncate(filled + count);
    Ok(count)
}

// One read. It is tried again if a signal interrupts it.
fn read_retrying<R: Read>(input: &mut R, room: &mut [u8]) -> io::Result<usize>
    ensures { ReadsAtMost result room.new }
{
    for _ in 0..u64::MAX {
        match input.read(room) {
            Err(error) if error.kind() == io::ErrorKind::Interrupted => {}
            done => return done,
        }
    }
    Err(io::ErrorKind::TimedOut.into())
}

fn write_text(rt: &HostRuntime, text: &str) -> anyhow::Result<ExitCode> {
    rt.stdout().write_all(text.as_bytes())?;
    Ok(ExitCode::SUCCESS)
}
