//! `bendrika judge`.
use crate::fault::Fault;
use crate::history::history_judged;
use crate::input::{STANDARD_INPUT, bytes_of, file_at, input_of, name_of, refuse, report};
use crate::status::Status;
use clap::ArgMatches;
use std::fs::File;
use std::io::{self, Read};
use vme_check::{InputReader, shown_name};
use vme_engines::FILE_LIMIT;
use vme_io::Io;
use vme_judge::{
    Board, JudgeFault, OpenBytes, Options, Status as Verdict, boards_of, judge_engine,
};
use vme_line_map::{LineMap, LinesFault, default_lines, read_lines};
use vme_script::ConfigFault;

/// What the words leave out of a judgement.
#[derive(Drop)]
struct Limits {
    open: Vec<OpenBytes>,
    ignored: u64,
    timeout: Option<u64>,
    limit: u64,
}

/// Judges the trace that the words name, by the boards of their file.
pub(crate) fn judged(rt: &HostRuntime, words: &ArgMatches<'_>) -> Result<Status, Fault> {
    let file = words.get_str("FILE").unwrap_or("");
    let trace = words.get_str("TRACE").unwrap_or("");
    if file == STANDARD_INPUT && trace == STANDARD_INPUT {
        wrong(rt, "only one of the two is standard input");
        return Ok(Status::WrongWords);
    }
    let input = input_of(rt, file, FILE_LIMIT)?;
    let Some(bytes) = bytes_of(rt, name_of(file), input)? else {
        return Ok(Status::Fault);
    };
    if words.get_flag("history") {
        return history_judged(rt, words, bytes.as_slice());
    }
    let boards = match boards_of(rt.alloc(), bytes.as_slice()) {
        Ok(boards) => boards,
        Err(ConfigFault::OutOfMemory) => return Err(Fault::Memory),
        Err(_) => return refuse(rt, name_of(file), bytes.as_slice()),
    };
    let Some(limits) = limits_of(rt, words, boards.as_slice())? else {
        return Ok(Status::WrongWords);
    };
    let lines = match lines_of(rt, words, boards.as_slice())? {
        Ok(lines) => lines,
        Err(status) => return Ok(status),
    };
    let name = shown_name(rt.alloc(), name_of(trace))?;
    let options = Options {
        name: name.as_str(),
        protocol: words.get_flag("protocol"),
        strict: words.get_flag("strict"),
        zero: words.get_flag("zero"),
        others: words.get_flag("others"),
        log: words.get_flag("log"),
        json: words.get_flag("json"),
        quiet: words.get_flag("quiet"),
        ignored: limits.ignored,
        timeout: limits.timeout,
        limit: limits.limit,
        open: limits.open.as_slice(),
    };
    if trace == STANDARD_INPUT {
        return judge_input(rt, &options, &lines, boards.as_slice(), rt.reader());
    }
    match File::open(rt, trace) {
        Ok(input) => judge_input(rt, &options, &lines, boards.as_slice(), input),
        Err(error) if error.kind() == io::ErrorKind::OutOfMemory => Err(Fault::Memory),
        Err(error) => {
            report(rt, trace, &error)?;
            Ok(Status::Fault)
        }
    }
}

/// What the words leave out; `None` if a word is wrong, which is reported.
fn limits_of(
    rt: &HostRuntime,
    words: &ArgMatches<'_>,
    boards: &[Board],
) -> Result<Option<Limits>, Fault> {
    let Some(open) = open_of(rt, words, boards)? else {
        wrong(
            rt,
            "--open is SLOT or SLOT:A-B, with a board of FILE in the slot",
        );
        return Ok(None);
    };
    let Some(ignored) = ignored_of(words) else {
        wrong(
            rt,
            "--ignore-am is XX,.., codes of two hexadecimal digits, 00 to 3f",
        );
        return Ok(None);
    };
    let Some(timeout) = timeout_of(words) else {
        wrong(rt, "--timeout is a number below 2^64");
        return Ok(None);
    };
    let limit: usize = words.get_one("limit").unwrap_or(1);
    Ok(Some(Limits {
        open,
        ignored,
        timeout,
        limit: limit as u64,
    }))
}

/// Reports wrong words.
fn wrong(rt: &HostRuntime, why: &str) {
    let _ = eprintln!(rt; "bendrika: {why}");
}

/// Judges an opened trace.
fn judge_input<'a, T: Read + Drop>(
    rt: &HostRuntime,
    options: &'a Options<'a>,
    lines: &'a LineMap,
    boards: &'a [Board],
    input: T,
) -> Result<Status, Fault> {
    let mut reader = InputReader::new(input);
    let mut writer = Io::new(io::writer(rt));
    match judge_engine(rt.alloc(), options, lines, boards, &mut reader, &mut writer) {
        Ok(Verdict::Legal) => Ok(Status::Done),
        Ok(Verdict::Illegal) => Ok(Status::Errors),
        Ok(Verdict::Rejected) => Ok(Status::WrongWords),
        Err(JudgeFault::Memory) => Err(Fault::Memory),
        Err(JudgeFault::Write) => Err(Fault::Write),
        Err(fault) => {
            match reader.failure() {
                Some(error) => report(rt, options.name, error)?,
                None => report(rt, options.name, &fault)?,
            }
            Ok(Status::Fault)
        }
    }
}

/// The bytes that may be written unseen; `None` if a word is wrong.
fn open_of(
    rt: &HostRuntime,
    words: &ArgMatches<'_>,
    boards: &[Board],
) -> Result<Option<Vec<OpenBytes>>, Fault> {
    let mut open = Vec::new(rt.alloc());
    if let Some(texts) = words.get_strs("open") {
        for text in texts {
            let Some(bytes) = open_bytes(text) else {
                return Ok(None);
            };
            if !boards.iter().any(|board| board.slot == bytes.slot) {
                return Ok(None);
            }
            open.push(bytes).map_err(|_| Fault::Memory)?;
        }
    }
    Ok(Some(open))
}

/// The bytes of a word: `SLOT` or `SLOT:A-B`, with offsets in hexadecimal.
fn open_bytes(text: &str) -> Option<OpenBytes> {
    let Some((slot, range)) = text.split_once(":") else {
        return Some(OpenBytes {
            slot: text.parse::<u8>().ok()?,
            range: None,
        });
    };
    let (from, last) = range.split_once("-")?;
    let from = u32::from_str_radix(from, 16).ok()?;
    let last = u32::from_str_radix(last, 16).ok()?;
    if last < from {
        return None;
    }
    Some(OpenBytes {
        slot: slot.parse::<u8>().ok()?,
        range: Some((from, last.checked_add(1)?)),
    })
}

/// The codes that are not judged, a bit for each; `None` if the word is wrong.
fn ignored_of(words: &ArgMatches<'_>) -> Option<u64> {
    let mut ignored: u64 = 0;
    if let Some(text) = words.get_str("ignore-am") {
        for code in text.split(',') {
            let code = u32::from_str_radix(code, 16).ok()?;
            if 63 < code {
                return None;
            }
            ignored |= 1u64.wrapping_shl(code);
        }
    }
    Some(ignored)
}

/// The greatest time up to an answer, if the words give one; `None` if the word is wrong.
fn timeout_of(words: &ArgMatches<'_>) -> Option<Option<u64>> {
    match words.get_str("timeout") {
        Some(text) => Some(Some(text.parse::<u64>().ok()?)),
        None => Some(None),
    }
}

/// The variables of the lines: those of the file that the words name, or of `bendrika trace`. A file
/// that is none is reported.
fn lines_of(
    rt: &HostRuntime,
    words: &ArgMatches<'_>,
    boards: &[Board],
) -> Result<Result<LineMap, Status>, Fault> {
    let Some(path) = words.get_str("lines") else {
        let mut slots = Vec::new(rt.alloc());
        for board in boards {
            slots.push(board.slot).map_err(|_| Fault::Memory)?;
        }
        return Ok(Ok(default_lines(rt.alloc(), slots.as_slice())?));
    };
    let input = file_at(rt, path, FILE_LIMIT)?;
    let Some(bytes) = bytes_of(rt, path, input)? else {
        return Ok(Err(Status::Fault));
    };
    match read_lines(rt.alloc(), bytes.as_slice()) {
        Ok(lines) => Ok(Ok(lines)),
        Err(LinesFault::Memory) => Err(Fault::Memory),
        Err(fault) => {
            let name = shown_name(rt.alloc(), path)?;
            report_lines(rt, name.as_str(), &fault)?;
            Ok(Err(Status::WrongWords))
        }
    }
}

/// Reports a file that is no map of lines.
fn report_lines(rt: &HostRuntime, name: &str, fault: &LinesFault) -> Result<(), Fault> {
    match fault {
        LinesFault::Key { slot, key, problem } => {
            let mut text = String::new(rt.alloc());
            for byte in key {
                if 32 < *byte && *byte < 127 {
                    text.push(char::from(*byte))?;
                }
            }
            if *slot == 0 {
                let _ = eprintln!(rt; "bendrika: {name}: `{text}` in [lines]: {problem}");
            } else {
                let _ = eprintln!(rt; "bendrika: {name}: `{text}` in [slot.{slot}]: {problem}");
            }
        }
        _ => {
            let _ = eprintln!(rt; "bendrika: {name}: not TOML");
        }
    }
    Ok(())
}
