//! A line of a bus log.
ghost use Rattle.std.specs.Prelude.{◌≡◌, ◌↔◌, ℕ, List, ◌++◌, codes, None, IfErr, IfOk, IfSome, IsOk};
ghost use Rattle.std.specs.Option.{option_map, option_and_then};
ghost use Rattle.std.specs.Result.{result_ok};
ghost use Rattle.vme_lexer.specs.Numbers.{hex_number};
ghost use Rattle.vme_bus_log.specs.Words.{next_word};
ghost use Rattle.vme_bus_log.specs.Fields.{reads};
ghost use Rattle.vme_bus_log.specs.Entries.{modifier_in, names_in, levels_in, answer_word, slot_in, holder_by, answer_in, datum_in, direction, bytes_of, access_names_in, access_bytes_in, said_access, said_by, entry_of};
ghost use Rattle.vme_bus_log.specs.Faults.{access_name_words, answer_words, byte_words, datum_words, entry_fault, level_words, line_fault, name_words, reported, returned, said_fault, slot_words, word_fault, words_fault, Fault, MoreWords};
ghost use Rattle.vme_bus_log.specs.Texts.{line_says};

use crate::cut::without_comment;
use crate::entry::{LogAccess, LogDatum, LogEntry};
use crate::fault::LogFault;
use crate::fields::Fields;
use crate::parts::{Answer, Levels, Names};
use crate::reader::LINE_LIMIT;
use crate::word::decimal;
use vme_lexer::hex_number;

/// The greatest slot.
const LAST_SLOT: u32 = 21;

/// Returns what a whole line says.
#[tactic(auto, unfolding(crate::specs::Texts::line_says), using(crate::proofs::Lines::returned_as))]
pub(crate) fn parse_line(line: &[u8]) -> Result<LogEntry, LogFault>
    ensures { returned result ≡ line_says line.now }
{
    let line = without_comment(line);
    if LINE_LIMIT < line.len() {
        return Err(LogFault::LineTooLong);
    }
    parse_entry(line)
}

/// Returns what a line says, without its end and its comment.
///
/// # Errors
///
/// Why the line is none of a bus log.
pub fn parse_entry(line: &[u8]) -> Result<LogEntry, LogFault>
    ensures says { result_ok result ≡ entry_of line.now }
    ensures why { IfErr result (λ fault. entry_fault line.now (next_word line.now) ≡ reported fault) }
{
    let mut fields = Fields::new(line);
    let Some(first) = fields.peek() else {
        return Ok(LogEntry::Nothing);
    };
    let time = decimal(first);
    if time.is_some() {
        let _ = fields.word();
    }
    said(fields, time)
}

/// What a line says after its time.
fn said(from: Fields<'_>, time: Option<u64>) -> Result<LogEntry, LogFault>
    ensures says { result_ok result ≡ said_by time from.entry.rest.now (next_word from.entry.rest.now) }
    ensures why { IfErr result (λ fault. said_fault from.entry.rest.now (next_word from.entry.rest.now) ≡ reported fault) }
{
    match from.peek() {
        Some(b"lp") => access(from, time),
        Some([b'n', b'=', ..]) => datum(from, time),
        _ => Err(LogFault::NoEntry),
    }
}

/// The line of a datum.
fn datum(from: Fields<'_>, time: Option<u64>) -> Result<LogEntry, LogFault>
    ensures says { result_ok result ≡ datum_in time from.entry.rest.now }
    ensures why { IfErr result (λ fault. line_fault datum_words from.entry.rest.now ≡ reported fault) }
{
    let mut fields = from;
    let Names { index, am, address } = names(&mut fields)?;
    let levels = levels(&mut fields)?;
    let answer = answer(&mut fields)?;
    Ok(LogEntry::Datum(LogDatum {
        time,
        index,
        am,
        address,
        ds1: levels.ds1,
        ds0: levels.ds0,
        a01: levels.a01,
        lword: levels.lword,
        write: levels.write,
        lines: answer.lines,
        idle: answer.idle,
        is_wide: answer.is_wide,
        is_acknowledged: answer.is_acknowledged,
        slot: answer.slot,
    }))
}

/// The number, the code and the address of a datum.
fn names(fields: &mut Fields<'_>) -> Result<Names, LogFault>
    ensures says { option_map (λ it. (it, fields.new.rest.now)) (result_ok result) ≡ names_in fields.old.rest.now }
    ensures rest { (end : List ℕ → Fault) → IfOk result (λ _. words_fault name_words end fields.old.rest.now ≡ end fields.new.rest.now) }
    ensures why { (end : List ℕ → Fault) → IfErr result (λ fault. words_fault name_words end fields.old.rest.now ≡ reported fault) }
{
    let index = fields.count("n=")?;
    let am = modifier(fields)?;
    let address = fields.hex("a=", 8)?;
    Ok(Names { index, am, address })
}

/// The levels of lines.
fn levels(fields: &mut Fields<'_>) -> Result<Levels, LogFault>
    ensures says { option_map (λ it. (it, fields.new.rest.now)) (result_ok result) ≡ levels_in fields.old.rest.now }
    ensures rest { (end : List ℕ → Fault) → IfOk result (λ _. words_fault level_words end fields.old.rest.now ≡ end fields.new.rest.now) }
    ensures why { (end : List ℕ → Fault) → IfErr result (λ fault. words_fault level_words end fields.old.rest.now ≡ reported fault) }
{
    let ds1 = fields.level("ds1=")?;
    let ds0 = fields.level("ds0=")?;
    let a01 = fields.level("a01=")?;
    let lword = fields.level("lword=")?;
    let write = fields.level("write=")?;
    Ok(Levels {
        ds1,
        ds0,
        a01,
        lword,
        write,
    })
}

/// The data, the answer and the slot, at the end of the line.
fn answer(fields: &mut Fields<'_>) -> Result<Answer, LogFault>
    ensures says { result_ok result ≡ answer_in fields.old.rest.now }
    ensures why { IfErr result (λ fault. line_fault answer_words fields.old.rest.now ≡ reported fault) }
{
    let (lines, idle, is_wide) = fields.data("data=")?;
    let is_acknowledged = acknowledged(fields)?;
    let slot = holder(fields)?;
    Ok(Answer {
        lines,
        idle,
        is_wide,
        is_acknowledged,
        slot,
    })
}

/// The address modifier, at most 3f.
fn modifier(fields: &mut Fields<'_>) -> Result<u8, LogFault>
    ensures says { option_map (λ it. (it, fields.new.rest.now)) (result_ok result) ≡ modifier_in fields.old.rest.now }
    ensures why { IfErr result (λ fault. reported fault ≡ word_fault (codes "am=") fields.old.rest.now) }
{
    let code = fields.hex("am=", 2)?;
    if 64 <= code {
        return Err(LogFault::BadWord("am="));
    }
    Ok(code as u8)
}

/// Whether the answer is DTACK*.
fn acknowledged(fields: &mut Fields<'_>) -> Result<bool, LogFault>
    ensures says { option_map (λ it. (it, fields.new.rest.now)) (result_ok result) ≡ option_and_then (reads answer_word) (next_word fields.old.rest.now) }
    ensures why { IfErr result (λ fault. reported fault ≡ word_fault (codes "dtack") fields.old.rest.now) }
{
    match fields.word() {
        Some(b"dtack") => Ok(true),
        Some(b"berr") => Ok(false),
        Some(_) => Err(LogFault::BadWord("dtack")),
        None => Err(LogFault::Missing("dtack")),
    }
}

/// The slot that drives BBSY*, if the line has it, at the end of the line.
fn holder(fields: &mut Fields<'_>) -> Result<Option<u8>, LogFault>
    ensures says { result_ok result ≡ holder_by fields.old.rest.now (next_word fields.old.rest.now) }
    ensures why { IfErr result (λ fault. line_fault slot_words fields.old.rest.now ≡ reported fault) }
{
    if fields.peek().is_none() {
        return Ok(None);
    }
    let slot = slot(fields)?;
    ended(fields)?;
    Ok(Some(slot))
}

/// A slot, 1 to 21.
fn slot(fields: &mut Fields<'_>) -> Result<u8, LogFault>
    ensures says { option_map (λ it. (it, fields.new.rest.now)) (result_ok result) ≡ slot_in fields.old.rest.now }
    ensures why { IfErr result (λ fault. reported fault ≡ word_fault (codes "slot=") fields.old.rest.now) }
{
    let slot = fields.count("slot=")?;
    if slot < 1 || LAST_SLOT < slot {
        return Err(LogFault::BadWord("slot="));
    }
    Ok(slot as u8)
}

/// The line has no further word.
fn ended(fields: &mut Fields<'_>) -> Result<(), LogFault>
    ensures says { IsOk result ↔ (next_word fields.old.rest.now ≡ None) }
    ensures why { IfErr result (λ fault. reported fault ≡ MoreWords) }
{
    match fields.word() {
        None => Ok(()),
        Some(_) => Err(LogFault::MoreWords),
    }
}

/// The line of an access by a local port.
fn access(from: Fields<'_>, time: Option<u64>) -> Result<LogEntry, LogFault>
    ensures says { result_ok result ≡ said_access time (next_word from.entry.rest.now) }
    ensures why { IfSome (next_word from.entry.rest.now) (λ word. IfErr result (λ fault.
        line_fault (access_name_words ++ byte_words) word.1 ≡ reported fault)) }
{
    let mut fields = from;
    if fields.word().is_none() {
        return Err(LogFault::NoEntry);
    }
    let (slot, is_write, offset) = access_names(&mut fields)?;
    let (len, bytes) = access_bytes(&mut fields)?;
    Ok(LogEntry::Access(LogAccess {
        time,
        slot,
        is_write,
        offset,
        len,
        bytes,
    }))
}

/// The slot, the direction and the offset of an access.
fn access_names(fields: &mut Fields<'_>) -> Result<(u8, bool, u32), LogFault>
    ensures says { option_map (λ it. (it, fields.new.rest.now)) (result_ok result) ≡ access_names_in fields.old.rest.now }
    ensures rest { (end : List ℕ → Fault) → IfOk result (λ _. words_fault access_name_words end fields.old.rest.now ≡ end fields.new.rest.now) }
    ensures why { (end : List ℕ → Fault) → IfErr result (λ fault. words_fault access_name_words end fields.old.rest.now ≡ reported fault) }
{
    let slot = slot(fields)?;
    let is_write = direction(fields)?;
    let offset = offset(fields)?;
    Ok((slot, is_write, offset))
}

/// The bytes of an access and their number, at the end of the line.
fn access_bytes(fields: &mut Fields<'_>) -> Result<(u8, u32), LogFault>
    ensures says { result_ok result ≡ access_bytes_in fields.old.rest.now }
    ensures why { IfErr result (λ fault. line_fault byte_words fields.old.rest.now ≡ reported fault) }
{
    let bytes = bytes(fields)?;
    ended(fields)?;
    Ok(bytes)
}

/// Whether an access is a write.
fn direction(fields: &mut Fields<'_>) -> Result<bool, LogFault>
    ensures says { option_map (λ it. (it, fields.new.rest.now)) (result_ok result) ≡ option_and_then (reads direction) (next_word fields.old.rest.now) }
    ensures why { IfErr result (λ fault. reported fault ≡ word_fault (codes "w") fields.old.rest.now) }
{
    match fields.word() {
        Some(b"r") => Ok(false),
        Some(b"w") => Ok(true),
        Some(_) => Err(LogFault::BadWord("w")),
        None => Err(LogFault::Missing("w")),
    }
}

/// The offset of an access.
fn offset(fields: &mut Fields<'_>) -> Result<u32, LogFault>
    ensures says { option_map (λ it. (it, fields.new.rest.now)) (result_ok result) ≡ option_and_then (reads (hex_number 8)) (next_word fields.old.rest.now) }
    ensures why { IfErr result (λ fault. reported fault ≡ word_fault (codes "OFFSET") fields.old.rest.now) }
{
    let Some(word) = fields.word() else {
        return Err(LogFault::Missing("OFFSET"));
    };
    match hex_number(8, word) {
        Some(offset) => Ok(offset),
        None => Err(LogFault::BadWord("OFFSET")),
    }
}

/// The bytes of an access, and their number.
fn bytes(fields: &mut Fields<'_>) -> Result<(u8, u32), LogFault>
    ensures says { option_map (λ it. (it, fields.new.rest.now)) (result_ok result) ≡ option_and_then (reads bytes_of) (next_word fields.old.rest.now) }
    ensures why { IfErr result (λ fault. reported fault ≡ word_fault (codes "BYTES") fields.old.rest.now) }
{
    let Some(word) = fields.word() else {
        return Err(LogFault::Missing("BYTES"));
    };
    match bytes_of(word) {
        Some(bytes) => Ok(bytes),
        None => Err(LogFault::BadWord("BYTES")),
    }
}

/// One, two or four bytes, and their number.
fn bytes_of(word: &[u8]) -> Option<(u8, u32)>
    ensures { result ≡ bytes_of word.now }
{
    let len = match word.len() {
        2 => 1,
        4 => 2,
        8 => 4,
        _ => return None,
    };
    Some((len, hex_number(word.len(), word)?))
}
