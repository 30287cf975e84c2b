//! The texts of the lines that stand for a line.
use crate::blocks::HALF;
use std::alloc::AllocError;
use vme_cycle::Request;
use vme_grammar::{Line, print_hex, print_number};
use vme_memory::BoardCmd;

/// Appends a line that stands for another one: a local read or write, or a block.
pub(crate) fn print_part(text: &mut Vec<u8>, line: &Line) -> Result<(), AllocError> {
    match line {
        Line::Local(command) => print_command(text, command),
        Line::Bus(request) => print_block(text, request),
        _ => Ok(()),
    }
}

/// Appends a read or a write by the local port.
fn print_command(text: &mut Vec<u8>, command: &BoardCmd) -> Result<(), AllocError> {
    match command {
        BoardCmd::LocalRead { offset, n } => {
            print_bytes(text, b"lr ", &offset.to_be_bytes())?;
            print_count(text, u64::from(*n))
        }
        BoardCmd::LocalWrite { offset, bytes } => {
            print_bytes(text, b"lw ", &offset.to_be_bytes())?;
            print_bytes(text, b" ", bytes.as_slice())
        }
        BoardCmd::LocalModify { .. } | BoardCmd::Cycle { .. } => Ok(()),
    }
}

/// Appends a block of four-byte data.
fn print_block(text: &mut Vec<u8>, request: &Request) -> Result<(), AllocError> {
    match request {
        Request::BlockRead {
            am,
            addr,
            count,
            ..
        } => {
            print_place(text, b"br ", *am, *addr)?;
            print_count(text, u64::from(*count))
        }
        Request::BlockWrite {
            am,
            addr,
            bytes,
            ..
        } => {
            print_place(text, b"bw ", *am, *addr)?;
            print_bytes(text, b" ", bytes.as_slice())
        }
        Request::BlockFill {
            am,
            addr,
            count,
            bytes,
            ..
        } => {
            print_place(text, b"bf ", *am, *addr)?;
            print_count(text, u64::from(*count))?;
            print_bytes(text, b" ", bytes.as_slice())
        }
        Request::Read { .. } | Request::Write { .. } | Request::Modify { .. } => Ok(()),
    }
}

/// Appends a word with a code, an address and the length of a half.
fn print_place(text: &mut Vec<u8>, word: &[u8], am: u8, addr: u32) -> Result<(), AllocError> {
    print_bytes(text, word, &[am])?;
    print_bytes(text, b" ", &addr.to_be_bytes())?;
    print_count(text, u64::from(HALF))
}

/// Appends a word or a space, and bytes in hexadecimal.
fn print_bytes(text: &mut Vec<u8>, word: &[u8], bytes: &[u8]) -> Result<(), AllocError> {
    text.extend_from_slice(word)?;
    print_hex(text, bytes)
}

/// Appends a space and a number.
fn print_count(text: &mut Vec<u8>, count: u64) -> Result<(), AllocError> {
    text.extend_from_slice(b" ")?;
    print_number(text, count)
}

/// Appends the comment that stands before the lines for line `number` of a script.
pub(crate) fn print_comment(
    text: &mut Vec<u8>,
    number: u16,
    parts: usize,
) -> Result<(), AllocError> {
    text.extend_from_slice(b"# line ")?;
    print_number(text, u64::from(number))?;
    text.extend_from_slice(b" in ")?;
    print_number(text, parts as u64)?;
    text.extend_from_slice(if parts == 1 { b" part" } else { b" parts" })
}
