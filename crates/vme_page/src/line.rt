//! The text of a script's line.

use std::alloc::AllocError;
use vme_cycle::{Modify, Request};
use vme_grammar::{Line, print_hex, print_number};
use vme_memory::BoardCmd;

/// Appends the text of a line, as it stands in a script.
pub(crate) fn print_line(text: &mut Vec<u8>, line: &Line) -> Result<(), AllocError> {
    match line {
        Line::Bus(request) => print_request(text, request),
        Line::Local(command) => print_command(text, command),
        Line::Await { am, addr, bytes } => {
            print_place(text, b"await ", *am, *addr)?;
            print_bytes(text, bytes.as_slice())
        }
        Line::Lock { am, addr } => print_place(text, b"lock ", *am, *addr),
        Line::Unlock { am, addr } => print_place(text, b"unlock ", *am, *addr),
        Line::Put { mailbox, word } => {
            print_count(text, b"put ", u64::from(*mailbox))?;
            print_bytes(text, &word.to_be_bytes())
        }
        Line::Take { mailbox } => print_count(text, b"take ", u64::from(*mailbox)),
    }
}

/// Appends a request to the bus.
fn print_request(text: &mut Vec<u8>, request: &Request) -> Result<(), AllocError> {
    match request {
        Request::Read { am, addr, n } => {
            print_place(text, b"r ", *am, *addr)?;
            print_count(text, b" ", u64::from(*n))
        }
        Request::Write { am, addr, bytes } => {
            print_place(text, b"w ", *am, *addr)?;
            print_bytes(text, bytes.as_slice())
        }
        Request::BlockRead { am, addr, n, count } => print_block(
            text, b"br ", *am, *addr, *n, *count,
        ),
        Request::BlockWrite { am, addr, n, bytes } => {
            print_place(text, b"bw ", *am, *addr)?;
            print_count(text, b" ", u64::from(*n))?;
            print_bytes(text, bytes.as_slice())
        }
        Request::BlockFill {
            am,
            addr,
            n,
            count,
            bytes,
        } => {
            print_block(text, b"bf ", *am, *addr, *n, *count)?;
            print_bytes(text, bytes.as_slice())
        }
        Request::Modify { am, addr, n, f } => {
            print_place(text, b"m ", *am, *addr)?;
            print_count(text, b" ", u64::from(*n))?;
            print_function(text, f)
        }
    }
}

/// Appends a command to the local port.
fn print_command(text: &mut Vec<u8>, command: &BoardCmd) -> Result<(), AllocError> {
    match command {
        BoardCmd::LocalRead { offset, n } => {
            print_offset(text, b"lr ", *offset)?;
            print_count(text, b" ", u64::from(*n))
        }
        BoardCmd::LocalWrite { offset, bytes } => {
            print_offset(text, b"lw ", *offset)?;
            print_bytes(text, bytes.as_slice())
        }
        BoardCmd::LocalModify { offset, n, f } => {
            print_offset(text, b"lm ", *offset)?;
            print_count(text, b" ", u64::from(*n))?;
            print_function(text, f)
        }
        BoardCmd::Cycle { .. } => Ok(()),
    }
}

/// Appends a word with a code and an address.
fn print_place(text: &mut Vec<u8>, word: &[u8], am: u8, addr: u32) -> Result<(), AllocError> {
    text.extend_from_slice(word)?;
    print_hex(text, &[am])?;
    print_bytes(text, &addr.to_be_bytes())
}

/// Appends a word with a code, an address, a length and a number of data.
fn print_block(
    text: &mut Vec<u8>,
    word: &[u8],
    am: u8,
    addr: u32,
    n: u8,
    count: u16,
) -> Result<(), AllocError> {
    print_place(text, word, am, addr)?;
    print_count(text, b" ", u64::from(n))?;
    print_count(text, b" ", u64::from(count))
}

/// Appends a word with an offset.
fn print_offset(text: &mut Vec<u8>, word: &[u8], offset: u32) -> Result<(), AllocError> {
    text.extend_from_slice(word)?;
    print_hex(text, &offset.to_be_bytes())
}

/// Appends words with a decimal number.
fn print_count(text: &mut Vec<u8>, words: &[u8], count: u64) -> Result<(), AllocError> {
    text.extend_from_slice(words)?;
    print_number(text, count)
}

/// Appends bytes after a space.
fn print_bytes(text: &mut Vec<u8>, bytes: &[u8]) -> Result<(), AllocError> {
    text.extend_from_slice(b" ")?;
    print_hex(text, bytes)
}

/// Appends the function of a read-modify-write.
fn print_function(text: &mut Vec<u8>, f: &Modify) -> Result<(), AllocError> {
    match f {
        Modify::Set => text.extend_from_slice(b" set"),
        Modify::Exchange(put) => {
            text.extend_from_slice(b" xchg")?;
            print_bytes(text, put.as_slice())
        }
        Modify::Add(by) => {
            text.extend_from_slice(b" add")?;
            print_bytes(text, by.as_slice())
        }
        Modify::Compare { expect, put } => {
            text.extend_from_slice(b" cas")?;
            print_bytes(text, expect.as_slice())?;
            print_bytes(text, put.as_slice())
        }
    }
}
