//! The texts of refusals of requests, K1 to K9.
use crate::texts::help::{Help, no_help, says};
use crate::texts::message::{Message, Value, with, with_three, with_two};
use crate::texts::names::space_name;
use vme_faults::CycleCause;

/// The message of a cause.
pub(crate) fn message_of(cause: CycleCause) -> Message {
    match cause {
        CycleCause::NoCode { am } => with(
            "code {} is above 3f: an address modifier has six bits",
            Value::Code(u32::from(am)),
        ),
        CycleCause::UserCode { am } => with(
            "code {} is user-defined (10 to 1f); this master does not send it",
            Value::Code(u32::from(am)),
        ),
        CycleCause::ReservedCode { am } => with("code {} is reserved", Value::Code(u32::from(am))),
        CycleCause::BlockCode { am } => with(
            "code {} is a block code, and this request is not a block",
            Value::Code(u32::from(am)),
        ),
        CycleCause::NoBlockCode { am } => {
            with(
                "code {} of this block is not a block code",
                Value::Code(u32::from(am)),
            )
        }
        CycleCause::ProgramModify { am } => {
            with(
                "read-modify-write with program code {}",
                Value::Code(u32::from(am)),
            )
        }
        CycleCause::SingleLength { bytes } => with(
            "a single cycle carries 1 to 4 bytes, not {}",
            Value::Number(bytes as u64),
        ),
        CycleCause::ModifyLength { bytes } => with(
            "a read-modify-write has 1, 2 or 4 bytes, not {}",
            Value::Number(bytes as u64),
        ),
        CycleCause::DatumLength { am, bytes } => with_two(
            "a datum of a block with code {} has 1, 2 or 4 bytes, not {}",
            Value::Code(u32::from(am)),
            Value::Number(bytes as u64),
        ),
        CycleCause::WideLength { am, bytes } => with_two(
            "a datum with code {} has 8 bytes, not {}",
            Value::Code(u32::from(am)),
            Value::Number(bytes as u64),
        ),
        CycleCause::DataCount { data } => with(
            "a block has 1 to 256 data, not {}",
            Value::Number(data as u64),
        ),
        CycleCause::BytesLeft { bytes, datum } => with_two(
            "{} bytes are not a multiple of a datum of {} bytes",
            Value::Number(bytes as u64),
            Value::Number(u64::from(datum)),
        ),
        CycleCause::OutsideSpace { space, last } => with_three(
            "the last byte, {}, is outside space {} (0 to {})",
            Value::Address(last),
            Value::Word(space_name(space)),
            Value::Hex(space.addresses().saturating_sub(1)),
        ),
        CycleCause::NoLocation { addr, bytes } => with_two(
            "no cycle has {} bytes at {}",
            Value::Number(u64::from(bytes)),
            Value::Address(u64::from(addr)),
        ),
        CycleCause::AddressNotAligned { addr, datum } => with_two(
            "address {} is not a multiple of {}",
            Value::Address(u64::from(addr)),
            Value::Number(u64::from(datum)),
        ),
        CycleCause::Crosses {
            addr,
            last,
            boundary,
        } => with_three(
            "the block from {} to {} crosses a boundary of {} bytes",
            Value::Address(u64::from(addr)),
            Value::Address(last),
            Value::Number(u64::from(boundary)),
        ),
    }
}

/// The help of a cause.
pub(crate) fn help_of(cause: CycleCause) -> Help {
    match cause {
        CycleCause::BlockCode { am } | CycleCause::ProgramModify { am } => code_help(data_code(am)),
        CycleCause::NoBlockCode { am } => code_help(block_code(am)),
        _ => no_help(),
    }
}

/// The help to write a code, if there is one.
fn code_help(code: Option<u8>) -> Help {
    match code {
        Some(code) => says(with("write {}", Value::Code(u32::from(code)))),
        None => no_help(),
    }
}

/// The data code of the same space and privilege as a block code or a program code.
fn data_code(am: u8) -> Option<u8> {
    match am {
        0x08 | 0x0a | 0x0b => Some(0x09),
        0x0c | 0x0e | 0x0f => Some(0x0d),
        0x38 | 0x3a | 0x3b => Some(0x39),
        0x3c | 0x3e | 0x3f => Some(0x3d),
        _ => None,
    }
}

/// The block code of the same space and privilege as a data code or a program code.
fn block_code(am: u8) -> Option<u8> {
    match am {
        0x09 | 0x0a => Some(0x0b),
        0x0d | 0x0e => Some(0x0f),
        0x39 | 0x3a => Some(0x3b),
        0x3d | 0x3e => Some(0x3f),
        _ => None,
    }
}
