//! The keys of a configuration file, with the kind and the default of each.
ghost use Rattle.std.specs.Prelude.{◌≡◌, [], codes};
ghost use Rattle.toml.specs.View.{view, table_view, items_view};
ghost use Rattle.vme_config_toml.specs.Answers.{Reads};
ghost use Rattle.vme_config_toml.specs.Values.{pair, items_of, list_of, optional, has_only};
ghost use Rattle.vme_config_toml.specs.Keys.{is_board_key, range_values, class_values, board_values, board, is_mailbox_key, mailbox_values, mailbox, is_file_key, file_values};

use crate::fault::DocumentFault;
use crate::file::{BoardTable, ClassTable, FileTable, MailboxTable, RangeTable};
use crate::values::{bool_or, required_whole, str_or, value_at, whole, whole_or};
use std::alloc::Global;
use toml::{Table, Value};

/// Whether `name` is a key of a board.
#[tactic(auto, unfolding(crate::specs::Keys::is_board_key))]
fn is_board_key(name: &str) -> bool
    ensures { result ≡ is_board_key name.now }
{
    matches!(
        name,
        "slot"
            | "level"
            | "space"
            | "base"
            | "size"
            | "width"
            | "uat"
            | "blt"
            | "rmw"
            | "supervisory"
            | "script"
    )
}

/// Whether every key of a table is a key of a board.
fn has_board_keys(table: &Table) -> bool
    ensures { result ≡ has_only is_board_key (table_view table.now) }
{
    table.keys().all(|name| is_board_key(name.as_str()))
}

/// Whether `name` is a key at the top of a file.
#[tactic(auto, unfolding(crate::specs::Keys::is_file_key))]
fn is_file_key(name: &str) -> bool
    ensures { result ≡ is_file_key name.now }
{
    matches!(
        name,
        "arbiter" | "tries" | "schedule" | "rounds" | "board" | "mailbox"
    )
}

/// Whether every key of a table is a key at the top of a file.
fn has_file_keys(table: &Table) -> bool
    ensures { result ≡ has_only is_file_key (table_view table.now) }
{
    table.keys().all(|name| is_file_key(name.as_str()))
}

/// The values of a board's range.
#[tactic(auto, unfolding(crate::specs::Keys::range_values))]
fn range_values(table: &Table) -> Option<RangeTable<'_>>
    ensures { result ≡ range_values (table_view table.now) }
{
    let space = str_or(table, "space", "a32")?;
    let base = required_whole(table, "base")?;
    let size = required_whole(table, "size")?;
    let supervisory = bool_or(table, "supervisory", false)?;
    Some(RangeTable {
        space,
        base,
        size,
        supervisory,
    })
}

/// The values of a slave's class. Without a key `uat`, only a slave of 32 data lines has unaligned
/// transfers.
#[tactic(auto, unfolding(crate::specs::Keys::class_values))]
fn class_values(table: &Table) -> Option<ClassTable>
    ensures { result ≡ class_values (table_view table.now) }
{
    let width = whole_or(table, "width", 32)?;
    let uat = bool_or(table, "uat", width == 32)?;
    let blt = bool_or(table, "blt", true)?;
    let rmw = bool_or(table, "rmw", true)?;
    Some(ClassTable {
        width,
        uat,
        blt,
        rmw,
    })
}

/// Returns the values of a table `board`, or `None` if one of its keys or values is faulty.
#[tactic(auto, unfolding(crate::specs::Keys::board_values))]
fn board_values(table: &Table) -> Option<BoardTable<'_>>
    ensures { result ≡ board_values (table_view table.now) }
{
    if !has_board_keys(table) {
        return None;
    }
    let slot = required_whole(table, "slot")?;
    let level = whole_or(table, "level", 3)?;
    let range = range_values(table)?;
    let class = class_values(table)?;
    let script = str_or(table, "script", "")?;
    Some(BoardTable {
        slot,
        level,
        range,
        class,
        script,
    })
}

/// The values of a board that is an element of an array.
fn board(value: &Value) -> Option<BoardTable<'_>>
    ensures { result ≡ board (view value.now) }
{
    board_values(value.as_table()?)
}

/// The boards of an array.
fn boards_in(alloc: Global, items: &Vec<Value>) -> Result<Vec<BoardTable<'_>>, DocumentFault>
    ensures { Reads (λ boards. boards.items) result (items_of board (items_view items.now.items)) }
{
    let mut boards = Vec::new(alloc);
    for item in items {
        boards.push(board(item).ok_or(DocumentFault::BadKey)?)?;
    }
    Ok(boards)
}

/// The boards of a file; without the key there are none.
#[tactic(auto, unfolding(crate::specs::Values::optional))]
fn boards_of(alloc: Global, table: &Table) -> Result<Vec<BoardTable<'_>>, DocumentFault>
    ensures { Reads (λ boards. boards.items) result
        (optional (list_of board) (codes "board") [] (table_view table.now)) }
{
    match value_at(table, "board") {
        Some(value) => boards_in(alloc, value.as_array().ok_or(DocumentFault::BadKey)?),
        None => Ok(Vec::new(alloc)),
    }
}

/// Whether `name` is a key of a mailbox.
#[tactic(auto, unfolding(crate::specs::Keys::is_mailbox_key))]
fn is_mailbox_key(name: &str) -> bool
    ensures { result ≡ is_mailbox_key name.now }
{
    matches!(name, "am" | "addr" | "slots")
}

/// Whether every key of a table is a key of a mailbox.
fn has_mailbox_keys(table: &Table) -> bool
    ensures { result ≡ has_only is_mailbox_key (table_view table.now) }
{
    table.keys().all(|name| is_mailbox_key(name.as_str()))
}

/// Returns the values of a table `mailbox`, or `None` if one of its keys or values is faulty.
#[tactic(auto, unfolding(crate::specs::Keys::mailbox_values))]
fn mailbox_values(table: &Table) -> Option<MailboxTable>
    ensures { result ≡ mailbox_values (table_view table.now) }
{
    if !has_mailbox_keys(table) {
        return None;
    }
    let am = required_whole(table, "am")?;
    let addr = required_whole(table, "addr")?;
    let slots = required_whole(table, "slots")?;
    Some(MailboxTable { am, addr, slots })
}

/// The values of a mailbox that is an element of an array.
fn mailbox(value: &Value) -> Option<MailboxTable>
    ensures { result ≡ mailbox (view value.now) }
{
    mailbox_values(value.as_table()?)
}

/// The mailboxes of an array.
fn mailboxes_in(alloc: Global, items: &Vec<Value>) -> Result<Vec<MailboxTable>, DocumentFault>
    ensures { Reads (λ mailboxes. mailboxes.items) result (items_of mailbox (items_view items.now.items)) }
{
    let mut mailboxes = Vec::new(alloc);
    for item in items {
        mailboxes.push(mailbox(item).ok_or(DocumentFault::BadKey)?)?;
    }
    Ok(mailboxes)
}

/// The mailboxes of a file; without the key there are none.
#[tactic(auto, unfolding(crate::specs::Values::optional))]
fn mailboxes_of(alloc: Global, table: &Table) -> Result<Vec<MailboxTable>, DocumentFault>
    ensures { Reads (λ mailboxes. mailboxes.items) result
        (optional (list_of mailbox) (codes "mailbox") [] (table_view table.now)) }
{
    match value_at(table, "mailbox") {
        Some(value) => mailboxes_in(alloc, value.as_array().ok_or(DocumentFault::BadKey)?),
        None => Ok(Vec::new(alloc)),
    }
}

/// Returns the two numbers of an array of exactly two whole numbers, or `None` for any other value.
#[tactic(auto, using(crate::proofs::Lists::pair_in_others), unfolding(crate::specs::Values::pair))]
fn pair(value: &Value) -> Option<(u32, u32)>
    ensures { result ≡ pair (view value.now) }
{
    let [first, second] = value.as_array()?.as_slice() else {
        return None;
    };
    Some((whole(first)?, whole(second)?))
}

/// The pairs of an array.
fn pairs_in(alloc: Global, items: &Vec<Value>) -> Result<Vec<(u32, u32)>, DocumentFault>
    ensures { Reads (λ pairs. pairs.items) result (items_of pair (items_view items.now.items)) }
{
    let mut pairs = Vec::new(alloc);
    for item in items {
        pairs.push(pair(item).ok_or(DocumentFault::BadKey)?)?;
    }
    Ok(pairs)
}

/// The schedule of a file; without the key it is empty.
#[tactic(auto, unfolding(crate::specs::Values::optional))]
fn schedule_of(alloc: Global, table: &Table) -> Result<Vec<(u32, u32)>, DocumentFault>
    ensures { Reads (λ pairs. pairs.items) result
        (optional (list_of pair) (codes "schedule") [] (table_view table.now)) }
{
    match value_at(table, "schedule") {
        Some(value) => pairs_in(alloc, value.as_array().ok_or(DocumentFault::BadKey)?),
        None => Ok(Vec::new(alloc)),
    }
}

/// Returns the values of a file's keys, with the default of each absent key.
///
/// # Errors
///
/// `BadKey`: a key is unknown, a required key is absent, a value has another kind, or a whole
/// number is below 0 or above 2^32 - 1. `OutOfMemory`: an allocation failed.
#[tactic(auto, unfolding(crate::specs::Keys::file_values))]
pub fn file_values(alloc: Global, table: &Table) -> Result<FileTable<'_>, DocumentFault>
    ensures { Reads (λ file. file) result (file_values (table_view table.now)) }
{
    if !has_file_keys(table) {
        return Err(DocumentFault::BadKey);
    }
    let arbiter = str_or(table, "arbiter", "priority").ok_or(DocumentFault::BadKey)?;
    let tries = whole_or(table, "tries", 1000).ok_or(DocumentFault::BadKey)?;
    let schedule = schedule_of(alloc, table)?;
    let rounds = whole_or(table, "rounds", 0).ok_or(DocumentFault::BadKey)?;
    let boards = boards_of(alloc, table)?;
    let mailboxes = mailboxes_of(alloc, table)?;
    Ok(FileTable {
        arbiter,
        tries,
        schedule,
        rounds,
        boards,
        mailboxes,
    })
}
