//! The forms of lines, by their first words.
use crate::cause::LineForm;
use crate::words::word_of;

/// Returns the form of a line, if its first word is a command. A read-modify-write has the form of its
/// function, or `Modify` or `LocalModify` if the function is absent or unknown.
pub fn form_of(line: &[u8]) -> Option<LineForm> {
    let form = match word_of(line, 0) {
        b"r" => LineForm::Read,
        b"w" => LineForm::Write,
        b"br" => LineForm::BlockRead,
        b"bw" => LineForm::BlockWrite,
        b"bf" => LineForm::BlockFill,
        b"m" => modify_form(word_of(line, 4)),
        b"lr" => LineForm::LocalRead,
        b"lw" => LineForm::LocalWrite,
        b"lm" => local_modify_form(word_of(line, 3)),
        b"await" => LineForm::Await,
        b"lock" => LineForm::Lock,
        b"unlock" => LineForm::Unlock,
        b"put" => LineForm::Put,
        b"take" => LineForm::Take,
        _ => return None,
    };
    Some(form)
}

/// The form of a read-modify-write by the bus with this function.
fn modify_form(function: &[u8]) -> LineForm {
    match function {
        b"set" => LineForm::ModifySet,
        b"xchg" => LineForm::ModifyExchange,
        b"add" => LineForm::ModifyAdd,
        b"cas" => LineForm::ModifyCompare,
        _ => LineForm::Modify,
    }
}

/// The form of a read-modify-write by the local port with this function.
fn local_modify_form(function: &[u8]) -> LineForm {
    match function {
        b"set" => LineForm::LocalModifySet,
        b"xchg" => LineForm::LocalModifyExchange,
        b"add" => LineForm::LocalModifyAdd,
        b"cas" => LineForm::LocalModifyCompare,
        _ => LineForm::LocalModify,
    }
}

/// The number of words after the first of a line of this form.
pub(crate) fn operand_count(form: LineForm) -> usize {
    match form {
        LineForm::Take => 1,
        LineForm::Lock
        | LineForm::Unlock
        | LineForm::Put
        | LineForm::LocalRead
        | LineForm::LocalWrite => 2,
        LineForm::Read
        | LineForm::Write
        | LineForm::Await
        | LineForm::LocalModify
        | LineForm::LocalModifySet => 3,
        LineForm::BlockRead
        | LineForm::BlockWrite
        | LineForm::Modify
        | LineForm::ModifySet
        | LineForm::LocalModifyExchange
        | LineForm::LocalModifyAdd => 4,
        LineForm::BlockFill
        | LineForm::ModifyExchange
        | LineForm::ModifyAdd
        | LineForm::LocalModifyCompare => 5,
        LineForm::ModifyCompare => 6,
    }
}
