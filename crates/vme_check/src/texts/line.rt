//! The texts of refusals of lines, S1 to S9.
use crate::report::Context;
use crate::texts::help::{Help, no_help, says, similar_command, similar_function};
use crate::texts::message::{Message, Value, plain, with, with_three, with_two};
use crate::texts::names::{board_name, number_of, short_command};
use crate::texts::quote::without_prefix;
use vme_faults::{DataLength, LineCause, LineForm};

/// The number of digits of an address.
const ADDRESS_DIGITS: usize = 8;

/// The message of a cause.
pub(crate) fn message_of(cause: LineCause, context: &Context<'_>) -> Message {
    let word = Value::Quoted;
    match cause {
        LineCause::TooLong { bytes } => with(
            "the line has {} bytes; a line has at most 80",
            Value::Number(bytes as u64),
        ),
        LineCause::UnknownCommand => with("{} is not a command", word),
        LineCause::IndentedComment => plain("a comment begins in the first column of its line"),
        LineCause::ScriptCommand { .. } => with(
            "{} is a command of scripts; `cycles` takes r, w, br, bw, bf and m",
            word,
        ),
        LineCause::UnknownFunction => {
            with("{} is not a function; set, xchg, add and cas are", word)
        }
        LineCause::WordCount {
            form,
            wanted,
            found,
        } => Message {
            text: "`{}` has {} after `{}`; this line has {}",
            values: [
                Value::Word(form_words(form)),
                Value::Count(wanted as u64, "word"),
                Value::Word(command_of(form)),
                Value::Number(found as u64),
                Value::None,
                Value::None,
            ],
        },
        LineCause::BadCode => with("address modifier {} is not two hexadecimal digits", word),
        LineCause::BadAddress => address_message(
            "address {} is not eight hexadecimal digits",
            "address {} has {}; it takes 8",
            context.word,
        ),
        LineCause::BadOffset => address_message(
            "offset {} is not eight hexadecimal digits",
            "offset {} has {}; it takes 8",
            context.word,
        ),
        LineCause::BadByteCount => with("number of bytes {} is not 1 to 8", word),
        LineCause::BadLocalByteCount => with("number of bytes {} is not 1, 2 or 4", word),
        LineCause::BadDataCount => with("count {} is not one to four decimal digits", word),
        LineCause::BadMailboxNumber => {
            with("mailbox number {} is not one or two decimal digits", word)
        }
        LineCause::NoMailbox { number, declared } => {
            no_mailbox(Value::Number(u64::from(number)), declared as u64)
        }
        LineCause::NoHexDigits => with("bytes {} are not hexadecimal digits", word),
        LineCause::OddDigits { digits } => with_two(
            "bytes {} have {} digits, an odd number; a byte has two",
            word,
            Value::Number(digits as u64),
        ),
        LineCause::WrongLength {
            form,
            found,
            wanted,
        } => wrong_length(form, Value::Count(found as u64, "byte"), wanted),
        LineCause::TooManyLines { lines } => with(
            "the script has {} lines; a script has at most 1000",
            Value::Number(lines as u64),
        ),
        LineCause::TouchesMailbox {
            board,
            low,
            high,
            mailbox,
            mailbox_low,
            mailbox_high,
        } => Message {
            text: "bytes {} to {} of {} touch mailbox {} ({} to {})",
            values: [
                Value::Address(u64::from(low)),
                Value::Address(u64::from(high)),
                board_name(board),
                Value::Number(number_of(mailbox)),
                Value::Address(u64::from(mailbox_low)),
                Value::Address(u64::from(mailbox_high)),
            ],
        },
    }
}

/// The message about an address or an offset: that it has another number of digits, if it has
/// digits alone, or else that it is not a number.
fn address_message(no_number: &'static str, other_count: &'static str, word: &[u8]) -> Message {
    let digits = word.len() as u64;
    if are_hex_digits(word) {
        with_two(other_count, Value::Quoted, Value::Count(digits, "digit"))
    } else {
        with(no_number, Value::Quoted)
    }
}

/// The message that a mailbox is not declared, by how many are.
fn no_mailbox(number: Value, declared: u64) -> Message {
    match declared {
        0 => with("mailbox {} is not declared; the file declares none", number),
        1 => with("mailbox {} is not declared; the file declares 1", number),
        _ => with_two(
            "mailbox {} is not declared; the file declares 1 to {}",
            number,
            Value::Number(declared),
        ),
    }
}

/// The message about how many bytes a word is, and how many the command takes.
fn wrong_length(form: LineForm, found: Value, wanted: DataLength) -> Message {
    let command = Value::Word(command_of(form));
    match wanted {
        DataLength::Exactly(count) => Message {
            text: if has_length_word(form) {
                "{} is {}; `{}` takes {} here (N = {})"
            } else {
                "{} is {}; `{}` takes {}"
            },
            values: [
                Value::Quoted,
                found,
                command,
                Value::Count(u64::from(count), "byte"),
                Value::Number(u64::from(count)),
                Value::None,
            ],
        },
        DataLength::UpTo8 => with_three(
            "{} is {}; `{}` takes 1 to 8 bytes",
            Value::Quoted,
            found,
            command,
        ),
        DataLength::PowerOfTwo => {
            with_three(
                "{} is {}; `{}` takes 1, 2 or 4 bytes",
                Value::Quoted,
                found,
                command,
            )
        }
        DataLength::Any => {
            with_three(
                "{} is {}; `{}` takes one byte or more",
                Value::Quoted,
                found,
                command,
            )
        }
    }
}

/// The help of a cause.
pub(crate) fn help_of(cause: LineCause, context: &Context<'_>) -> Help {
    let word = context.word;
    match cause {
        LineCause::TooLong { .. } => match context.line {
            [b'#', ..] => says(plain("split the comment into several lines, each with its own #")),
            [b'b', b'w', b' ', ..] => says(plain(
                "split the block: `bw .. 4 HEX` carries at most 28 bytes in a line",
            )),
            _ => no_help(),
        },
        LineCause::UnknownCommand => command_help(word),
        LineCause::IndentedComment => says(plain("remove the spaces before #")),
        LineCause::UnknownFunction => similar_function(),
        LineCause::WordCount { wanted, found, .. } => {
            if wanted < found && matches!(word, [b'#' | b';' | b'/', ..]) {
                says(plain("a comment needs a line of its own"))
            } else {
                no_help()
            }
        }
        LineCause::BadCode => padded_help(word, 2),
        LineCause::BadAddress | LineCause::BadOffset => padded_help(word, ADDRESS_DIGITS),
        LineCause::OddDigits { digits } => padded_help(word, digits.saturating_add(1)),
        LineCause::NoHexDigits => padded_help(word, even(without_prefix(word).len())),
        LineCause::TouchesMailbox { .. } => says(plain(
            "only put and take may access the bytes of a mailbox",
        )),
        _ => no_help(),
    }
}

/// The help for a word that is not a command.
fn command_help(word: &[u8]) -> Help {
    if word.contains(&b'\t') {
        return says(plain("spaces separate words; here is a tab"));
    }
    if matches!(word, [b';', ..] | [b'/', b'/', ..] | [b'-', b'-', ..]) {
        return says(plain("a comment is a line that begins with #"));
    }
    if let Some(command) = short_command(word) {
        return says(with("did you mean {}?", Value::Key(command)));
    }
    if word.len() < 3 {
        return no_help();
    }
    similar_command()
}

/// The help to write zeros before the digits of a word, if it is hexadecimal and has fewer digits
/// than it takes, with or without `0x`.
fn padded_help(word: &[u8], digits: usize) -> Help {
    let bare = without_prefix(word);
    if bare.is_empty() || digits < bare.len() || !are_hex_digits(bare) {
        return no_help();
    }
    says(with("write `{}`", Value::Padded(digits - bare.len())))
}

/// The number, or the next one if it is odd.
fn even(number: usize) -> usize {
    number.saturating_add(number % 2)
}

fn are_hex_digits(word: &[u8]) -> bool {
    word.iter().all(|byte| byte.is_ascii_hexdigit())
}

/// The command of a form.
fn command_of(form: LineForm) -> &'static str {
    match form {
        LineForm::Read => "r",
        LineForm::Write => "w",
        LineForm::BlockRead => "br",
        LineForm::BlockWrite => "bw",
        LineForm::BlockFill => "bf",
        LineForm::Modify
        | LineForm::ModifySet
        | LineForm::ModifyExchange
        | LineForm::ModifyAdd
        | LineForm::ModifyCompare => "m",
        LineForm::LocalRead => "lr",
        LineForm::LocalWrite => "lw",
        LineForm::LocalModify
        | LineForm::LocalModifySet
        | LineForm::LocalModifyExchange
        | LineForm::LocalModifyAdd
        | LineForm::LocalModifyCompare => "lm",
        LineForm::Await => "await",
        LineForm::Lock => "lock",
        LineForm::Unlock => "unlock",
        LineForm::Put => "put",
        LineForm::Take => "take",
    }
}

/// The words of a form.
fn form_words(form: LineForm) -> &'static str {
    match form {
        LineForm::Read => "r AM ADDR N",
        LineForm::Write => "w AM ADDR HEX",
        LineForm::BlockRead => "br AM ADDR N COUNT",
        LineForm::BlockWrite => "bw AM ADDR N HEX",
        LineForm::BlockFill => "bf AM ADDR N COUNT HEX",
        LineForm::Modify => "m AM ADDR N FUNC",
        LineForm::ModifySet => "m AM ADDR N set",
        LineForm::ModifyExchange => "m AM ADDR N xchg HEX",
        LineForm::ModifyAdd => "m AM ADDR N add HEX",
        LineForm::ModifyCompare => "m AM ADDR N cas HEX HEX",
        LineForm::LocalRead => "lr OFF N",
        LineForm::LocalWrite => "lw OFF HEX",
        LineForm::LocalModify => "lm OFF N FUNC",
        LineForm::LocalModifySet => "lm OFF N set",
        LineForm::LocalModifyExchange => "lm OFF N xchg HEX",
        LineForm::LocalModifyAdd => "lm OFF N add HEX",
        LineForm::LocalModifyCompare => "lm OFF N cas HEX HEX",
        LineForm::Await => "await AM ADDR HEX",
        LineForm::Lock => "lock AM ADDR",
        LineForm::Unlock => "unlock AM ADDR",
        LineForm::Put => "put BOX HEX",
        LineForm::Take => "take BOX",
    }
}

/// Whether a form has a word N, the number of bytes.
fn has_length_word(form: LineForm) -> bool {
    !matches!(
        form,
        LineForm::Write | LineForm::LocalWrite | LineForm::Await | LineForm::Put
    )
}
