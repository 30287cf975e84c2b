//! The text of each reply.
use arrayvec::ArrayVec;
use std::alloc::AllocError;
use std::process::Abort;
use vme_cycle::{Block, CycleFault};
use vme_lanes::Datum;
use vme_master::Outcome;
use vme_script::reply_line;
use vme_shared::{LineReply, SharedOutcome};

/// The text of the replies of `FORMS`, as the replies to line 1000 of slot 21.
static REPLIES: &str = "21:1000 read 00ff
21:1000 done
21:1000 old 80
21:1000 berr 0
21:1000 berr 1 00000000
21:1000 denied
21:1000 refused K3
21:1000 met
21:1000 timeout
21:1000 taken
21:1000 done
21:1000 busy
21:1000 put
21:1000 took 00000001
21:1000 took fedcba98
21:1000 full
21:1000 empty
21:1000 spent
21:1000 berr 0
21:1000 denied
21:1000 unfinished
";

/// A reply, with its bytes as a slice.
enum Form {
    Read(&'static [u8]),
    Old(&'static [u8]),
    Berr(u16, &'static [u8]),
    Done,
    Denied,
    NoCycle,
    Met,
    Timeout,
    Shared(SharedOutcome),
    Unfinished,
}

/// Each form of reply.
static FORMS: [Form; 21] = [
    Form::Read(&[0, 0xff]),
    Form::Done,
    Form::Old(&[0x80]),
    Form::Berr(0, &[]),
    Form::Berr(1, &[0, 0, 0, 0]),
    Form::Denied,
    Form::NoCycle,
    Form::Met,
    Form::Timeout,
    Form::Shared(SharedOutcome::Taken),
    Form::Shared(SharedOutcome::Unlocked),
    Form::Shared(SharedOutcome::Busy),
    Form::Shared(SharedOutcome::Put),
    Form::Shared(SharedOutcome::Took(1)),
    Form::Shared(SharedOutcome::Took(0xfedc_ba98)),
    Form::Shared(SharedOutcome::Full),
    Form::Shared(SharedOutcome::Empty),
    Form::Shared(SharedOutcome::Spent),
    Form::Shared(SharedOutcome::Berr),
    Form::Shared(SharedOutcome::Denied),
    Form::Unfinished,
];

fn block(bytes: &[u8]) -> Block {
    Block::from_short_slice(ArrayVec::try_from(bytes).unwrap_or_default())
}

/// Returns the reply of a form.
fn reply_of(form: &Form) -> LineReply {
    match form {
        Form::Read(bytes) => LineReply::Transfer(Outcome::Read(block(bytes))),
        Form::Old(bytes) => {
            LineReply::Transfer(Outcome::Old(Datum::try_from(*bytes).unwrap_or_default()))
        }
        Form::Berr(count, bytes) => LineReply::Transfer(Outcome::Berr {
            count: *count,
            bytes: block(bytes),
        }),
        Form::Done => LineReply::Transfer(Outcome::Done),
        Form::Denied => LineReply::Transfer(Outcome::Denied),
        Form::NoCycle => LineReply::Refused(CycleFault::NoCycle),
        Form::Met => LineReply::Met,
        Form::Timeout => LineReply::Timeout,
        Form::Shared(outcome) => LineReply::Shared(*outcome),
        Form::Unfinished => LineReply::Unfinished,
    }
}

/// Appends the line of a reply.
fn append(form: &Form, text: &mut Vec<u8>) -> Result<(), AllocError> {
    reply_line(21, 1000, &reply_of(form), text)
}

#[test]
fn reports_each_reply(rt: HostRuntime) {
    let mut text = Vec::new(rt.alloc());
    for form in &FORMS {
        assert!(rt; append(form, &mut text).is_ok());
    }
    assert_eq!(rt; text.as_slice(), REPLIES.as_bytes());
}

/// If an allocation fails, the text is unchanged, and the line can be appended again.
#[test]
fn reports_each_reply_once_more_where_memory_lacks(rt: HostRuntime) {
    let mut text = Vec::new(rt.alloc());
    for form in &FORMS {
        assert!(rt; append(form, &mut text).is_ok() || append(form, &mut text).is_ok());
    }
    assert_eq!(rt; text.as_slice(), REPLIES.as_bytes());
}
