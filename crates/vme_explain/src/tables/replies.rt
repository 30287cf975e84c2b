//! The replies to lines, and the other answers of `bendrika serve`.
use crate::entry::{Example, Input, Text};

pub(crate) static REPLIES: [Text; 12] = [
    Text {
        code: "done",
        others: &["read", "old", "met", "taken", "put", "took"],
        title: "success",
        cause: "The line succeeded: `read`, `old` and `took` have bytes, `done` follows a \
            write, `met` an `await`, `taken` a `lock`, `put` a `put`.",
        sections: "",
        help: "",
        example: Some(Example {
            brief: "w 0d 00000000 05",
            input: Input::Line,
            shows: "done",
        }),
    },
    Text {
        code: "unfinished",
        others: &[],
        title: "line without an end",
        cause: "The turns of `vme step` ended before this line did. A transfer takes a turn to \
            request the bus, one for each datum and one to end, and one for each look at a bus \
            that another board holds. A local line takes one.",
        sections: "",
        help: "Add `rounds = 100` above the first [[board]], or turns to `schedule`.",
        example: Some(Example {
            brief: "no `schedule` and no `rounds`",
            input: Input::File(
                "[[board]]\nslot = 1\nbase = 0\nsize = 16\nscript = \"lr 00000000 1\"\n",
            ),
            shows: "1:1 unfinished",
        }),
    },
    Text {
        code: "timeout",
        others: &[],
        title: "await gave up",
        cause: "The bytes were read `tries` times and never had the value.",
        sections: "",
        help: "Raise `tries`, or look for the line that should write them.",
        example: Some(Example {
            brief: "await 09 00000000 01, tries = 2",
            input: Input::File(
                "tries = 2\nrounds = 20\n[[board]]\nslot = 1\nbase = 0\nsize = 64\n\
                script = \"await 09 00000000 01\"\n",
            ),
            shows: "1:1 timeout",
        }),
    },
    Text {
        code: "busy",
        others: &[],
        title: "lock held",
        cause: "Bit 7 of the lock byte was set in each of `tries` read-modify-writes. `lock`, `put` \
            and `take` can have this reply.",
        sections: "",
        help: "Raise `tries`. Check that each `lock` has its `unlock`.",
        example: Some(Example {
            brief: "lock 09 00000000 twice, tries = 1",
            input: Input::File(
                "tries = 1\nrounds = 20\n[[board]]\nslot = 1\nbase = 0\nsize = 64\n\
                script = \"\"\"\nlock 09 00000000\nlock 09 00000000\n\"\"\"\n",
            ),
            shows: "1:2 busy",
        }),
    },
    Text {
        code: "full",
        others: &[],
        title: "mailbox full",
        cause: "`put` found as many words in the mailbox as it has slots, in each of `tries` \
            attempts.",
        sections: "",
        help: "Raise `tries` or `slots`. Check that another processor takes.",
        example: Some(Example {
            brief: "two puts, slots = 1, tries = 1",
            input: Input::File(
                "tries = 1\nrounds = 99\n[[board]]\nslot = 1\nbase = 0\nsize = 64\n\
                script = \"\"\"\nput 1 00000001\nput 1 00000002\n\"\"\"\n[[mailbox]]\n\
                am = 9\naddr = 0\nslots = 1\n",
            ),
            shows: "1:2 full",
        }),
    },
    Text {
        code: "empty",
        others: &[],
        title: "mailbox empty",
        cause: "`take` found no word in the mailbox, in each of `tries` attempts.",
        sections: "",
        help: "Raise `tries`. Check that another processor puts.",
        example: Some(Example {
            brief: "take 1 alone, tries = 1",
            input: Input::File(
                "tries = 1\nrounds = 20\n[[board]]\nslot = 1\nbase = 0\nsize = 64\n\
                script = \"take 1\"\n[[mailbox]]\nam = 9\naddr = 0\nslots = 1\n",
            ),
            shows: "1:1 empty",
        }),
    },
    Text {
        code: "spent",
        others: &[],
        title: "mailbox used up",
        cause: "2^32 - 1 words were put into this mailbox, and it takes no more. The fault `vme: \
            spent` is F6.",
        sections: "",
        help: "Declare another mailbox.",
        example: None,
    },
    Text {
        code: "berr",
        others: &[],
        title: "bus error",
        cause: "BERR* was driven after C data: by the bus timer, since no board has the address \
            (C is 0; IEEE 1014-1987, 2.3.3), or by the board, since it lacks what the cycle needs \
            or the next datum lies past its end. The bytes that a read got before it follow. The \
            refused datum changes nothing. On the local port: the bytes lie past the end of the \
            board.",
        sections: "",
        help: "Compare code, address and size with the board's `space`, `base`, `size`, `width`, \
            `uat`, `blt`, `rmw` and `supervisory`.",
        example: Some(Example {
            brief: "r 39 00000000 1",
            input: Input::Line,
            shows: "berr 0",
        }),
    },
    Text {
        code: "denied",
        others: &[],
        title: "protocol broken",
        cause: "The arbiter's reply did not fit the call. It is proved that no line of `vme step` \
            or `vme run` has this reply.",
        sections: "",
        help: "Report it.",
        example: None,
    },
    Text {
        code: "refused",
        others: &[],
        title: "request refused",
        cause: "The master sends no such cycle, or reads no such line. The reply names the K or S \
            number.",
        sections: "",
        help: "See that number.",
        example: Some(Example {
            brief: "r 40 00000000 1",
            input: Input::Line,
            shows: "refused K9",
        }),
    },
    Text {
        code: "slot refused",
        others: &[],
        title: "no such slot",
        cause: "The line that `bendrika serve` read does not begin with the slot of a board, in \
            one or two digits, and one space. It changes nothing.",
        sections: "",
        help: "Write `SLOT LINE`, as `1 r 09 00000000 4`.",
        example: None,
    },
    Text {
        code: "nothing",
        others: &[],
        title: "no request",
        cause: "After the slot and its space the line that `bendrika serve` read has no word, or \
            a comment. It changes nothing.",
        sections: "",
        help: "",
        example: None,
    },
];
