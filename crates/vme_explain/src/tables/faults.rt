//! The faults of the program `vme`. Those with a number have status 3.
use crate::entry::Text;

pub(crate) static FAULTS: [Text; 7] = [
    Text {
        code: "F1",
        others: &[],
        title: "read",
        cause: "The input or the file cannot be read: it is absent, it is a folder, this user may \
            not read it, or the device failed.",
        sections: "",
        help: "Check the path and its permissions.",
        example: None,
    },
    Text {
        code: "F2",
        others: &[],
        title: "too long",
        cause: "The input of `vme cycles` has more than 1,048,576 bytes, or the configuration file \
            more than 2,097,152.",
        sections: "",
        help: "Split the input.",
        example: None,
    },
    Text {
        code: "F3",
        others: &["U4"],
        title: "write",
        cause: "The output cannot be written. What was written is a prefix of the text. U4 of the \
            crates is F3 of the program.",
        sections: "",
        help: "Look for a full disk or a closed pipe.",
        example: None,
    },
    Text {
        code: "F4",
        others: &["U2"],
        title: "memory",
        cause: "An allocation failed. U2 of the crates is F4 of the program.",
        sections: "",
        help: "Free memory, or use smaller boards.",
        example: None,
    },
    Text {
        code: "F5",
        others: &["U1"],
        title: "thread",
        cause: "`vme run` could not start a thread, and there is no report. U1 of the crates is F5 \
            of the program.",
        sections: "",
        help: "Raise the limit of processes (`ulimit -u`).",
        example: None,
    },
    Text {
        code: "F6",
        others: &["U3"],
        title: "spent",
        cause: "In `vme run` a board or the arbiter has made 2^64 - 1 steps. U3 of the crates is \
            F6 of the program.",
        sections: "",
        help: "Run the file again.",
        example: None,
    },
    Text {
        code: "usage",
        others: &[],
        title: "wrong words",
        cause: "The words of the command line are none of the three forms. The status is 2.",
        sections: "",
        help: "Write `vme cycles`, `vme step FILE` or `vme run FILE`.",
        example: None,
    },
];
