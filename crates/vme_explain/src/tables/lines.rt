//! The refusals of lines. The first faulty word from the left decides between S4 and S7.
use crate::entry::{Example, Input, Text};

pub(crate) static LINES: [Text; 9] = [
    Text {
        code: "S1",
        others: &[],
        title: "line too long",
        cause: "A line has at most 80 bytes, without its line end. This holds for comments and for \
            lines of spaces too.",
        sections: "",
        help: "Split the line. `bw AM ADDR 4 HEX` carries up to 28 bytes; `bf` fills up to 256 data \
            by one line.",
        example: Some(Example {
            brief: "# -------------------------------------------------------------------------------",
            input: Input::Line,
            shows: "line refused S1",
        }),
    },
    Text {
        code: "S2",
        others: &[],
        title: "unknown word",
        cause: "The first word of a line is `r`, `w`, `br`, `bw`, `bf` or `m`, and in scripts also \
            `lr`, `lw`, `lm`, `await`, `lock`, `unlock`, `put` or `take`. A function is `set`, \
            `xchg`, `add` or `cas`. All are lower case. Spaces separate words; a tab does not. A \
            comment has its # in the first column.",
        sections: "",
        help: "Correct the word.",
        example: Some(Example {
            brief: "R 0d 00000000 1",
            input: Input::Line,
            shows: "line refused S2",
        }),
    },
    Text {
        code: "S3",
        others: &[],
        title: "wrong number of words",
        cause: "Each command has its own number of words: `r AM ADDR N`, `w AM ADDR HEX`, `br AM \
            ADDR N COUNT`, `bw AM ADDR N HEX`, `bf AM ADDR N COUNT HEX`, `m AM ADDR N FUNC`, `lr \
            OFF N`, `lw OFF HEX`, `lm OFF N FUNC`, `await AM ADDR HEX`, `lock AM ADDR`, `unlock \
            AM ADDR`, `put BOX HEX`, `take BOX`.",
        sections: "",
        help: "Add the missing words or remove the others. A comment needs a line of its own.",
        example: Some(Example {
            brief: "r 0d 00000000 1 # flag",
            input: Input::Line,
            shows: "line refused S3",
        }),
    },
    Text {
        code: "S4",
        others: &[],
        title: "malformed address modifier",
        cause: "AM has two hexadecimal digits, without 0x.",
        sections: "",
        help: "Write 09 in place of 9.",
        example: Some(Example {
            brief: "r 9 00000000 1",
            input: Input::Line,
            shows: "line refused S4",
        }),
    },
    Text {
        code: "S5",
        others: &[],
        title: "malformed address",
        cause: "ADDR and OFF have eight hexadecimal digits in every space, without 0x.",
        sections: "",
        help: "Add zeros on the left: 00200000.",
        example: Some(Example {
            brief: "r 39 200000 4",
            input: Input::Line,
            shows: "line refused S5",
        }),
    },
    Text {
        code: "S6",
        others: &[],
        title: "malformed number",
        cause: "N is one digit, 1 to 8; in `lr` and `lm` it is 1, 2 or 4. COUNT has one to four \
            decimal digits. BOX has one or two, and is the number, from 1, of a mailbox that the \
            file declares.",
        sections: "",
        help: "Correct the number, or declare the mailbox.",
        example: Some(Example {
            brief: "r 0d 00000000 9",
            input: Input::Line,
            shows: "line refused S6",
        }),
    },
    Text {
        code: "S7",
        others: &[],
        title: "malformed bytes",
        cause: "HEX is pairs of hexadecimal digits: 1 to 8 bytes in `w` and `await`; 1, 2 or 4 in \
            `lw`; 4 in `put`; N in `bf` and in functions; 1 or more in `bw`.",
        sections: "",
        help: "Write 05 in place of 5, and as many bytes as the line takes.",
        example: Some(Example {
            brief: "w 0d 00000000 5",
            input: Input::Line,
            shows: "line refused S7",
        }),
    },
    Text {
        code: "S8",
        others: &[],
        title: "too many lines",
        cause: "A script has at most 1,000 lines. Comments and empty lines count. This is tested \
            before any line of the script.",
        sections: "",
        help: "Remove lines, or move some to another board.",
        example: Some(Example {
            brief: "1,001 lines",
            input: Input::LongFile {
                head: "rounds = 20\n[[board]]\nslot = 1\nbase = 0\nsize = 64\nscript = \"\"\"\n",
                repeated: "\n",
                times: 1001,
                tail: "\"\"\"\n",
            },
            shows: "vme: C14 slot 1 line 1001 S8",
        }),
    },
    Text {
        code: "S9",
        others: &[],
        title: "bytes of a mailbox",
        cause: "A line other than `put` and `take` names a byte of a declared mailbox, on the bus or \
            on the local port. The proof that no word of a mailbox is lost relies on this rule.",
        sections: "",
        help: "Use `put` and `take`, or other bytes.",
        example: Some(Example {
            brief: "lr 00000004 4, with a mailbox at 0",
            input: Input::File(
                "rounds = 20\n[[board]]\nslot = 1\nbase = 0\nsize = 64\n\
                script = \"lr 00000004 4\"\n[[mailbox]]\nam = 9\naddr = 0\nslots = 1\n",
            ),
            shows: "vme: C14 slot 1 line 1 S9",
        }),
    },
];
