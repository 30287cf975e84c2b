//! The refusals of configuration files, in the order in which they are tested.
use crate::entry::{Example, Input, Text};

pub(crate) static FILES: [Text; 14] = [
    Text {
        code: "C6",
        others: &[],
        title: "not TOML",
        cause: "The file is not a TOML document, and nothing else of it is tested. Common causes: a \
            leading zero (`am = 09`), a word without quotes (`space = a24`), a key given twice, \
            a string that is not closed, bytes that are not UTF-8.",
        sections: "",
        help: "Write numbers as 9 or 0x09 and words as \"a24\", and close every string.",
        example: Some(Example {
            brief: "am = 09",
            input: Input::File("[[board]]\nslot = 1\nbase = 0\nsize = 16\n[[mailbox]]\nam = 09\n"),
            shows: "vme: C6",
        }),
    },
    Text {
        code: "C7",
        others: &[],
        title: "bad key or value",
        cause: "A key is unknown, a required key is absent, or a value is of another kind or outside \
            0 to 4294967295. A key above the first [[board]] or [[mailbox]] belongs to the file, \
            a key below it to that table.",
        sections: "",
        help: "Compare the file with the tables of keys in docs/GUIDE.md.",
        example: Some(Example {
            brief: "scripts = \"r 09 00000000 1\"",
            input: Input::File(
                "[[board]]\nslot = 1\nbase = 0\nsize = 16\nscripts = \"r 09 00000000 1\"\n",
            ),
            shows: "vme: C7",
        }),
    },
    Text {
        code: "C11",
        others: &[],
        title: "no board",
        cause: "A file has at least one table [[board]].",
        sections: "",
        help: "Add a table [[board]] with slot, base and size.",
        example: Some(Example {
            brief: "rounds = 20",
            input: Input::File("rounds = 20\n"),
            shows: "vme: C11",
        }),
    },
    Text {
        code: "C4",
        others: &[],
        title: "more than 21 boards",
        cause: "A backplane has 21 slots.",
        sections: "",
        help: "Remove boards.",
        example: Some(Example {
            brief: "22 tables [[board]]",
            input: Input::LongFile {
                head: "",
                repeated: "[[board]]\nslot = 1\nbase = 0\nsize = 16\n",
                times: 22,
                tail: "",
            },
            shows: "vme: C4",
        }),
    },
    Text {
        code: "C8",
        others: &[],
        title: "bad slot",
        cause: "A slot is 1 to 21, and boards stand in rising order of slots, one in each. C8, C9, \
            C10, C5, C3 and C2 are tested board by board.",
        sections: "",
        help: "Sort the tables by slot, and give each board its own.",
        example: Some(Example {
            brief: "slot = 2 before slot = 1",
            input: Input::File(
                "[[board]]\nslot = 2\nbase = 0\nsize = 16\n[[board]]\nslot = 1\nbase = 64\n\
                size = 16\n",
            ),
            shows: "vme: C8",
        }),
    },
    Text {
        code: "C9",
        others: &[],
        title: "bad level",
        cause: "There are four bus request levels, 0 to 3; 3 is the highest.",
        sections: "",
        help: "Write 0 to 3, or leave the key out (3).",
        example: Some(Example {
            brief: "level = 4",
            input: Input::File("[[board]]\nslot = 1\nbase = 0\nsize = 16\nlevel = 4\n"),
            shows: "vme: C9",
        }),
    },
    Text {
        code: "C10",
        others: &[],
        title: "unknown word or width",
        cause: "`space` is \"a16\", \"a24\" or \"a32\"; `width` is 8, 16 or 32; `uat = true` \
            requires `width = 32`; `arbiter` is \"priority\" or \"rotating\" and is tested after \
            C1. All words are lower case.",
        sections: "2.3.5 (addressing), 2.3.6 (basic data transfer), 2.3.9 (unaligned transfer)",
        help: "Correct the word or the width.",
        example: Some(Example {
            brief: "space = \"A24\"",
            input: Input::File("[[board]]\nslot = 1\nbase = 0\nsize = 16\nspace = \"A24\"\n"),
            shows: "vme: C10",
        }),
    },
    Text {
        code: "C5",
        others: &[],
        title: "bad size",
        cause: "A board has 4 to 1,048,576 bytes, a multiple of 4.",
        sections: "",
        help: "Round the size up to a multiple of 4.",
        example: Some(Example {
            brief: "size = 18",
            input: Input::File("[[board]]\nslot = 1\nbase = 0\nsize = 18\n"),
            shows: "vme: C5",
        }),
    },
    Text {
        code: "C3",
        others: &[],
        title: "base not a multiple of 4",
        cause: "A board begins at a multiple of 4, so that its byte locations are those of the bus.",
        sections: "2.2.1 (addressing lines)",
        help: "Round the base to a multiple of 4.",
        example: Some(Example {
            brief: "base = 2",
            input: Input::File("[[board]]\nslot = 1\nbase = 2\nsize = 16\n"),
            shows: "vme: C3",
        }),
    },
    Text {
        code: "C2",
        others: &[],
        title: "board past the end of its space",
        cause: "base + size is above 0x10000 in a16, 0x1000000 in a24 or 0x100000000 in a32.",
        sections: "2.3.5 (addressing)",
        help: "Lower base or size, or use a larger space.",
        example: Some(Example {
            brief: "space = \"a16\", base = 0xfffc, size = 8",
            input: Input::File("[[board]]\nslot = 1\nspace = \"a16\"\nbase = 0xfffc\nsize = 8\n"),
            shows: "vme: C2",
        }),
    },
    Text {
        code: "C1",
        others: &[],
        title: "boards overlap",
        cause: "Two boards of one space share an address, so both would reply to it.",
        sections: "2.3.5 (addressing)",
        help: "Move one: let its base be at least the other's base plus size.",
        example: Some(Example {
            brief: "base = 0, size = 16 and base = 8",
            input: Input::File(
                "[[board]]\nslot = 1\nbase = 0\nsize = 16\n[[board]]\nslot = 2\nbase = 8\n\
                size = 16\n",
            ),
            shows: "vme: C1",
        }),
    },
    Text {
        code: "C12",
        others: &[],
        title: "bad schedule",
        cause: "`tries` is 1 to 1,000,000 and `rounds` 0 to 1,000,000. Each slot of `schedule` has a \
            board, and all its pairs together have at most 1,000,000 turns.",
        sections: "",
        help: "Correct the number, or add the board.",
        example: Some(Example {
            brief: "schedule = [[3, 1]], one board in slot 1",
            input: Input::File("schedule = [[3, 1]]\n[[board]]\nslot = 1\nbase = 0\nsize = 16\n"),
            shows: "vme: C12",
        }),
    },
    Text {
        code: "C13",
        others: &[],
        title: "bad mailbox",
        cause: "A file has at most 16 mailboxes. `am` is 09, 0d, 29, 2d, 39 or 3d, written 0x09 or \
            9; `addr` is a multiple of 4; `slots` is 1 to 64. The 16 + 4 x slots bytes lie in \
            one board that `am` selects, with `width` 32 and `rmw`, and no earlier mailbox has \
            any of them.",
        sections: "",
        help: "Correct the key, or move the mailbox. `am = 0x0d` reaches supervisory boards too.",
        example: Some(Example {
            brief: "am = 0x0b",
            input: Input::File(
                "[[board]]\nslot = 1\nbase = 0\nsize = 64\n[[mailbox]]\nam = 0x0b\naddr = 0\n\
                slots = 2\n",
            ),
            shows: "vme: C13",
        }),
    },
    Text {
        code: "C14",
        others: &[],
        title: "bad script",
        cause: "A line of a script is refused. The answer has the slot, the line of the script and \
            the S number. The first script with a refused line decides.",
        sections: "",
        help: "See the S number.",
        example: Some(Example {
            brief: "r 09 0000 1 in line 2",
            input: Input::File(
                "[[board]]\nslot = 1\nbase = 0\nsize = 64\nscript = \"\"\"\n\
                w 09 00000000 01\nr 09 0000 1\n\"\"\"\n",
            ),
            shows: "vme: C14 slot 1 line 2 S5",
        }),
    },
];
