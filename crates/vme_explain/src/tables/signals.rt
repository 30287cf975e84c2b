//! The rules of `bendrika judge` about lines and their changes: J1 to J12.
use crate::entry::{Example, Input, Text};

pub(crate) static SIGNALS: [Text; 12] = [
    Text {
        code: "J1",
        others: &[],
        title: "a line is undefined",
        cause: "A control line is x, or a line is z or x where its level counts: AM, the address \
            and LWORD* as AS* falls, WRITE* as a data strobe falls, the lanes of a write up to \
            the answer, those of a read before a strobe rises. A control line that nothing drives \
            is high, since the backplane terminates it.",
        sections: "2.2 (data transfer bus lines)",
        help: "Drive the line, or begin the trace after the reset.",
        example: Some(Example {
            brief: "AS* is x",
            input: Input::Dump {
                words: "",
                changes: "#10 xS\n",
            },
            shows: "trace:27: error: AS* is undefined [J1]",
        }),
    },
    Text {
        code: "J2",
        others: &[],
        title: "the address modifier code is reserved or user-defined",
        cause: "A datum has a code that is none of the table of address modifiers.",
        sections: "2.2.2 (address modifier lines)",
        help: "If such cycles are meant, leave them out by `--ignore-am`.",
        example: Some(Example {
            brief: "am=10",
            input: Input::Log(
                "n=0 am=10 a=00000000 ds1=0 ds0=0 a01=0 lword=0 write=1 data=00000001 dtack\n",
            ),
            shows: "\
                trace:1: error: the address modifier code is reserved or user-defined [J2]\n    \
                AM5-AM0      10 -> 10",
        }),
    },
    Text {
        code: "J3",
        others: &[],
        title: "AS* falls while the bus is free or within a handshake",
        cause: "AS* falls while BBSY* is high, or between a data strobe and its answer; with \
            `--strict` also under the answer.",
        sections: "3.2 (arbitration bus lines), 2.4 (data transfer bus timing)",
        help: "In the master, drive BBSY* before AS*, and end the last datum first.",
        example: Some(Example {
            brief: "BBSY* rises before AS* falls",
            input: Input::Dump {
                words: "",
                changes: "\
                    #5 1Y1\n\
                    #10 0S\n",
            },
            shows: "\
                trace:28: error: AS* falls while the bus is free or within a handshake [J3]\n    \
                AS*          1 -> 0\n    \
                BBSY*        1 -> 1",
        }),
    },
    Text {
        code: "J4",
        others: &[],
        title: "AS* rises before the end of a handshake",
        cause: "AS* rises between a data strobe and its answer. With `--strict` also while a \
            strobe is low, or with no answer since it fell.",
        sections: "2.4 (data transfer bus timing)",
        help: "In the master, hold AS* until DTACK* or BERR*.",
        example: Some(Example {
            brief: "AS* rises under the strobes",
            input: Input::Dump {
                words: "",
                changes: "\
                    #10 0S\n\
                    #20 0U 0V\n\
                    #30 1S\n",
            },
            shows: "\
                trace:29: error: AS* rises before the end of a handshake [J4]\n    \
                AS*          0 -> 1\n    \
                DS1*         0 -> 0\n    \
                DS0*         0 -> 0",
        }),
    },
    Text {
        code: "J5",
        others: &[],
        title: "the address changes under AS*",
        cause: "AM, A31 to A01 or LWORD* change as AS* falls, or under it up to the first answer, \
            in a read-modify-write up to the second. Only the address lines that the code uses \
            count. With `--strict` they stand until AS* rises, but for eight-byte data.",
        sections: "2.4 (data transfer bus timing)",
        help: "In the master, put the address on the lines before AS* falls, and hold it until \
            DTACK* or BERR*.",
        example: Some(Example {
            brief: "A01 changes under AS*",
            input: Input::Dump {
                words: "",
                changes: "\
                    #10 0S\n\
                    #15 b1 A\n",
            },
            shows: "\
                trace:28: error: the address changes under AS* [J5]\n    \
                A31-A01      00000000 -> 00000002\n    \
                AS*          0 -> 0",
        }),
    },
    Text {
        code: "J6",
        others: &[],
        title: "a data strobe is low without AS*",
        cause: "A data strobe falls while AS* is high, or is low while AS* is high and no answer \
            is low; with `--strict` also under the answer.",
        sections: "2.4 (data transfer bus timing)",
        help: "In the master, let AS* fall before the data strobes or with them.",
        example: Some(Example {
            brief: "DS1* falls alone",
            input: Input::Dump {
                words: "",
                changes: "#10 0U\n",
            },
            shows: "\
                trace:27: error: a data strobe is low without AS* [J6]\n    \
                DS1*         1 -> 0\n    \
                DS0*         1 -> 1\n    \
                AS*          1 -> 1",
        }),
    },
    Text {
        code: "J7",
        others: &[],
        title: "WRITE* or data change under a strobe",
        cause: "WRITE* changes as a data strobe falls or while one is low; or the data of a write \
            change between the sample before the first strobe and the answer. With `--strict` \
            also the data of a read under the answer.",
        sections: "2.4 (data transfer bus timing)",
        help: "In the master, drive WRITE* and the data before the first strobe, and hold them \
            until the answer.",
        example: Some(Example {
            brief: "WRITE* falls under the strobes",
            input: Input::Dump {
                words: "",
                changes: "\
                    #10 0S\n\
                    #20 0U 0V\n\
                    #30 0W\n",
            },
            shows: "\
                trace:29: error: WRITE* or data change under a strobe [J7]\n    \
                WRITE*       1 -> 0\n    \
                DS1*         0 -> 0\n    \
                DS0*         0 -> 0",
        }),
    },
    Text {
        code: "J8",
        others: &[],
        title: "an answer falls while no data strobe is low",
        cause: "DTACK* or BERR* falls while both data strobes are high.",
        sections: "2.4 (data transfer bus timing)",
        help: "In the slave or the bus timer, answer a low strobe alone.",
        example: Some(Example {
            brief: "DTACK* falls alone",
            input: Input::Dump {
                words: "",
                changes: "\
                    #10 0S\n\
                    #20 0D\n",
            },
            shows: "\
                trace:28: error: an answer falls while no data strobe is low [J8]\n    \
                DTACK*       1 -> 0\n    \
                BERR*        1 -> 1\n    \
                DS1*         1 -> 1\n    \
                DS0*         1 -> 1",
        }),
    },
    Text {
        code: "J9",
        others: &[],
        title: "a data strobe falls while the last answer is low",
        cause: "The first strobe of the next datum falls before the answer to the last one has \
            risen.",
        sections: "2.4 (data transfer bus timing)",
        help: "In the master, wait until DTACK* and BERR* are high.",
        example: Some(Example {
            brief: "the strobes fall under DTACK*",
            input: Input::Dump {
                words: "",
                changes: "\
                    #10 0S\n\
                    #20 0U 0V\n\
                    #30 b1 d\n\
                    #40 0D\n\
                    #50 1U 1V\n\
                    #60 0U 0V\n",
            },
            shows: "\
                trace:32: error: a data strobe falls while the last answer is low [J9]\n    \
                DS1*         1 -> 0\n    \
                DS0*         1 -> 0\n    \
                DTACK*       0 -> 0",
        }),
    },
    Text {
        code: "J10",
        others: &[],
        title: "a data strobe rises before the answer or falls under it",
        cause: "A data strobe rises before the answer, or one of them falls under the answer \
            while the other is low. Each strobe of a datum falls before the answer and rises \
            after it, once.",
        sections: "2.4 (data transfer bus timing)",
        help: "In the master, hold the strobes until DTACK* or BERR*.",
        example: Some(Example {
            brief: "the strobes rise without an answer",
            input: Input::Dump {
                words: "",
                changes: "\
                    #10 0S\n\
                    #20 0U 0V\n\
                    #30 1U 1V\n",
            },
            shows: "\
                trace:29: error: a data strobe rises before the answer or falls under it [J10]\n    \
                DS1*         0 -> 1\n    \
                DS0*         0 -> 1\n    \
                DTACK*       1 -> 1",
        }),
    },
    Text {
        code: "J11",
        others: &[],
        title: "DTACK* and BERR* are low at once",
        cause: "A datum has one answer.",
        sections: "2.4 (data transfer bus timing)",
        help: "Look for a second board at the address, or a bus timer that an answer does not \
            stop.",
        example: Some(Example {
            brief: "DTACK* and BERR* fall",
            input: Input::Dump {
                words: "",
                changes: "\
                    #10 0S\n\
                    #20 0U 0V\n\
                    #40 0D 0B\n",
            },
            shows: "\
                trace:29: error: DTACK* and BERR* are low at once [J11]\n    \
                DTACK*       1 -> 0\n    \
                BERR*        1 -> 0",
        }),
    },
    Text {
        code: "J12",
        others: &[],
        title: "the answer rises while a data strobe is low",
        cause: "DTACK* or BERR* rises before both data strobes are high.",
        sections: "2.4 (data transfer bus timing)",
        help: "In the slave or the bus timer, hold the answer until both strobes are high.",
        example: Some(Example {
            brief: "DTACK* rises under the strobes",
            input: Input::Dump {
                words: "",
                changes: "\
                    #10 0S\n#20 0U 0V\n\
                    #30 b1 d\n#40 0D\n\
                    #50 1D\n",
            },
            shows: "\
                trace:31: error: the answer rises while a data strobe is low [J12]\n    \
                DTACK*       0 -> 1\n    \
                BERR*        1 -> 1\n    \
                DS1*         0 -> 0\n    \
                DS0*         0 -> 0",
        }),
    },
];
