//! The rules of `bendrika judge` about transfers, tenures and answers: J13 to J24.
use crate::entry::{Example, Input, Text};

pub(crate) static TRANSFERS: [Text; 9] = [
    Text {
        code: "J13",
        others: &[],
        title: "the datum may not come in its transfer",
        cause: "DS1*, DS0*, A01 and LWORD* are none of the ten byte locations; or a datum of a \
            block is of 3 bytes, not at a multiple of its length, not where the last one ended, \
            of another length or direction, or past its unit of 256 bytes (2,048 of eight-byte \
            data); or under another code a second datum is no write of the bytes that the first \
            read, or there is a third; or a datum follows BERR* in the same transfer.",
        sections: "2.2.1 (addressing lines), 2.3.7 (block transfer), 2.3.8 (read-modify-write)",
        help: "Compare the strobes, A01 and LWORD* with the table of byte locations, and split a \
            block at its unit.",
        example: Some(Example {
            brief: "DS1* alone with A01 high and LWORD* low",
            input: Input::Log(
                "n=0 am=09 a=00000000 ds1=0 ds0=1 a01=1 lword=0 write=1 data=00000001 dtack\n",
            ),
            shows: "\
                trace:1: error: the datum may not come in its transfer [J13]\n    \
                AM5-AM0      09 -> 09\n    \
                A31-A01      00000002 -> 00000002\n    \
                LWORD*       0 -> 0\n    \
                DS1*         0 -> 0\n    \
                DS0*         1 -> 1",
        }),
    },
    Text {
        code: "J14",
        others: &[],
        title: "two slots drive BBSY*, or it has another level than the slots drive",
        cause: "One slot holds the bus, and BBSY* is low exactly if a slot drives it.",
        sections: "3.2 (arbitration bus lines)",
        help: "In the requester, drive BBSY* from the grant to the end of the tenure alone.",
        example: Some(Example {
            brief: "slot 2 drives BBSY* too",
            input: Input::Dump {
                words: "",
                changes: "#10 0Y2\n",
            },
            shows: "\
                trace:27: error: slots 1 and 2 drive BBSY* at once [J14]\n    \
                BBSY* of slot 1 0 -> 0\n    \
                BBSY* of slot 2 1 -> 0",
        }),
    },
    Text {
        code: "J15",
        others: &[],
        title: "a grant and its taking are out of order",
        cause: "A slot begins to drive BBSY* although its BRn* or its BGnIN* was high before, or \
            while its grant goes on to a higher slot; or a grant begins while BBSY* is low.",
        sections: "3.3 (arbiter and requesters)",
        help: "Compare the requester and the arbiter with the order BRn*, BGnIN*, BBSY*.",
        example: Some(Example {
            brief: "slot 2 takes the bus without a grant",
            input: Input::Dump {
                words: "",
                changes: "\
                    #10 1Y1\n\
                    #20 0Y2\n",
            },
            shows: "\
                trace:28: error: a grant and its taking are out of order [J15]\n    \
                BBSY* of slot 2 1 -> 0\n    \
                BBSY*        1 -> 0",
        }),
    },
    Text {
        code: "J16",
        others: &[],
        title: "no answer comes in time",
        cause: "With `--timeout N` a data strobe is low for more than N units of the dump's time \
            without an answer.",
        sections: "2.3.3 (bus timer)",
        help: "Look for the bus timer, which answers BERR*, or raise N.",
        example: Some(Example {
            brief: "101 units with --timeout 100",
            input: Input::Dump {
                words: "--timeout 100",
                changes: "\
                    #10 0S\n\
                    #20 0U 0V\n\
                    #121 b1 d\n",
            },
            shows: "\
                trace:29: error: no answer comes in time [J16]\n    \
                DS1*         0 -> 0\n    \
                DS0*         0 -> 0\n    \
                DTACK*       1 -> 1\n    \
                BERR*        1 -> 1",
        }),
    },
    Text {
        code: "J17",
        others: &[],
        title: "a local port answers with an undefined line",
        cause: "A visible local port answers an access while its write line, its offset or a byte \
            is z or x, or with other bytes than one, two or four on the low lanes.",
        sections: "",
        help: "Drive these lines under the answer, or leave the port out of the dump and add \
            `--open SLOT`.",
        example: Some(Example {
            brief: "the port of slot 1 answers with no offset",
            input: Input::Dump {
                words: "",
                changes: "#10 1k\n",
            },
            shows: "trace:27: error: slot 1: a local port answers with an undefined line [J17]",
        }),
    },
    Text {
        code: "J21",
        others: &[],
        title: "BERR* answers, where a board answers this cycle",
        cause: "The board that the address selects has the bytes, and its class has the cycle. \
            BERR* is legal on a single read of a board without read-modify-writes, since it may \
            be the first half of one.",
        sections: "2.3.6 (basic data transfer)",
        help: "Compare the board with `width`, `uat`, `blt`, `rmw` and `supervisory` of the file.",
        example: Some(Example {
            brief: "BERR* at an address of slot 1",
            input: Input::Log(
                "n=0 am=09 a=00000000 ds1=0 ds0=0 a01=0 lword=0 write=0 data=00000001 berr\n",
            ),
            shows: "\
                trace:1: error: slot 1: BERR* answers, where a board answers this cycle [J21]\n    \
                DTACK*       1 -> 1\n    \
                BERR*        1 -> 0",
        }),
    },
    Text {
        code: "J22",
        others: &[],
        title: "DTACK* answers, where no board answers this cycle",
        cause: "No board has the address in the code's space, or the datum ends past the board, \
            or the board's class lacks the cycle.",
        sections: "2.3.3 (bus timer), 2.3.6 (basic data transfer)",
        help: "If a board that the file does not name answers there, add `--others`.",
        example: Some(Example {
            brief: "DTACK* at an address of no board",
            input: Input::Log(
                "n=0 am=09 a=00002000 ds1=0 ds0=0 a01=0 lword=0 write=1 data=00000001 dtack\n",
            ),
            shows: "\
                trace:1: error: DTACK* answers, where no board answers this cycle [J22]\n    \
                DTACK*       0 -> 0\n    \
                BERR*        1 -> 1",
        }),
    },
    Text {
        code: "J23",
        others: &[],
        title: "a read finds other bytes than the memory has",
        cause: "A byte is unknown until its first access, or zero with `--zero`. A read finds \
            another byte than the last access to it has shown.",
        sections: "2.3.6 (basic data transfer)",
        help: "Look for a lost write before it. If something that the trace does not show may \
            write there, add `--open SLOT`.",
        example: Some(Example {
            brief: "two reads of one byte",
            input: Input::Log(
                "\
                    n=0 am=09 a=00000000 ds1=1 ds0=0 a01=0 lword=1 write=1 data=------01 dtack\n\
                    n=0 am=09 a=00000000 ds1=1 ds0=0 a01=0 lword=1 write=1 data=------02 dtack\n",
            ),
            shows: "\
                trace:2: error: the board of slot 1 reads 02 at offset 00000001, where its memory has 01 [J23]\n    \
                data         02",
        }),
    },
    Text {
        code: "J24",
        others: &[],
        title: "a local write comes between the halves of a read-modify-write",
        cause: "A visible local port writes to the bytes of a read-modify-write between its read \
            and its write.",
        sections: "2.3.8 (read-modify-write)",
        help: "In the board, let the local port wait while AS* is low.",
        example: Some(Example {
            brief: "slot 1 writes between the halves",
            input: Input::Log(
                "\
                    n=0 am=09 a=00000000 ds1=0 ds0=0 a01=0 lword=0 write=1 data=00000000 dtack\n\
                    lp slot=1 w 00000000 00000005\n\
                    n=1 am=09 a=00000000 ds1=0 ds0=0 a01=0 lword=0 write=0 data=00000001 dtack\n",
            ),
            shows: "trace:3: error: slot 1: a local write comes between the halves of a \
                read-modify-write [J24]",
        }),
    },
];
