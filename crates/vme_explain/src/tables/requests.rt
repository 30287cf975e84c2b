//! The refusals of requests, in the order in which they are tested.
use crate::entry::{Example, Input, Text};

pub(crate) static REQUESTS: [Text; 9] = [
    Text {
        code: "K9",
        others: &[],
        title: "no address modifier",
        cause: "There are six address modifier lines, AM0 to AM5, so 3f is the highest code.",
        sections: "2.2.2 (address modifier lines)",
        help: "Use a code of the table of address modifiers.",
        example: Some(Example {
            brief: "r 40 00000000 1",
            input: Input::Line,
            shows: "refused K9",
        }),
    },
    Text {
        code: "K2",
        others: &[],
        title: "user-defined code",
        cause: "The codes 10 to 1f are left to the user. This master sends none of them.",
        sections: "2.2.2 (address modifier lines)",
        help: "Use a code of the table of address modifiers.",
        example: Some(Example {
            brief: "r 10 00000000 1",
            input: Input::Line,
            shows: "refused K2",
        }),
    },
    Text {
        code: "K1",
        others: &[],
        title: "reserved code",
        cause: "The standard reserves this address modifier. It is none of the 14 codes of its \
            table, none of the four codes of eight-byte blocks, and not one of 10 to 1f.",
        sections: "2.2.2 (address modifier lines)",
        help: "For data use 09 or 0d (A32), 39 or 3d (A24), 29 or 2d (A16).",
        example: Some(Example {
            brief: "r 2f 00000000 1",
            input: Input::Line,
            shows: "refused K1",
        }),
    },
    Text {
        code: "K5",
        others: &[],
        title: "wrong kind of code",
        cause: "`br`, `bw` and `bf` take a block code: 0b, 0f, 3b or 3f, and for data of eight bytes \
            08, 0c, 38 or 3c. Every other request takes a code that is no block code.",
        sections: "2.2.2 (address modifier lines)",
        help: "For a block write 0b in place of 09, 0f in place of 0d, 3b in place of 39, 3f in \
            place of 3d; for any other request the reverse.",
        example: Some(Example {
            brief: "br 0d 00000000 4 1",
            input: Input::Line,
            shows: "refused K5",
        }),
    },
    Text {
        code: "K7",
        others: &[],
        title: "read-modify-write with a program code",
        cause: "A program code can be read and written. A read-modify-write takes a data code or a \
            short code: a choice of this model.",
        sections: "",
        help: "Write 09 in place of 0a, 0d in place of 0e, 39 in place of 3a, 3d in place of 3e.",
        example: Some(Example {
            brief: "m 0a 00000000 1 set",
            input: Input::Line,
            shows: "refused K7",
        }),
    },
    Text {
        code: "K8",
        others: &[],
        title: "bad count",
        cause: "A single read or write has 1 to 4 bytes. A datum of a block or of a \
            read-modify-write has 1, 2 or 4 bytes, and with a code of eight-byte data 8. A block \
            has 1 to 256 data, and the bytes of `bw` are a multiple of one datum.",
        sections: "2.2.1 (addressing lines), 2.3.7 (block transfer), 2.3.8 (read-modify-write)",
        help: "Split the access into several, or use a block.",
        example: Some(Example {
            brief: "w 0d 00000000 010203040506",
            input: Input::Line,
            shows: "refused K8",
        }),
    },
    Text {
        code: "K4",
        others: &[],
        title: "outside the address space",
        cause: "The first or the last byte lies past the end of the space that the code selects: \
            ffff in A16, ffffff in A24, ffffffff in A32.",
        sections: "2.3.5 (addressing)",
        help: "Use a lower address, or a code of a larger space.",
        example: Some(Example {
            brief: "r 39 01000000 1",
            input: Input::Line,
            shows: "refused K4",
        }),
    },
    Text {
        code: "K3",
        others: &[],
        title: "no cycle for these bytes",
        cause: "A single cycle has bytes of one group of four, which begins at a multiple of 4: any \
            one byte; two bytes from offset 0, 1 or 2; three from 0 or 1; four from 0. A block \
            and a read-modify-write begin at a multiple of their datum.",
        sections: "2.2.1 (addressing lines)",
        help: "Split the access at the multiple of 4, here into `w 0d 00000003 a1` and `w 0d \
            00000004 a2`. Other masters can then use the bus between the two.",
        example: Some(Example {
            brief: "w 0d 00000003 a1a2",
            input: Input::Line,
            shows: "refused K3",
        }),
    },
    Text {
        code: "K6",
        others: &[],
        title: "block over a boundary",
        cause: "A block crosses no multiple of 256, and no multiple of 2,048 if its data have eight \
            bytes: the slave increments the address only within that unit.",
        sections: "2.3.7 (block transfer)",
        help: "End the block at the boundary, and begin a second one there.",
        example: Some(Example {
            brief: "br 0b 000000fc 4 2",
            input: Input::Line,
            shows: "refused K6",
        }),
    },
];
