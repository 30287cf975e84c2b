//! The warnings of `bendrika check` about lawful files.
use crate::entry::Text;

pub(crate) static WARNINGS: [Text; 12] = [
    Text {
        code: "no-turns",
        others: &[],
        title: "no turn for a script",
        cause: "A script has lines, and `schedule` and `rounds` give its slot no turn, so `vme step` \
            leaves them unfinished. `vme run` ignores both keys.",
        sections: "",
        help: "Add `rounds = 100` above the first [[board]], or turns to `schedule`.",
        example: None,
    },
    Text {
        code: "few-turns",
        others: &[],
        title: "too few turns",
        cause: "A slot has fewer turns than its lines take when no other board uses the bus. A \
            transfer takes a turn to request the bus, one for each datum and one to end. A local \
            line takes one.",
        sections: "",
        help: "Raise `rounds`, or the turns in `schedule`.",
        example: None,
    },
    Text {
        code: "idle-turns",
        others: &[],
        title: "turns without a line",
        cause: "`schedule` gives turns to a slot whose script has no line.",
        sections: "",
        help: "Remove the pair, or add a script.",
        example: None,
    },
    Text {
        code: "no-lines",
        others: &[],
        title: "no line in any script",
        cause: "No script of the file has a line other than comments and empty lines.",
        sections: "",
        help: "Add a script to a board.",
        example: None,
    },
    Text {
        code: "no-answer",
        others: &[],
        title: "address without a board",
        cause: "No board of the code's space has the address, or the board there is supervisory and \
            the code is not. Each run answers `berr 0`.",
        sections: "2.3.3 (bus timer)",
        help: "Compare code and address with the board's `space`, `base`, `size` and `supervisory`.",
        example: None,
    },
    Text {
        code: "past-end",
        others: &[],
        title: "bytes past the end of a board",
        cause: "The bytes of a line, or a datum of its block, end past the board. Each run answers \
            `berr`.",
        sections: "",
        help: "Lower the address or the count, or enlarge the board.",
        example: None,
    },
    Text {
        code: "board-lacks",
        others: &[],
        title: "transfer that the board does not support",
        cause: "The board has too few data lines, or no unaligned transfers, block transfers or \
            read-modify-writes. Each run answers `berr`.",
        sections: "",
        help: "Change `width`, `uat`, `blt` or `rmw` of the board, or the line.",
        example: None,
    },
    Text {
        code: "never-met",
        others: &[],
        title: "await that no line can end",
        cause: "An awaited byte is not 00, and no line of any script writes it. Each run answers \
            `timeout`.",
        sections: "",
        help: "Add the line that writes it, or correct the address.",
        example: None,
    },
    Text {
        code: "lock-written",
        others: &[],
        title: "write to a lock",
        cause: "A line other than `lock`, `unlock` and a `set` writes the byte of a lock, and can \
            release it.",
        sections: "",
        help: "Use another byte for the lock or for the data.",
        example: None,
    },
    Text {
        code: "lock-kept",
        others: &[],
        title: "lock without an unlock",
        cause: "No line of any script unlocks the byte of a `lock`.",
        sections: "",
        help: "Add an `unlock` of the same byte.",
        example: None,
    },
    Text {
        code: "idle-mailbox",
        others: &[],
        title: "mailbox without a line",
        cause: "No `put` and no `take` of any script names the mailbox.",
        sections: "",
        help: "Remove the table, or use the mailbox.",
        example: None,
    },
    Text {
        code: "decimal",
        others: &[],
        title: "address in decimal digits",
        cause: "`base` or `addr` has decimal digits that end in 00, as 1000 does, and is not the \
            address 0x1000.",
        sections: "",
        help: "Write 0x1000, if that was meant.",
        example: None,
    },
];
