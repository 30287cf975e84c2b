//! Files, each with its first refusal, or lawful.
use crate::support::{check, check_files};
use std::alloc::{AllocError, Global};

/// Files, each with its first refusal.
static ROWS: [(&str, &str); 48] = [
    ("", "C11"),
    ("board = []", "C11"),
    ("board = [{ slot = 1, base = 0, size = 16 }]", "lawful"),
    // C6 and C7: the text, its keys and their kinds.
    (
        "board = [{ slot = 1, base = 0, size = 16, script = \"lw 0000",
        "C6",
    ),
    (
        "colour = 1\nboard = [{ slot = 1, base = 0, size = 16 }]",
        "C7",
    ),
    (
        "board = [{ slot = 1, base = 0, size = 16, colour = 1 }]",
        "C7",
    ),
    ("board = [{ slot = 1, base = 0 }]", "C7"),
    ("board = [{ base = 0, size = 16 }]", "C7"),
    ("board = [{ slot = 1, base = 0, size = -4 }]", "C7"),
    ("board = [{ slot = 1, base = 4294967296, size = 16 }]", "C7"),
    ("board = [{ slot = \"1\", base = 0, size = 16 }]", "C7"),
    ("board = [{ slot = 1, base = 0, size = 16, uat = 1 }]", "C7"),
    (
        "board = [{ slot = 1, base = 0, size = 16, script = 1 }]",
        "C7",
    ),
    (
        "schedule = [[1]]\nboard = [{ slot = 1, base = 0, size = 16 }]",
        "C7",
    ),
    (
        "schedule = [[1, 1, 1]]\nboard = [{ slot = 1, base = 0, size = 16 }]",
        "C7",
    ),
    (
        "tries = 0.5\nboard = [{ slot = 1, base = 0, size = 16 }]",
        "C7",
    ),
    // C8 to C10: slots, levels and words.
    ("board = [{ slot = 0, base = 0, size = 16 }]", "C8"),
    ("board = [{ slot = 22, base = 0, size = 16 }]", "C8"),
    (
        "board = [{ slot = 2, base = 0, size = 16 }, { slot = 2, base = 16, size = 16 }]",
        "C8",
    ),
    (
        "board = [{ slot = 1, base = 0, size = 16, level = 4, space = \"a64\" }]",
        "C9",
    ),
    (
        "board = [{ slot = 1, base = 0, size = 18, space = \"a64\" }]",
        "C10",
    ),
    (
        "board = [{ slot = 1, base = 0, size = 16, width = 24 }]",
        "C10",
    ),
    (
        "board = [{ slot = 1, base = 0, size = 16, width = 16, uat = true }]",
        "C10",
    ),
    (
        "arbiter = \"first\"\ntries = 0\nboard = [{ slot = 1, base = 0, size = 16 }]",
        "C10",
    ),
    (
        "arbiter = \"rotating\"\nboard = [{ slot = 1, base = 0, size = 16 }]",
        "lawful",
    ),
    (
        "arbiter = \"Rotating\"\nboard = [{ slot = 1, base = 0, size = 16 }]",
        "C10",
    ),
    (
        "arbiter = 1\nboard = [{ slot = 1, base = 0, size = 16 }]",
        "C7",
    ),
    // C5, C3, C2 and C1: ranges.
    ("board = [{ slot = 1, base = 2, size = 18 }]", "C5"),
    ("board = [{ slot = 1, base = 0, size = 0 }]", "C5"),
    ("board = [{ slot = 1, base = 0, size = 1048580 }]", "C5"),
    ("board = [{ slot = 1, base = 0xfffffffe, size = 16 }]", "C3"),
    ("board = [{ slot = 1, base = 0xfffffffc, size = 8 }]", "C2"),
    (
        "board = [{ slot = 1, base = 0xfffffffc, size = 4 }]",
        "lawful",
    ),
    (
        "board = [{ slot = 1, base = 0xfffc, size = 8, space = \"a16\" }]",
        "C2",
    ),
    (
        "board = [{ slot = 1, base = 0xfffffc, size = 8, space = \"a24\" }, { slot = 1, base = 0, size = 16 }]",
        "C2",
    ),
    (
        "board = [{ slot = 1, base = 0, size = 4096 }, { slot = 2, base = 4092, size = 16 }]",
        "C1",
    ),
    (
        "board = [{ slot = 1, base = 0, size = 4096 }, { slot = 2, base = 4096, size = 16 }]",
        "lawful",
    ),
    (
        "board = [{ slot = 1, base = 0, size = 16 }, { slot = 2, base = 0, size = 16, space = \"a24\" }]",
        "lawful",
    ),
    (
        "tries = 0\nboard = [{ slot = 1, base = 0, size = 16 }, { slot = 2, base = 0, size = 16 }]",
        "C1",
    ),
    // C12: numbers and turns.
    (
        "tries = 0\nboard = [{ slot = 1, base = 0, size = 16, script = \"x\" }]",
        "C12",
    ),
    (
        "tries = 1000001\nboard = [{ slot = 1, base = 0, size = 16 }]",
        "C12",
    ),
    (
        "rounds = 1000001\nboard = [{ slot = 1, base = 0, size = 16 }]",
        "C12",
    ),
    (
        "schedule = [[3, 1]]\nboard = [{ slot = 1, base = 0, size = 16 }]",
        "C12",
    ),
    (
        "schedule = [[1, 1000001]]\nboard = [{ slot = 1, base = 0, size = 16 }]",
        "C12",
    ),
    (
        "schedule = [[1, 999999], [1, 2]]\nboard = [{ slot = 1, base = 0, size = 16 }]",
        "C12",
    ),
    (
        "schedule = [[1, 999999], [1, 1]]\nboard = [{ slot = 1, base = 0, size = 16 }]",
        "lawful",
    ),
    // C14: the first script that is refused.
    (
        "board = [{ slot = 1, base = 0, size = 16, script = \"r 09 00000000 1\" },
{ slot = 2, base = 16, size = 16, script = \"# to the first board\\n\\nr 0g 00000000 1\\nx\" },
{ slot = 3, base = 32, size = 16, script = \"x\" }]",
        "C14 slot 2 line 3 S4",
    ),
    (
        "board = [{ slot = 21, base = 0, size = 16, script = \"lr 00000000 3\" }]",
        "C14 slot 21 line 1 S6",
    ),
];

#[test]
fn reports_the_first_refusal(rt: HostRuntime) {
    check_files(&rt, rt.alloc(), &ROWS);
    check(&rt, rt.alloc(), b"# \xff\n", "C6");
}

/// Returns `prefix`, then `part` `count` times, then `end`.
fn repeated(
    alloc: Global,
    prefix: &str,
    part: &str,
    count: usize,
    end: &str,
) -> Result<String, AllocError> {
    let mut file = String::new(alloc);
    file.push_str(prefix)?;
    for _ in 0..count {
        file.push_str(part)?;
    }
    file.push_str(end)?;
    Ok(file)
}

/// The prefix of a file up to the script of its one board.
const SCRIPT: &str = "board = [{ slot = 1, base = 0, size = 16, script = \"\"\"
";

/// Files at the limits: prefix, part, number of times that the part is repeated, end, and the first
/// refusal.
static LIMITS: [(&str, &str, usize, &str, &str); 6] = [
    (
        "",
        "[[board]]\nslot = 1\nbase = 0\nsize = 16\n",
        21,
        "",
        "C8",
    ),
    (
        "",
        "[[board]]\nslot = 1\nbase = 0\nsize = 16\n",
        22,
        "",
        "C4",
    ),
    (SCRIPT, "\n", 1000, "\"\"\" }]", "lawful"),
    (SCRIPT, "\n", 1001, "\"\"\" }]", "C14 slot 1 line 1001 S8"),
    (SCRIPT, "x", 80, "\"\"\" }]", "C14 slot 1 line 1 S2"),
    (SCRIPT, "x", 81, "\"\"\" }]", "C14 slot 1 line 1 S1"),
];

#[test]
fn reports_what_is_past_a_limit(rt: HostRuntime) {
    for (prefix, part, count, end, wanted) in &LIMITS {
        let file = repeated(rt.alloc(), prefix, part, *count, end).expect(&rt, "no memory");
        check(&rt, rt.alloc(), file.as_bytes(), wanted);
    }
}
