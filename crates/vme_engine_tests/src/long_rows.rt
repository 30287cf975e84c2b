//! Worked rows with long texts, and rows of `vme run`, whose reports vary in some lines: inputs and
//! texts by their parts.
use crate::support::{Engine, Parts};

/// An input whose run has the status `Clean`, with what its text begins and ends with.
pub struct LongRow {
    pub engine: Engine,
    pub input: Parts<'static>,
    pub first: Parts<'static>,
    /// The end of the text; `None` if `first` is the whole text.
    pub last: Option<&'static str>,
}

/// The processor in slot 9 has the bus while those in slots 1, 2 and 3 request it, on levels 3, 1
/// and 2. Each adds one to the same word.
const FOUR_BOARDS: &str = "schedule = [[9, 1], [1, 1], [2, 1], [3, 1], [9, 2]]
rounds = 9
[[board]]
slot = 1
level = 3
base = 0
size = 32
script = 'm 09 00000010 4 add 00000001'
[[board]]
slot = 2
level = 1
base = 0x1000
size = 16
script = 'm 09 00000010 4 add 00000001'
[[board]]
slot = 3
level = 2
base = 0x2000
size = 16
script = 'm 09 00000010 4 add 00000001'
[[board]]
slot = 9
level = 3
base = 0x3000
size = 16
script = 'm 09 00000010 4 add 00000001'
";

/// The report after the lines of slots 1, 2 and 3, for every order of grants.
const REST: &str = "9:1 old 00000000
board 1 steps 4 made 1 1 1 1
board 2 steps 0 made 0 0 0 0
board 3 steps 0 made 0 0 0 0
board 9 steps 0 made 0 0 0 0
mem 1 00000010 00000004000000000000000000000000
";

/// The signals of a write of a datum of eight bytes.
const WRITE: &str = "am=08 a=00000800 ds1=0 ds0=0 a01=0 lword=0 write=0 data=a1a2a3a4a5a6a7a8\n";

/// The signals of a read of it.
const READ: &str = "am=08 a=00000800 ds1=0 ds0=0 a01=0 lword=0 write=1 data=a1a2a3a4a5a6a7a8\n";

/// The line of a script that adds one to a word to which four processors add.
const ADD: &str = "m 09 00000010 4 add 00000001\n";

pub static ROWS: [LongRow; 9] = [
    // A fill of a whole unit by single bytes, at even and at odd addresses.
    LongRow {
        engine: Engine::Cycles,
        input: &[("bf 0b 00000000 1 256 5a\n", 1)],
        first: &[
            (
                "am=0b a=00000000 ds1=0 ds0=1 a01=0 lword=1 write=0 data=----5a--
am=0b a=00000000 ds1=1 ds0=0 a01=0 lword=1 write=0 data=------5a
",
                128,
            ),
            ("done\n", 1),
        ],
        last: None,
    },
    // All 2,048 bytes of a unit in one transfer.
    LongRow {
        engine: Engine::Cycles,
        input: &[(
            "bf 08 00000800 8 256 a1a2a3a4a5a6a7a8\nbr 08 00000800 8 256\n",
            1,
        )],
        first: &[
            (WRITE, 256),
            ("done\n", 1),
            (READ, 256),
            ("read ", 1),
            ("a1a2a3a4a5a6a7a8", 256),
            ("\n", 1),
        ],
        last: None,
    },
    // A script with as many lines as it may have.
    LongRow {
        engine: Engine::Step,
        input: &[
            (
                "[[board]]\nslot = 1\nbase = 0\nsize = 16\nscript = '''\n",
                1,
            ),
            ("\n", 1000),
            ("'''\n", 1),
        ],
        first: &[("board 1 steps 0 made 0\n", 1)],
        last: None,
    },
    // The levels in rotation, and from the greatest: the values show the order.
    LongRow {
        engine: Engine::Step,
        input: &[("arbiter = 'rotating'\n", 1), (FOUR_BOARDS, 1)],
        first: &[
            ("1:1 old 00000003\n2:1 old 00000002\n3:1 old 00000001\n", 1),
            (REST, 1),
        ],
        last: None,
    },
    LongRow {
        engine: Engine::Step,
        input: &[("arbiter = 'priority'\n", 1), (FOUR_BOARDS, 1)],
        first: &[
            ("1:1 old 00000001\n2:1 old 00000003\n3:1 old 00000002\n", 1),
            (REST, 1),
        ],
        last: None,
    },
    LongRow {
        engine: Engine::Step,
        input: &[(FOUR_BOARDS, 1)],
        first: &[
            ("1:1 old 00000001\n2:1 old 00000003\n3:1 old 00000002\n", 1),
            (REST, 1),
        ],
        last: None,
    },
    // The longest block, written and read back.
    LongRow {
        engine: Engine::Step,
        input: &[(
            "rounds = 1000
[[board]]
slot = 1
base = 0
size = 2048
script = '''
bf 0c 00000000 8 256 0102030405060708
br 0c 00000000 8 256
'''
",
            1,
        )],
        first: &[("1:1 done\n1:2 read ", 1), ("0102030405060708", 256)],
        last: Some(""),
    },
    // Two processors that wait for each other's byte.
    LongRow {
        engine: Engine::Run,
        input: &[(
            "tries = 1000000
[[board]]
slot = 1
base = 0
size = 16
script = '''
w 09 00000000 01
await 09 00000001 01'''
[[board]]
slot = 2
base = 0x1000
size = 16
script = '''
await 09 00000000 01
w 09 00000001 01'''
",
            1,
        )],
        first: &[(
            "1:1 done
1:2 met
2:1 met
2:2 done
",
            1,
        )],
        last: Some(""),
    },
    // Four processors that add to one word, each with as many lines as a script may have.
    LongRow {
        engine: Engine::Run,
        input: &[
            (
                "[[board]]\nslot = 1\nbase = 0x0000\nsize = 32\nscript = '''\n",
                1,
            ),
            (ADD, 1000),
            (
                "'''\n[[board]]\nslot = 2\nbase = 0x1000\nsize = 32\nscript = '''\n",
                1,
            ),
            (ADD, 1000),
            (
                "'''\n[[board]]\nslot = 3\nbase = 0x2000\nsize = 32\nscript = '''\n",
                1,
            ),
            (ADD, 1000),
            (
                "'''\n[[board]]\nslot = 4\nbase = 0x3000\nsize = 32\nscript = '''\n",
                1,
            ),
            (ADD, 1000),
            ("'''\n", 1),
        ],
        first: &[],
        last: Some(
            "
board 1 steps 4000 made 1000 1000 1000 1000
board 2 steps 0 made 0 0 0 0
board 3 steps 0 made 0 0 0 0
board 4 steps 0 made 0 0 0 0
mem 1 00000010 00000fa0000000000000000000000000
",
        ),
    },
];
