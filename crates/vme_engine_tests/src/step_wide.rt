//! Blocks of eight bytes a datum, and a board at the end of its space, by `vme step`.
use vme_engines::Status;

pub static ROWS: [(&str, &str, Status); 4] = [
    // A datum of which the board has only four bytes: the bus error is a step of the board.
    (
        "rounds = 3
[[board]]
slot = 1
base = 0
size = 20
[[board]]
slot = 2
base = 0x1000
size = 16
script = 'br 08 00000010 8 1'
",
        "2:1 berr 0
board 1 steps 1 made 0 1
board 2 steps 0 made 0 0
",
        Status::Marked,
    ),
    // A base that is 4 modulo 8: the datum is at offset 4.
    (
        "rounds = 3
[[board]]
slot = 1
base = 4
size = 16
[[board]]
slot = 2
base = 0x1000
size = 16
script = 'br 08 00000008 8 1'
",
        "2:1 read 0000000000000000
board 1 steps 1 made 0 1
board 2 steps 0 made 0 0
",
        Status::Clean,
    ),
    // Two local writes after a datum that contains both words. The datum is one event, so the read
    // is not torn.
    (
        "schedule = [[2, 2], [1, 2], [2, 2]]
[[board]]
slot = 1
base = 0
size = 16
script = '''
lw 00000000 aaaaaaaa
lw 00000004 bbbbbbbb
'''
[[board]]
slot = 2
base = 0x1000
size = 16
script = 'br 08 00000000 8 1'
",
        "1:1 done
1:2 done
2:1 read 0000000000000000
board 1 steps 3 made 2 1
board 2 steps 0 made 0 0
mem 1 00000000 aaaaaaaabbbbbbbb0000000000000000
",
        Status::Clean,
    ),
    // A board whose last byte is the last of its space.
    (
        "[[board]]
slot = 1
base = 0xfffffffc
size = 4
",
        "board 1 steps 0 made 0
",
        Status::Clean,
    ),
];
