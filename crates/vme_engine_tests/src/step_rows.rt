//! Configuration files, with what `vme step` reports of their runs.
use vme_engines::Status;

pub static ROWS: [(&str, &str, Status); 9] = [
    // A block that reads past the end of its board: the board's own bus error is a step of it.
    (
        "rounds = 4
[[board]]
slot = 1
base = 0
size = 20
[[board]]
slot = 2
base = 0x1000
size = 16
script = 'br 0b 00000010 4 2'
",
        "2:1 berr 1 00000000
board 1 steps 2 made 0 2
board 2 steps 0 made 0 0
",
        Status::Marked,
    ),
    // A read-modify-write over the bus before one by the local port, on one byte.
    (
        "schedule = [[2, 3], [1, 1]]
[[board]]
slot = 1
base = 0
size = 16
script = 'lm 00000008 1 set'
[[board]]
slot = 2
base = 0x1000
size = 16
script = 'm 09 00000008 1 set'
",
        "1:1 old 80
2:1 old 00
board 1 steps 2 made 1 1
board 2 steps 0 made 0 0
mem 1 00000000 00000000000000008000000000000000
",
        Status::Clean,
    ),
    // A read-modify-write by the local port before one over the bus, on one byte.
    (
        "schedule = [[1, 1], [2, 3]]
[[board]]
slot = 1
base = 0
size = 16
script = 'lm 00000008 1 set'
[[board]]
slot = 2
base = 0x1000
size = 16
script = 'm 09 00000008 1 set'
",
        "1:1 old 00
2:1 old 80
board 1 steps 2 made 1 1
board 2 steps 0 made 0 0
mem 1 00000000 00000000000000008000000000000000
",
        Status::Clean,
    ),
    // A board that only supervisory codes select, and an address of no board.
    (
        "rounds = 7
[[board]]
slot = 1
base = 0
size = 16
supervisory = true
[[board]]
slot = 2
base = 0x1000
size = 16
script = '''
r 09 00000000 1
r 09 00002000 1
r 0d 00000000 1
'''
",
        "2:1 berr 0
2:2 berr 0
2:3 read 00
board 1 steps 1 made 0 1
board 2 steps 0 made 0 0
",
        Status::Marked,
    ),
    // A local write past the end, and a line that has no turn.
    (
        "rounds = 1
[[board]]
slot = 1
base = 0
size = 16
script = '''
lw 0000000f aabb
lr 0000000c 4
'''
",
        "1:1 berr 0
1:2 unfinished
board 1 steps 1 made 1
",
        Status::Marked,
    ),
    // A local write past the end, and a line that has its turn.
    (
        "rounds = 2
[[board]]
slot = 1
base = 0
size = 16
script = '''
lw 0000000f aabb
lr 0000000c 4
'''
",
        "1:1 berr 0
1:2 read 00000000
board 1 steps 2 made 2
",
        Status::Marked,
    ),
    // A byte that is awaited, and written after the first read.
    (
        "tries = 2
schedule = [[2, 3], [1, 1], [2, 3]]
[[board]]
slot = 1
base = 0
size = 16
script = 'lw 00000000 01'
[[board]]
slot = 2
base = 0x1000
size = 16
script = 'await 09 00000000 01'
",
        "1:1 done
2:1 met
board 1 steps 3 made 1 2
board 2 steps 0 made 0 0
mem 1 00000000 01000000000000000000000000000000
",
        Status::Clean,
    ),
    // A byte that is awaited with one read, and written after it.
    (
        "tries = 1
schedule = [[2, 3], [1, 1], [2, 3]]
[[board]]
slot = 1
base = 0
size = 16
script = 'lw 00000000 01'
[[board]]
slot = 2
base = 0x1000
size = 16
script = 'await 09 00000000 01'
",
        "1:1 done
2:1 timeout
board 1 steps 2 made 1 1
board 2 steps 0 made 0 0
mem 1 00000000 01000000000000000000000000000000
",
        Status::Marked,
    ),
    // A refused request gets its reply in the next turn of its slot, which then goes to the next line.
    // Line numbers count every line.
    (
        "schedule = [[1, 1], [7, 1]]
[[board]]
slot = 1
base = 0
size = 16
script = '''
# a request that is no cycle, then a write

w 09 00000003 0102
lw 00000000 ff
r 09 00000003 2
'''
[[board]]
slot = 7
base = 0x1000
size = 16
",
        "1:3 refused K3
1:4 done
1:5 unfinished
board 1 steps 1 made 1 0
board 7 steps 0 made 0 0
mem 1 00000000 ff000000000000000000000000000000
",
        Status::Marked,
    ),
];
