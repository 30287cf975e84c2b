//! Files whose processors share a lock or a mailbox, with what `vme step` reports of their runs.
use vme_engines::Status;

pub static ROWS: [(&str, &str, Status); 5] = [
    // One processor takes the lock; the other finds it busy, and may try once; then the first frees
    // it.
    (
        "tries = 1
schedule = [[1, 3], [2, 3], [1, 3]]
[[board]]
slot = 1
base = 0
size = 16
script = '''
lock 09 00000003
unlock 09 00000003
'''
[[board]]
slot = 2
base = 0x1000
size = 16
script = 'lock 09 00000003'
",
        "1:1 taken
1:2 done
2:1 busy
board 1 steps 3 made 2 1
board 2 steps 0 made 0 0
",
        Status::Marked,
    ),
    // Three words for a mailbox of two slots, and three takes from it.
    (
        "tries = 1
schedule = [[1, 48], [2, 48]]
[[board]]
slot = 1
base = 0
size = 32
script = '''
put 1 0000000a
put 1 0000000b
put 1 0000000c
'''
[[board]]
slot = 2
base = 0x1000
size = 16
script = '''
take 1
take 1
take 1
'''
[[mailbox]]
am = 9
addr = 0
slots = 2
",
        "1:1 put
1:2 put
1:3 full
2:1 took 0000000a
2:2 took 0000000b
2:3 empty
board 1 steps 32 made 16 16
board 2 steps 0 made 0 0
mem 1 00000000 00000000000000020000000200000000
mem 1 00000010 0000000a0000000b0000000000000000
",
        Status::Marked,
    ),
    // Three words for a mailbox of two slots, and a line that names bytes of the mailbox but is
    // refused as a request because of its number of bytes.
    (
        "tries = 1
schedule = [[1, 48], [2, 48]]
rounds = 1
[[board]]
slot = 1
base = 0
size = 32
script = '''
put 1 0000000a
put 1 0000000b
put 1 0000000c
'''
[[board]]
slot = 2
base = 0x1000
size = 16
script = '''
take 1
take 1
take 1
r 09 00000014 8
'''
[[mailbox]]
am = 9
addr = 0
slots = 2
",
        "1:1 put
1:2 put
1:3 full
2:1 took 0000000a
2:2 took 0000000b
2:3 empty
2:4 refused K8
board 1 steps 32 made 16 16
board 2 steps 0 made 0 0
mem 1 00000000 00000000000000020000000200000000
mem 1 00000010 0000000a0000000b0000000000000000
",
        Status::Marked,
    ),
    // The mailbox is full for the second word, which is put when the first was taken.
    (
        "tries = 2
schedule = [[1, 30], [2, 18], [1, 18], [2, 18]]
[[board]]
slot = 1
base = 0
size = 32
script = '''
put 1 00000001
put 1 00000002
'''
[[board]]
slot = 2
base = 0x1000
size = 16
script = '''
take 1
take 1
'''
[[mailbox]]
am = 9
addr = 0
slots = 1
",
        "1:1 put
1:2 put
2:1 took 00000001
2:2 took 00000002
board 1 steps 28 made 16 12
board 2 steps 0 made 0 0
mem 1 00000000 00000000000000020000000200000000
mem 1 00000010 00000002000000000000000000000000
",
        Status::Clean,
    ),
    // A lock with a user-defined code, and a lock at an address of no board.
    (
        "rounds = 4
[[board]]
slot = 1
base = 0
size = 16
script = '''
lock 10 00000000
unlock 0a 00000000
lock 09 00001000
'''
",
        "1:1 refused K2
1:2 done
1:3 unfinished
board 1 steps 1 made 1
",
        Status::Marked,
    ),
];
