//! Worked rows of `vme cycles` for the 64-bit multiplexed block transfer (MBLT) of VME64 (ANSI/VITA
//! 1-1994), in this project's profile.
use vme_engines::Status;

pub static ANSWERED: [(&str, &str, Status); 5] = [
    (
        "bw 08 00000010 8 0102030405060708
br 08 00000010 8 1
r 0d 00000014 4
",
        "am=08 a=00000010 ds1=0 ds0=0 a01=0 lword=0 write=0 data=0102030405060708
done
am=08 a=00000010 ds1=0 ds0=0 a01=0 lword=0 write=1 data=0102030405060708
read 0102030405060708
am=0d a=00000014 ds1=0 ds0=0 a01=0 lword=0 write=1 data=05060708
read 05060708
",
        Status::Clean,
    ),
    (
        "w 09 0000002a a1a2
bf 0c 00000020 8 1 0f1e2d3c4b5a6978
br 0c 00000020 8 2
",
        "am=09 a=00000028 ds1=0 ds0=0 a01=1 lword=1 write=0 data=----a1a2
done
am=0c a=00000020 ds1=0 ds0=0 a01=0 lword=0 write=0 data=0f1e2d3c4b5a6978
done
am=0c a=00000020 ds1=0 ds0=0 a01=0 lword=0 write=1 data=0f1e2d3c4b5a6978
am=0c a=00000020 ds1=0 ds0=0 a01=0 lword=0 write=1 data=0000a1a200000000
read 0f1e2d3c4b5a69780000a1a200000000
",
        Status::Clean,
    ),
    (
        "br 08 000007f8 8 1\n",
        "am=08 a=000007f8 ds1=0 ds0=0 a01=0 lword=0 write=1 data=0000000000000000
read 0000000000000000
",
        Status::Clean,
    ),
    (
        "br 38 00000000 8 1\n",
        "am=38 a=00000000 ds1=0 ds0=0 a01=0 lword=0 write=1 data=----------------
berr 0
",
        Status::Marked,
    ),
    (
        "bw 08 00001000 8 01020304050607080102030405060708\n",
        "am=08 a=00001000 ds1=0 ds0=0 a01=0 lword=0 write=0 data=0102030405060708
berr 0
",
        Status::Marked,
    ),
];

/// Lines that are refused as requests, each with its answer.
pub static REFUSED: &str = "\
br 08 000007f8 8 2|refused K6
br 08 00000008 8 256|refused K6
br 08 00000014 8 1|refused K3
br 08 00000004 8 1|refused K3
br 08 00000000 1 1|refused K8
br 3c 00000000 2 1|refused K8
br 0f 00000000 8 1|refused K8
bf 08 00000000 8 257 0000000000000000|refused K8
bw 08 00000000 8 010203040506070809|refused K8
r 0d 00000000 8|refused K8
m 0c 00000000 4 set|refused K5
br 38 01000000 8 1|refused K4
br 28 00000000 8 1|refused K1
";
