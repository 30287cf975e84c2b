//! Worked rows of `vme cycles`: inputs with their outputs and statuses, with values from the tables
//! of the standard and of this project's profile.
use vme_engines::Status;

pub static ANSWERED: [(&str, &str, Status); 19] = [
    ("", "", Status::Clean),
    (
        "w 0d 00000001 5a\n",
        "am=0d a=00000000 ds1=1 ds0=0 a01=0 lword=1 write=0 data=------5a
done
",
        Status::Clean,
    ),
    (
        "w 0d 00000000 5a\n",
        "am=0d a=00000000 ds1=0 ds0=1 a01=0 lword=1 write=0 data=----5a--
done
",
        Status::Clean,
    ),
    (
        "w 09 00000FFE BEef\n",
        "am=09 a=00000ffc ds1=0 ds0=0 a01=1 lword=1 write=0 data=----beef
done
",
        Status::Clean,
    ),
    (
        "r 0d 00001000 1
w 39 00000000 a1a2
r 0d 00000000 2
",
        "am=0d a=00001000 ds1=0 ds0=1 a01=0 lword=1 write=1 data=--------
berr 0
am=39 a=00000000 ds1=0 ds0=0 a01=0 lword=1 write=0 data=----a1a2
berr 0
am=0d a=00000000 ds1=0 ds0=0 a01=0 lword=1 write=1 data=----0000
read 0000
",
        Status::Marked,
    ),
    (
        "#23456789 123456789 123456789 123456789 123456789 123456789 123456789 123456789 ",
        "",
        Status::Clean,
    ),
    (
        "w 0d 00000001 a1a2
w 0d 00000003 a1a2
",
        "am=0d a=00000000 ds1=0 ds0=0 a01=1 lword=0 write=0 data=--a1a2--
done
refused K3
",
        Status::Marked,
    ),
    (
        "w 0d 00000000 010203
w 0d 00000001 0a0b0c
r 0d 00000000 4
",
        "am=0d a=00000000 ds1=0 ds0=1 a01=0 lword=0 write=0 data=010203--
done
am=0d a=00000000 ds1=1 ds0=0 a01=0 lword=0 write=0 data=--0a0b0c
done
am=0d a=00000000 ds1=0 ds0=0 a01=0 lword=0 write=1 data=010a0b0c
read 010a0b0c
",
        Status::Clean,
    ),
    (
        "bw 0b 000000f8 4 0000000100000002
br 0f 000000f8 4 2
",
        "am=0b a=000000f8 ds1=0 ds0=0 a01=0 lword=0 write=0 data=00000001
am=0b a=000000f8 ds1=0 ds0=0 a01=0 lword=0 write=0 data=00000002
done
am=0f a=000000f8 ds1=0 ds0=0 a01=0 lword=0 write=1 data=00000001
am=0f a=000000f8 ds1=0 ds0=0 a01=0 lword=0 write=1 data=00000002
read 0000000100000002
",
        Status::Clean,
    ),
    (
        "bw 0b 00000001 1 0708\n",
        "am=0b a=00000000 ds1=1 ds0=0 a01=0 lword=1 write=0 data=------07
am=0b a=00000000 ds1=0 ds0=1 a01=0 lword=1 write=0 data=----08--
done
",
        Status::Clean,
    ),
    (
        "bf 0b 00000020 2 3 beef
r 0d 00000024 4
",
        "am=0b a=00000020 ds1=0 ds0=0 a01=0 lword=1 write=0 data=----beef
am=0b a=00000020 ds1=0 ds0=0 a01=0 lword=1 write=0 data=----beef
am=0b a=00000020 ds1=0 ds0=0 a01=0 lword=1 write=0 data=----beef
done
am=0d a=00000024 ds1=0 ds0=0 a01=0 lword=0 write=1 data=beef0000
read beef0000
",
        Status::Clean,
    ),
    (
        "br 0b 00000043 1 3\n",
        "am=0b a=00000040 ds1=1 ds0=0 a01=1 lword=1 write=1 data=------00
am=0b a=00000040 ds1=0 ds0=1 a01=1 lword=1 write=1 data=----00--
am=0b a=00000040 ds1=1 ds0=0 a01=1 lword=1 write=1 data=------00
read 000000
",
        Status::Clean,
    ),
    (
        "bw 3b 00000042 2 01020304
br 0f 00001000 4 3
",
        "am=3b a=00000040 ds1=0 ds0=0 a01=1 lword=1 write=0 data=----0102
berr 0
am=0f a=00001000 ds1=0 ds0=0 a01=0 lword=0 write=1 data=--------
berr 0
",
        Status::Marked,
    ),
    (
        "m 0d 00000010 1 set
m 0d 00000010 4 add 00000001
m 0d 00000010 4 cas 00000000 ffffffff
m 0d 00000010 4 cas 80000001 ffffffff
r 39 00000000 1
",
        "am=0d a=00000010 ds1=0 ds0=1 a01=0 lword=1 write=1 data=----00--
am=0d a=00000010 ds1=0 ds0=1 a01=0 lword=1 write=0 data=----80--
old 00
am=0d a=00000010 ds1=0 ds0=0 a01=0 lword=0 write=1 data=80000000
am=0d a=00000010 ds1=0 ds0=0 a01=0 lword=0 write=0 data=80000001
old 80000000
am=0d a=00000010 ds1=0 ds0=0 a01=0 lword=0 write=1 data=80000001
am=0d a=00000010 ds1=0 ds0=0 a01=0 lword=0 write=0 data=80000001
old 80000001
am=0d a=00000010 ds1=0 ds0=0 a01=0 lword=0 write=1 data=80000001
am=0d a=00000010 ds1=0 ds0=0 a01=0 lword=0 write=0 data=ffffffff
old 80000001
am=39 a=00000000 ds1=0 ds0=1 a01=0 lword=1 write=1 data=--------
berr 0
",
        Status::Marked,
    ),
    (
        "w 0d 00000010 ffff
m 0d 00000010 2 add 0002
m 09 00000010 2 xchg a5a6
",
        "am=0d a=00000010 ds1=0 ds0=0 a01=0 lword=1 write=0 data=----ffff
done
am=0d a=00000010 ds1=0 ds0=0 a01=0 lword=1 write=1 data=----ffff
am=0d a=00000010 ds1=0 ds0=0 a01=0 lword=1 write=0 data=----0001
old ffff
am=09 a=00000010 ds1=0 ds0=0 a01=0 lword=1 write=1 data=----0001
am=09 a=00000010 ds1=0 ds0=0 a01=0 lword=1 write=0 data=----a5a6
old 0001
",
        Status::Clean,
    ),
    (
        "m 09 00001001 1 set
m 2d 00000000 4 xchg 01020304
",
        "am=09 a=00001000 ds1=1 ds0=0 a01=0 lword=1 write=1 data=--------
berr 0
am=2d a=00000000 ds1=0 ds0=0 a01=0 lword=0 write=1 data=--------
berr 0
",
        Status::Marked,
    ),
    (
        "r 0d 00000000 1\r\n",
        "am=0d a=00000000 ds1=0 ds0=1 a01=0 lword=1 write=1 data=----00--
read 00
",
        Status::Clean,
    ),
    (
        "\n   \n# r 0d 00000000 1\n  r   0d 00000000  1 \n\n",
        "am=0d a=00000000 ds1=0 ds0=1 a01=0 lword=1 write=1 data=----00--
read 00
",
        Status::Clean,
    ),
    (
        "#23456789 123456789 123456789 123456789 123456789 123456789 123456789 123456789 1\r\n",
        "line refused S1\n",
        Status::Marked,
    ),
];

/// Lines that are refused, as requests or as lines, each with its answer.
pub static REFUSED: &str = "\
r 08 00000000 1|refused K5
r 0c 00000000 1|refused K5
r 10 00000000 1|refused K2
r 2f 00000000 1|refused K1
r 40 00000000 1|refused K9
r 0b 00000000 4|refused K5
w 0d 00000000 010203040506|refused K8
r 29 0000ffff 2|refused K4
r 39 01000000 1|refused K4
w 0d 00000003 a1a2|refused K3
x|line refused S2
r 0d 00000000|line refused S3
r 0d 00000000 1 1|line refused S3
r 0g 00000000 1|line refused S4
r 0d 0000 1|line refused S5
r 0d 00000000 9|line refused S6
w 0d 00000000 5|line refused S7
w 0d 00000000 010203040506070809|line refused S7
r 0g 0000 9|line refused S4
lr 00000000 1|line refused S2
lr|line refused S2
await 0g|line refused S2
lock 09 00000003|line refused S2
lock|line refused S2
unlock 09 00000003|line refused S2
put 1 00000001|line refused S2
put 1 0|line refused S2
take 1|line refused S2
bf 0b 00000000 1 257 5a|refused K8
br 0b 00000001 1 256|refused K6
br 0b 000000fc 4 2|refused K6
br 0b 00000ffc 4 2|refused K6
br 0b 00000002 4 1|refused K3
br 0b 00000001 2 1|refused K3
br 0b 00000000 4 0|refused K8
br 0b 00000000 3 1|refused K8
bw 0b 00000000 8 0102030405060708|refused K8
bw 0b 00000000 2 010203|refused K8
br 0d 00000000 4 1|refused K5
br 3b 01000000 4 1|refused K4
br 0b fffffffc 4 2|refused K4
br 08 00000000 4 1|refused K8
br 0b 00000000 4|line refused S3
bf 0b 00000000 4 1|line refused S3
bf 0b 00000000 4 1 01020304 05|line refused S3
br 0b 00000000 9 10000|line refused S6
br 0b 00000000 4 10000|line refused S6
br 0b 00000000 4 1a|line refused S6
bf 0b 00000000 4 1 010203|line refused S7
bw 0b 00000000 1 0|line refused S7
bf 0b 0000 9 a 0|line refused S5
m 08 00000000 1 set|refused K5
m 0b 00000000 1 set|refused K5
m 0a 00000000 1 set|refused K7
m 3e 00000000 3 set|refused K7
m 0d 00000000 3 set|refused K8
m 0d 00000000 8 add 0102030405060708|refused K8
m 29 0000ffff 2 set|refused K4
m 0d 00000002 4 set|refused K3
m 0d 00000001 2 set|refused K3
m 0d 00000000 1 swap 01 02 03|line refused S2
m 0d 00000000 1 SET|line refused S2
m 0d 00000000 1|line refused S3
m 0d 00000000 1 set 01|line refused S3
m 0d 00000000 1 cas 01|line refused S3
m 0g 0 9 set|line refused S4
m 0d 0 9 set|line refused S5
m 0d 00000000 9 xchg 0|line refused S6
m 0d 00000000 2 add 01|line refused S7
m 0d 00000000 1 cas 01 0203|line refused S7
";
