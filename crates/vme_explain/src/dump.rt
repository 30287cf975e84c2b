//! What the examples of `bendrika judge` share.

/// The boards of an example.
pub(crate) const BOARDS: &str = "\
    [[board]]\n\
    slot = 1\n\
    base = 0\n\
    size = 16\n\n\
    [[board]]\n\
    slot = 2\n\
    base = 0x1000\n\
    size = 16\n";

/// The header of a dump, and the samples up to the grant of the bus to slot 1.
pub(crate) const HEAD: &str = "\
    $var wire 1 S as_n $end\n\
    $var wire 1 U ds1_n $end\n\
    $var wire 1 V ds0_n $end\n\
    $var wire 1 D dtack_n $end\n\
    $var wire 1 B berr_n $end\n\
    $var wire 1 W write_n $end\n\
    $var wire 1 L lword_n $end\n\
    $var wire 6 M am [5:0] $end\n\
    $var wire 31 A a [31:1] $end\n\
    $var wire 32 d d [31:0] $end\n\
    $var wire 1 Y1 s1_bbsy_n $end\n\
    $var wire 1 Y2 s2_bbsy_n $end\n\
    $var wire 1 R1 s1_br_n $end\n\
    $var wire 1 R2 s2_br_n $end\n\
    $var wire 1 G1 s1_bg3in_n $end\n\
    $var wire 1 G2 s2_bg3in_n $end\n\
    $var wire 1 k s1_lp_ack $end\n\
    $var wire 1 w s1_lp_we $end\n\
    $var wire 32 o s1_lp_a [31:0] $end\n\
    $var wire 32 p s1_lp_d [31:0] $end\n\
    $enddefinitions $end\n\
    #0 1S 1U 1V 1D 1B 1W 0L b1001 M b0 A bz d 1Y1 1Y2 1R1 1R2 1G1 1G2 0k zw bz o bz p\n\
    #1 0R1\n\
    #2 0G1\n\
    #3 0Y1 1R1\n\
    #4 1G1\n";
