//! Two processors that wait for each other, at a gate and by their scripts.
use crate::runs::{Meeting, configured, replies_of, report_of};
use std::process::Abort;
use std::sync::atomic::Ordering;
use std::test::Fail;

/// Each processor writes a byte that the other waits for.
pub(crate) static TWO_BOARDS: &str = "tries = 1000000
[[board]]
slot = 1
base = 0
size = 16
script = \"\"\"
w 09 00000000 01
await 09 00000001 01
\"\"\"
[[board]]
slot = 2
base = 0x1000
size = 16
script = \"\"\"
await 09 00000000 01
w 09 00000001 01
\"\"\"
";

/// The replies to both scripts.
pub(crate) static REPLIES: &str = "1:1 done
1:2 met
2:1 met
2:2 done
";

#[test]
fn two_gates_meet(rt: HostRuntime) -> Result<(), Fail> {
    let config = configured(&rt, rt.alloc(), TWO_BOARDS);
    let gate = Meeting::new();
    let report = report_of(&rt, rt.alloc(), &config, &gate);
    assert!(&rt; !gate.missed.load(Ordering::SeqCst));
    let text = replies_of(rt.alloc(), &report)?;
    assert_eq!(&rt; text.as_slice(), REPLIES.as_bytes());
    Ok(())
}
