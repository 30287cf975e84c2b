//! The status of a report: whether every reply is a success.
ghost use Rattle.std.specs.Prelude.{◌≡◌};
ghost use Rattle.vme_report.specs.Reports.{board_status, report_status};

use crate::board::BoardReportRef;
use vme_shared::{LineReply, Status};

/// Returns `Marked` if a reply to any script is not a success, otherwise `Clean`.
#[tactic(auto, using(crate::proofs::Statuses::worse_assoc, crate::proofs::Statuses::worse_clean))]
pub(crate) fn status_of(boards: &[BoardReportRef<'_>]) -> Status
    ensures { result ≡ report_status boards.now }
{
    let mut status = Status::Clean;
    for board in boards {
        status = status.worse(board_status(board.lines));
    }
    status
}

/// Returns `Marked` if a reply to this script is not a success, otherwise `Clean`.
#[tactic(auto, using(crate::proofs::Statuses::worse_assoc, crate::proofs::Statuses::worse_clean))]
fn board_status(lines: &[(u16, LineReply)]) -> Status
    ensures { result ≡ board_status lines.now }
{
    let mut status = Status::Clean;
    for line in lines {
        status = status.worse(line.1.status());
    }
    status
}
