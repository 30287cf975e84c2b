//! What each rule expects.
ghost use Rattle.std.specs.Prelude.{◌≡◌};
ghost use Rattle.vme_judge.specs.Expected.{expected};

use vme_protocol::Rule;

/// Returns what is expected where a rule is broken.
pub(crate) fn expected(rule: Rule) -> &'static str
    ensures { result.now ≡ expected rule }
{
    match rule {
        Rule::Undefined => "0 or 1, where the level counts",
        Rule::CodeUnknown => "a code of the address modifier table",
        Rule::AddressStrobeFalls => "BBSY* low, and no strobe or answer low before",
        Rule::AddressStrobeRises =>
            "AS* low until the strobes are answered; with --strict, until both are high",
        Rule::AddressChanges => "stands until the answer; with --strict, until AS* rises",
        Rule::LoneStrobe => "data strobes low under AS* alone",
        Rule::DataChange => "WRITE* and write data stand from before the strobe to the answer",
        Rule::AnswerAlone => "an answer to a data strobe",
        Rule::StrobeUnderAnswer => "strobes that fall after the last answer has risen",
        Rule::StrobeRises => "each strobe falls before the answer and rises after it",
        Rule::TwoAnswers => "one answer: DTACK* or BERR*",
        Rule::AnswerRises => "the answer low until both strobes are high",
        Rule::Transfer =>
            "a byte location of the table; in a block the next datum; else one read and one write of it",
        Rule::TwoHolders => "one slot holds the bus",
        Rule::Grant => "BBSY* low after a request and a grant; a grant while BBSY* is high",
        Rule::Timeout => "an answer within the time that --timeout gives",
        Rule::PortUndefined => "an offset, a direction and bytes of a local access",
        Rule::BusError => "DTACK*",
        Rule::NoBoard => "BERR*",
        Rule::WrongBytes => "the bytes of the memory",
        Rule::TornModify => "no access between the halves of a read-modify-write",
    }
}
