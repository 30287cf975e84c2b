ghost use Rattle.std.specs.Prelude.{◌≡◌};
ghost use Rattle.vme_protocol.specs.Rules.{code, section, text};

/// A rule of a trace, J1 to J24.
#[derive(Clone, Copy, Debug, PartialEq, Eq)]
pub enum Rule {
    /// J1: a line is undefined that has to be defined.
    Undefined,
    /// J2: the code is reserved or user-defined.
    CodeUnknown,
    /// J3: AS* falls while BBSY* is high, or within a handshake.
    AddressStrobeFalls,
    /// J4: AS* rises between a strobe and its answer.
    AddressStrobeRises,
    /// J5: AM, the address or LWORD* change as AS* falls, or under it.
    AddressChanges,
    /// J6: a data strobe is low while AS* is high.
    LoneStrobe,
    /// J7: WRITE* or data change.
    DataChange,
    /// J8: an answer falls while no strobe is low.
    AnswerAlone,
    /// J9: a strobe falls while the last answer is low.
    StrobeUnderAnswer,
    /// J10: a strobe rises before the answer, or falls under it.
    StrobeRises,
    /// J11: both answers are low.
    TwoAnswers,
    /// J12: the answer rises while a strobe is low.
    AnswerRises,
    /// J13: a datum may not come in its transfer.
    Transfer,
    /// J14: two slots drive BBSY*, or it is not the level that the slots drive.
    TwoHolders,
    /// J15: a grant and its taking are out of order.
    Grant,
    /// J16: no answer comes in time.
    Timeout,
    /// J17: a local port answers with an undefined offset, direction or byte.
    PortUndefined,
    /// J21: BERR*, where a board answers.
    BusError,
    /// J22: DTACK*, where no board answers.
    NoBoard,
    /// J23: the bytes found are not those of the memory.
    WrongBytes,
    /// J24: a local write between the halves of a read-modify-write.
    TornModify,
}

impl Rule {
    /// Returns the number of the rule.
    pub fn code(self) -> u8
        ensures { result ≡ code self }
    {
        match self {
            Rule::Undefined => 1,
            Rule::CodeUnknown => 2,
            Rule::AddressStrobeFalls => 3,
            Rule::AddressStrobeRises => 4,
            Rule::AddressChanges => 5,
            Rule::LoneStrobe => 6,
            Rule::DataChange => 7,
            Rule::AnswerAlone => 8,
            Rule::StrobeUnderAnswer => 9,
            Rule::StrobeRises => 10,
            Rule::TwoAnswers => 11,
            Rule::AnswerRises => 12,
            Rule::Transfer => 13,
            Rule::TwoHolders => 14,
            Rule::Grant => 15,
            Rule::Timeout => 16,
            Rule::PortUndefined => 17,
            Rule::BusError => 21,
            Rule::NoBoard => 22,
            Rule::WrongBytes => 23,
            Rule::TornModify => 24,
        }
    }

    /// Returns the section of the standard that has the rule; none for that of local ports.
    pub fn section(self) -> &'static str
        ensures { result.now ≡ section self }
    {
        match self {
            Rule::Undefined => "2.2",
            Rule::CodeUnknown => "2.2.2",
            Rule::AddressStrobeFalls => "3.2, 2.4",
            Rule::AddressStrobeRises
            | Rule::AddressChanges
            | Rule::LoneStrobe
            | Rule::DataChange
            | Rule::AnswerAlone
            | Rule::StrobeUnderAnswer
            | Rule::StrobeRises
            | Rule::TwoAnswers
            | Rule::AnswerRises => "2.4",
            Rule::Transfer => "2.2.1, 2.3.7, 2.3.8",
            Rule::TwoHolders => "3.2",
            Rule::Grant => "3.3",
            Rule::Timeout => "2.3.3",
            Rule::PortUndefined => "",
            Rule::BusError | Rule::WrongBytes => "2.3.6",
            Rule::NoBoard => "2.3.3, 2.3.6",
            Rule::TornModify => "2.3.8",
        }
    }

    /// Returns what breaks the rule, in words.
    pub fn text(self) -> &'static str
        ensures { result.now ≡ text self }
    {
        match self {
            Rule::Undefined => "a line is undefined",
            Rule::CodeUnknown => "the address modifier code is reserved or user-defined",
            Rule::AddressStrobeFalls => "AS* falls while the bus is free or within a handshake",
            Rule::AddressStrobeRises => "AS* rises before the end of a handshake",
            Rule::AddressChanges => "the address changes under AS*",
            Rule::LoneStrobe => "a data strobe is low without AS*",
            Rule::DataChange => "WRITE* or data change under a strobe",
            Rule::AnswerAlone => "an answer falls while no data strobe is low",
            Rule::StrobeUnderAnswer => "a data strobe falls while the last answer is low",
            Rule::StrobeRises => "a data strobe rises before the answer or falls under it",
            Rule::TwoAnswers => "DTACK* and BERR* are low at once",
            Rule::AnswerRises => "the answer rises while a data strobe is low",
            Rule::Transfer => "the datum may not come in its transfer",
            Rule::TwoHolders =>
                "two slots drive BBSY*, or it has another level than the slots drive",
            Rule::Grant => "a grant and its taking are out of order",
            Rule::Timeout => "no answer comes in time",
            Rule::PortUndefined => "a local port answers with an undefined line",
            Rule::BusError => "BERR* answers, where a board answers this cycle",
            Rule::NoBoard => "DTACK* answers, where no board answers this cycle",
            Rule::WrongBytes => "a read finds other bytes than the memory has",
            Rule::TornModify => "a local write comes between the halves of a read-modify-write",
        }
    }
}
