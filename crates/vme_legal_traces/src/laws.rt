//! Laws of the samples of our own traces. Each function's contract is a law; its body is empty.
ghost use Rattle.std.specs.Prelude.{◌≡◌, ◌≤◌, ℕ, List, Ok, IsTrue};
ghost use Rattle.vme_config_toml.specs.Files.{FileValues};
ghost use Rattle.vme_script.specs.Configurations.{Configuration, configuration_of};
ghost use Rattle.vme_script.specs.Lawful.{IsLawful};
ghost use Rattle.vme_protocol.specs.declared.sample.Sample.{Sample};
ghost use Rattle.vme_protocol.specs.declared.scope.Scope.{Scope};
ghost use Rattle.vme_protocol.specs.declared.rule.Rule.{Rule};
ghost use Rattle.vme_protocol.specs.declared.rule.Rule.TheVariants.{AddressChanges, CodeUnknown, DataChange, Grant, Timeout, Transfer, Undefined};
ghost use Rattle.vme_protocol.specs.declared.verdict.Verdict.TheVariants.{Legal};
ghost use Rattle.vme_protocol.specs.Verdicts.{verdict};
ghost use Rattle.vme_legal_traces.specs.Samples.{trace_samples};
ghost use Rattle.vme_legal_traces.specs.Kept.{keeps, strict_scope, is_control_rule, HasBoardsInOrder};

/// States that a trace that keeps each rule by itself is legal: the rules are those of the verdict.
pub fn traces_that_keep_each_rule_are_legal()
    ensures { (scope : Scope) (samples : List Sample) →
        ((rule : Rule) → IsTrue (keeps rule scope samples)) → verdict scope samples ≡ Legal }
{}

/// States that our own traces keep the rules of the control lines (IEEE 1014-1987, 2.4 and 3.2): the
/// samples of the trace of any turns of a lawful configuration break none of J3, J4, J6, J8 to J12 and
/// J14 in the strict mode. AS* falls only while BBSY* is low and outside a handshake, and rises after it;
/// data strobes, DTACK* and BERR* follow each other; one slot drives BBSY*.
pub fn our_traces_keep_the_rules_of_the_control_lines()
    ensures { (config : Configuration) (slots : List ℕ) (timeout : ℕ) (rule : Rule) → IsLawful config →
        IsTrue (is_control_rule rule) →
        IsTrue (keeps rule (strict_scope timeout) (trace_samples config slots)) }
{}

/// States that our own traces keep the rule of bus requests and grants, J15 (IEEE 1014-1987, 3.3), if the
/// boards stand in order of slots: a slot drives BBSY* only after its own BRn* and BGnIN* were low, and
/// the grant goes on to no higher slot; no grant begins while BBSY* is low.
pub fn our_traces_keep_the_rule_of_grants()
    ensures { (config : Configuration) (slots : List ℕ) (timeout : ℕ) → IsLawful config →
        HasBoardsInOrder config →
        IsTrue (keeps Grant (strict_scope timeout) (trace_samples config slots)) }
{}

/// States that our own traces keep the rule of the bus timer, J16 (IEEE 1014-1987, 2.3.3): an answer comes
/// at most ten units of time after the first data strobe has fallen. No event needs a lawful configuration
/// for that.
pub fn our_traces_keep_the_bus_timer()
    ensures { (config : Configuration) (slots : List ℕ) (timeout : ℕ) → 10 ≤ timeout →
        IsTrue (keeps Timeout (strict_scope timeout) (trace_samples config slots)) }
{}

/// States that our own traces keep the rule of codes, J2 (IEEE 1014-1987, 2.2.2): an answer ends only
/// cycles whose address modifier, as AS* fell, has a row in the table of codes.
pub fn our_traces_keep_the_rule_of_codes()
    ensures { (config : Configuration) (slots : List ℕ) (timeout : ℕ) → IsLawful config →
        IsTrue (keeps CodeUnknown (strict_scope timeout) (trace_samples config slots)) }
{}

/// States that our own traces keep the rule of the address, J5 (IEEE 1014-1987, 2.4): AM5 to AM0, the address lines
/// that count with the code, and LWORD* stand from the sample before AS* falls, while AS* is low; with eight-byte data
/// up to the first answer, since the lines then carry data.
pub fn our_traces_keep_the_rule_of_addresses()
    ensures { (config : Configuration) (slots : List ℕ) (timeout : ℕ) → IsLawful config →
        IsTrue (keeps AddressChanges (strict_scope timeout) (trace_samples config slots)) }
{}

/// States that our own traces keep the rule of data, J7 (IEEE 1014-1987, 2.4): WRITE* stands while a data
/// strobe is low, the data of a write stand from the sample before the first strobe falls to the answer,
/// and those of a read from the answer until a strobe rises.
pub fn our_traces_keep_the_rule_of_data()
    ensures { (config : Configuration) (slots : List ℕ) (timeout : ℕ) → IsLawful config →
        IsTrue (keeps DataChange (strict_scope timeout) (trace_samples config slots)) }
{}

/// States that our own traces keep the rule of transfers, J13 (IEEE 1014-1987, 2.2.1, 2.3.7, 2.3.8): the strobes, A01
/// and LWORD* select one of the ten byte locations; each datum of a block has the length, direction and unit of the
/// first, at a multiple of its length; only a read-modify-write has a second cycle, which writes what the first read;
/// and BERR* ends the transfer.
pub fn our_traces_keep_the_rule_of_transfers()
    ensures { (config : Configuration) (slots : List ℕ) (timeout : ℕ) → IsLawful config →
        IsTrue (keeps Transfer (strict_scope timeout) (trace_samples config slots)) }
{}

/// States that our own traces keep the rule of undefined lines, J1 (IEEE 1014-1987, 2.2): AM, the address lines that count
/// with the code, and LWORD* are driven as AS* falls, WRITE* as a data strobe falls, the data lines of a write from the
/// sample before the first strobe falls to the answer, and those of a read that DTACK* answers until a strobe rises.
pub fn our_traces_keep_the_rule_of_undefined_lines()
    ensures { (config : Configuration) (slots : List ℕ) (timeout : ℕ) → IsLawful config →
        IsTrue (keeps Undefined (strict_scope timeout) (trace_samples config slots)) }
{}

/// States that our own traces are legal: the verdict on the samples of the trace of any turns of a lawful configuration,
/// whose boards stand in order of slots, is `Legal` in the strict mode with a timeout of ten units of time or more.
pub fn our_traces_are_legal()
    ensures { (config : Configuration) (slots : List ℕ) (timeout : ℕ) → IsLawful config →
        HasBoardsInOrder config → 10 ≤ timeout →
        verdict (strict_scope timeout) (trace_samples config slots) ≡ Legal }
{}

/// States that the boards of each configuration that a file has stand in order of slots, as
/// `our_traces_keep_the_rule_of_grants` asks for.
pub fn boards_of_a_file_stand_in_order()
    ensures { (file : FileValues) (config : Configuration) → configuration_of file ≡ Ok config →
        HasBoardsInOrder config }
{}
