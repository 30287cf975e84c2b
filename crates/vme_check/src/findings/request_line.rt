//! The finding of a request line: its refusal by `vme cycles`, or a warning.
ghost use Rattle.std.specs.Prelude.{◌≡◌, true, false, Some, is_some, is_none, Ok, IfSome};
ghost use Rattle.std.specs.Option.{option_and_then, option_map_or};
ghost use Rattle.vme_cycle.specs.Lawful.{first_refusal};
ghost use Rattle.vme_engines.specs.Lines.{request_of};
ghost use Rattle.vme_faults.specs.Causes.{line_fault};
ghost use Rattle.vme_faults.specs.Severities.{is_warning};
ghost use Rattle.vme_positions.specs.declared.place.Place.TheVariants as places;
ghost use Rattle.vme_check.specs.Requests.{refusal_by, request_refusal, misses_board, is_warned, IsOnLine};

use vme_am::Space;
use vme_cycle::{CycleFault, Plan, Request};
use vme_engines::{BOARD_SIZE, request_of};
use vme_faults::{
    Cause, Finding, LineCause, LineForm, LocatedCause, WordSpan, cause_of, faulty_word, form_of,
    request_cause, span_of,
};
use vme_grammar::LineFault;
use vme_positions::Place;

/// Why `vme cycles` refuses a line.
#[derive(Clone, Copy, Debug, PartialEq, Eq)]
pub enum RequestRefusal {
    /// S1 to S7: the line is not a request.
    Line(LineFault),
    /// K1 to K9: no cycles carry out the request.
    Cycle(CycleFault),
}

/// Returns the finding of a line of `vme cycles`, if there is one: its refusal, or the warning that
/// its code or address does not select the board. A lawful line has no finding, or a warning; a
/// refused line has an error. The place is `Place::Word` of board 0, with this number of the line.
pub fn request_finding(line: &[u8], number: usize) -> Option<Finding>
    ensures refusal { option_and_then (λ finding. refusal_by finding.cause) result
        ≡ request_refusal (request_of line.now) }
    ensures severity { option_map_or is_warning result true
        ≡ is_none (request_refusal (request_of line.now)) }
    ensures warned { option_map_or is_warning result false ≡ is_warned (request_of line.now) }
    ensures place { IfSome result (λ finding. IsOnLine number finding.place) }
{
    match request_of(line) {
        Ok(Some(request)) => cycle_finding(line, number, &request),
        Ok(None) => None,
        Err(fault) => {
            let located = line_cause(line, fault);
            Some(finding_at(number, located.span, Cause::RequestLine(located.cause)))
        }
    }
}

/// A finding at the bytes of a line.
fn finding_at(number: usize, span: WordSpan, cause: Cause) -> Finding
    ensures cause { result.cause ≡ cause }
    ensures place { result.place ≡ places.Word 0 number span.from span.to }
{
    Finding {
        cause,
        place: Place::Word {
            board: 0,
            line: number,
            from: span.from,
            to: span.to,
        },
    }
}

/// The cause of a request line's refusal. A command of scripts is named as one.
fn line_cause(line: &[u8], fault: LineFault) -> LocatedCause
    ensures { line_fault result.cause ≡ Some fault }
{
    match fault {
        LineFault::UnknownWord => unknown_word(line),
        _ => cause_of(line, fault),
    }
}

/// The cause of an unknown word.
fn unknown_word(line: &[u8]) -> LocatedCause
    ensures { line_fault result.cause ≡ Some LineFault.UnknownWord }
{
    match form_of(line) {
        Some(form) if !is_request(form) => LocatedCause {
            cause: LineCause::ScriptCommand { form },
            span: span_of(line, 0),
        },
        _ => cause_of(line, LineFault::UnknownWord),
    }
}

/// Whether `vme cycles` has lines of a form.
fn is_request(form: LineForm) -> bool {
    matches!(
        form,
        LineForm::Read
            | LineForm::Write
            | LineForm::BlockRead
            | LineForm::BlockWrite
            | LineForm::BlockFill
            | LineForm::Modify
            | LineForm::ModifySet
            | LineForm::ModifyExchange
            | LineForm::ModifyAdd
            | LineForm::ModifyCompare
    )
}

/// The finding of a request: its refusal, or that its code or address does not select the board.
fn cycle_finding(line: &[u8], number: usize, request: &Request) -> Option<Finding>
    ensures refusal { option_and_then (λ finding. refusal_by finding.cause) result
        ≡ request_refusal (Ok (Some request.now)) }
    ensures severity { option_map_or is_warning result true
        ≡ is_none (request_refusal (Ok (Some request.now))) }
    ensures warned { option_map_or is_warning result false ≡ is_warned (Ok (Some request.now)) }
    ensures place { IfSome result (λ finding. IsOnLine number finding.place) }
{
    match Plan::of(request) {
        Ok(plan) => {
            let word = missing_word(&plan)?;
            Some(finding_at(number, span_of(line, word), Cause::RequestBoard))
        }
        Err(fault) => {
            let cause = request_cause(request, fault);
            let span = span_of(line, faulty_word(cause));
            Some(finding_at(number, span, Cause::RequestCycle(cause)))
        }
    }
}

/// The number of the word of a lawful line that does not select the board: its code or its address.
fn missing_word(plan: &Plan<'_>) -> Option<usize>
    ensures { is_some result ≡ misses_board (Ok plan.now) }
{
    match plan.am().space() {
        Space::A32 if plan.addr() < BOARD_SIZE => None,
        Space::A32 => Some(2),
        _ => Some(1),
    }
}
