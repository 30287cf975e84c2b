//! The output, gathered and written in large pieces.
ghost use Rattle.std.specs.Prelude.{◌≡◌, ◌++◌, [], if◌then◌else◌, false, length, map, flat_map, OnOk, OnErr, IfErr};
ghost use Rattle.std.specs.Io.KnownBytes.{Appends};
ghost use Rattle.vme_io.specs.Prefixes.{AppendsPrefix, GathersOrStops};
ghost use Rattle.vme_report.specs.Ends.{IsReportFault, is_write_end};
ghost use Rattle.vme_outcome_listing.specs.ListedTexts.{shown};
ghost use Rattle.vme_outcome_listing.specs.Outputs.{paragraph_text, ending_text, listing_text};

use crate::asked::{Form, Output};
use crate::listing::TextListing;
use crate::paragraph::Paragraph;
use crate::print::{append_paragraph, append_summary};
use std::alloc::{AllocError, Global};
use vme_io::{Sink, WRITE_SIZE, flush_if_full, write_all};
use vme_report::RunFault;

/// Writes the paragraphs, unless they are left out, the line of each condition, and the summary.
pub(crate) fn write_listing<W: Sink>(
    alloc: Global,
    output: Output,
    listing: &TextListing<'_>,
    states: usize,
    writer: &mut W,
) -> Result<(), RunFault>
    requires { W.is_marked writer.old ≡ false }
    ensures text { OnOk result (Appends (W.contents writer.old) (W.contents writer.new)
        (listing_text output listing.now.answers.items (map shown listing.now.paragraphs.items) states)) }
    ensures prefix { OnErr result (AppendsPrefix (W.contents writer.old) (W.contents writer.new)
        (listing_text output listing.now.answers.items (map shown listing.now.paragraphs.items) states)) }
    ensures write { W.is_marked writer.new ≡ is_write_end result }
    ensures faults { IfErr result IsReportFault }
{
    let mut text = Vec::with_capacity(alloc, WRITE_SIZE)?;
    let paragraphs = listing.paragraphs.as_slice();
    gather_paragraphs(
        output.form,
        unless_quiet(output.quiet, paragraphs),
        &mut text,
        writer,
    )?;
    append_ending(output, listing, states, &mut text)?;
    write_all(writer, text.as_slice())?;
    Ok(())
}

/// Appends the lines of the conditions, and the summary.
fn append_ending(
    output: Output,
    listing: &TextListing<'_>,
    states: usize,
    text: &mut Vec<u8>,
) -> Result<(), AllocError>
    ensures { OnOk result (text.new.items ≡ text.old.items
        ++ ending_text output listing.now.answers.items
        (map shown listing.now.paragraphs.items) states) }
{
    text.extend_from_slice(listing.answers.as_slice())?;
    append_summary(output.some, listing.paragraphs.as_slice(), states, text)
}

/// Returns the paragraphs to write.
fn unless_quiet<'a, 'b>(quiet: bool, paragraphs: &'b [Paragraph<'a>]) -> &'b [Paragraph<'a>]
    ensures { result.now ≡ (if quiet then [] else paragraphs.now) }
{
    if quiet { &[] } else { paragraphs }
}

/// Gathers paragraphs.
fn gather_paragraphs<W: Sink>(
    form: Form,
    paragraphs: &[Paragraph<'_>],
    text: &mut Vec<u8>,
    writer: &mut W,
) -> Result<(), RunFault>
    requires { W.is_marked writer.old ≡ false }
    ensures gathers { GathersOrStops result (W.contents writer.old) (W.contents writer.new)
        text.old.items text.new.items (flat_map (λ p. paragraph_text form (shown p)) paragraphs.now) }
    ensures write { W.is_marked writer.new ≡ is_write_end result }
    ensures faults { IfErr result IsReportFault }
{
    for paragraph in paragraphs {
        gather_paragraph(form, paragraph, text, writer)?;
    }
    Ok(())
}

/// Gathers a paragraph.
#[tactic(auto, using(vme_io::proofs::lemmas::Gathering::printed_gathers, vme_io::proofs::lemmas::Gathering::printed_prefix, vme_io::proofs::lemmas::Gathering::nothing_prefix))]
fn gather_paragraph<W: Sink>(
    form: Form,
    paragraph: &Paragraph<'_>,
    text: &mut Vec<u8>,
    writer: &mut W,
) -> Result<(), RunFault>
    requires { W.is_marked writer.old ≡ false }
    ensures gathers { GathersOrStops result (W.contents writer.old) (W.contents writer.new)
        text.old.items text.new.items (paragraph_text form (shown paragraph.now)) }
    ensures write { W.is_marked writer.new ≡ is_write_end result }
    ensures faults { IfErr result IsReportFault }
{
    append_paragraph(form, paragraph, text)?;
    flush_if_full(text, writer)?;
    Ok(())
}
