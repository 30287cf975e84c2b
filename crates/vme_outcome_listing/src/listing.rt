//! The texts of all outcomes, in ascending order, and the answers to the conditions.
ghost use Rattle.std.specs.Prelude.{◌≡◌, ◌++◌, IfOk, OnOk, is_none, flat_map, map, option_map};
ghost use Rattle.vme_outcome_listing.specs.ListedTexts.{IsTextListing, shown, text_of, listed_of};
ghost use Rattle.vme_outcome_listing.specs.Conditions.{first_breaking, all_hold, condition_text};
ghost use Rattle.vme_outcome_listing.specs.Looks.{HasEachFor};
ghost use Rattle.vme_outcome_listing.specs.EngineTexts.{AreAnswers};

use crate::claim::Claim;
use crate::kept::{Kept, append_listed};
use crate::paragraph::Paragraph;
use std::alloc::{AllocError, Global};
use vme_script::Config;
use vme_states::ListedOutcome;

/// The texts of all outcomes of a configuration, and the answers to conditions.
#[derive(Drop)]
pub(crate) struct TextListing<'a> {
    /// The text of each outcome, in ascending order.
    pub(crate) paragraphs: Vec<Paragraph<'a>>,
    /// The line of each condition.
    pub(crate) answers: Vec<u8>,
    /// Whether each condition holds.
    pub(crate) holds: bool,
}

/// Returns the text of each outcome once, and the answers to conditions.
pub(crate) fn list_texts<'a>(
    alloc: Global,
    config: &Config,
    kept: Option<&Kept>,
    claims: &[Claim<'_>],
    outcomes: &'a [ListedOutcome],
) -> Result<TextListing<'a>, AllocError>
    requires { HasEachFor (option_map (λ k. k.now) kept) config.now claims.now outcomes.now }
    ensures texts { IfOk result (λ listing.
        IsTextListing config.now (option_map (λ k. k.now) kept.entry)
        (map shown listing.paragraphs.items)) }
    ensures answers { IfOk result (λ listing.
        AreAnswers (option_map (λ k. k.now) kept.entry) config.now claims.now
        listing.answers.items listing.holds) }
{
    let mut paragraphs = paragraphs_of(alloc, config, kept, outcomes)?;
    paragraphs.sort()?;
    let mut answers = Vec::new(alloc);
    let holds = append_answers(alloc, claims, paragraphs.as_slice(), &mut answers)?;
    paragraphs.dedup();
    Ok(TextListing {
        paragraphs,
        answers,
        holds,
    })
}

/// Returns the texts of these outcomes, in the same order.
fn paragraphs_of<'a>(
    alloc: Global,
    config: &Config,
    kept: Option<&Kept>,
    outcomes: &'a [ListedOutcome],
) -> Result<Vec<Paragraph<'a>>, AllocError>
    ensures texts { IfOk result (λ paragraphs. map shown paragraphs.items
        ≡ map (text_of config.now (option_map (λ k. k.now) kept.entry)) outcomes.now) }
    ensures outcomes { IfOk result (λ paragraphs. map listed_of paragraphs.items ≡ outcomes.now) }
{
    let mut paragraphs = Vec::with_capacity(alloc, outcomes.len())?;
    for outcome in outcomes {
        paragraphs.push(paragraph_of(alloc, config, kept, outcome)?)?;
    }
    Ok(paragraphs)
}

/// Returns the text of an outcome.
fn paragraph_of<'a>(
    alloc: Global,
    config: &Config,
    kept: Option<&Kept>,
    outcome: &'a ListedOutcome,
) -> Result<Paragraph<'a>, AllocError>
    ensures text { IfOk result (λ paragraph. shown paragraph
        ≡ text_of config.now (option_map (λ k. k.now) kept.entry) outcome.now) }
    ensures outcome { IfOk result (λ paragraph. listed_of paragraph ≡ outcome.now) }
{
    let mut text = Vec::new(alloc);
    append_listed(alloc, config, kept, outcome.state(), &mut text)?;
    Ok(Paragraph { text, outcome })
}

/// Appends the line of each condition. Returns whether each of them holds.
fn append_answers(
    alloc: Global,
    claims: &[Claim<'_>],
    paragraphs: &[Paragraph<'_>],
    text: &mut Vec<u8>,
) -> Result<bool, AllocError>
    ensures text { OnOk result (text.new.items ≡ text.old.items
        ++ flat_map (condition_text (map listed_of paragraphs.now)) claims.now) }
    ensures holds { IfOk result (λ holds.
        holds ≡ all_hold claims.now (map listed_of paragraphs.now)) }
{
    let mut all_hold = true;
    for claim in claims {
        let holds = append_answer(alloc, claim, paragraphs, text)?;
        all_hold = all_hold && holds;
    }
    Ok(all_hold)
}

/// Appends the line of a condition. Returns whether it holds.
#[tactic(auto, unfolding(crate::specs::Conditions::condition_text))]
fn append_answer(
    alloc: Global,
    claim: &Claim<'_>,
    paragraphs: &[Paragraph<'_>],
    text: &mut Vec<u8>,
) -> Result<bool, AllocError>
    ensures text { OnOk result (text.new.items ≡ text.old.items
        ++ condition_text (map listed_of paragraphs.now) claim.now) }
    ensures holds { IfOk result (λ holds. holds
        ≡ is_none (first_breaking claim.now (map listed_of paragraphs.now))) }
{
    let breaking = claim.first_breaking(alloc, paragraphs)?;
    claim.condition.append(breaking, text)?;
    Ok(breaking.is_none())
}
