//! A text cut at its first line feed, and a line cut at its comment.
ghost use Rattle.std.specs.Prelude.{◌≡◌, MatchOption};
ghost use Rattle.vme_bus_log.specs.Texts.{without_comment, EndsNoLine, IsLineOf};

use memchr::memchr;

/// Returns the first line of a text and the text after its line feed, or `None` if the text has no
/// line feed.
#[tactic(auto, using(crate::proofs::Cutting::line_cut, crate::proofs::Cutting::no_line))]
pub fn cut_line(text: &[u8]) -> Option<(&[u8], &[u8])>
    ensures { MatchOption result (EndsNoLine text.now) (λ parts. IsLineOf text.now parts.0.now parts.1.now) }
{
    match memchr(b'\n', text) {
        Some(end) => Some((text.split_at(end).0, text.split_at(end + 1).1)),
        None => None,
    }
}

/// Returns a line without its comment.
#[tactic(auto, using(crate::proofs::Cutting::comment_cut, crate::proofs::Cutting::no_comment))]
pub(crate) fn without_comment(line: &[u8]) -> &[u8]
    ensures { result.now ≡ without_comment line.now }
{
    match memchr(b'#', line) {
        Some(end) => line.split_at(end).0,
        None => line,
    }
}
