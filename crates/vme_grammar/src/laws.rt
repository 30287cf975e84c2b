//! Laws of the grammar as a whole. Each function's contract is a law; its body is empty.
ghost use Rattle.std.specs.Prelude.{◌≡◌, ℕ, ◌≤◌, ◌↔◌, List, length, Some, Ok};
ghost use Rattle.vme_grammar.specs.declared.line.Line.{Line};
ghost use Rattle.vme_lexer.specs.Words.{words_of};
ghost use Rattle.vme_grammar.specs.Grammar.{line_of, Spell, IsOwnLine};

/// States the grammar as a relation.
///
/// A text is read as `line` exactly if it has at most 80 bytes and its words spell `line`: they
/// fill the places of a form, one word a place. No line that is read commands the local port to do
/// a bus cycle.
pub fn lines_are_spelled()
    ensures spelled { (text : List ℕ) (line : Line) →
        (line_of text ≡ Ok (Some line)) ↔ ((length text ≤ 80) × Spell (words_of text) line) }
    ensures own { (text : List ℕ) (line : Line) → line_of text ≡ Ok (Some line) → IsOwnLine line }
{}
