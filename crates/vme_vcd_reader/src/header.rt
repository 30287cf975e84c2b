//! The header of a dump, word by word.
ghost use Rattle.std.specs.Prelude.{◌≡◌, ◌∷◌, ◌++◌, [], List, false, ◌&&◌, IfOk, IfErr, OnOk};
ghost use Rattle.vme_vcd_reader.specs.Headers.{Heading, after_keyword, beginning, byte_read, end_read, fault_of, is_long, is_read, keyword_read, other_read, scope_ended, scope_opened, variable_ended, word_read};
ghost use Rattle.vme_vcd_reader.specs.declared.header.Progress.TheVariants as progresses;
ghost use Rattle.vme_vcd_reader.specs.Found.{IsMatching};
ghost use Rattle.vme_vcd_reader.specs.Mapping.{Declaration, declaration};
ghost use Rattle.vme_vcd_reader.specs.Headings.{IsHeading, Reads, ReadsByte};

use crate::fault::VcdFault;
use crate::identifier::{NO_IDENTIFIER, identifier_of};
use crate::matching::Matching;
use crate::variable::{Declared, named_variable, number};
use crate::word::{Word, is_blank};
use arrayvec::ArrayVec;
use std::alloc::{AllocError, Global};
use vme_line_map::LineMap;

/// The greatest number of open scopes.
const MOST_SCOPES: usize = 64;

/// What the next word of the header is.
#[derive(Clone, Copy, Debug, PartialEq, Eq)]
enum Next {
    /// A keyword.
    Keyword,
    /// Part of a command that is not read, up to `$end`.
    Skipped,
    ScopeKind,
    ScopeName,
    VariableKind,
    Size,
    Identifier,
    /// The name, its range, or `$end`.
    Name,
    /// The `$end` of the header.
    HeaderEnd,
}

/// The header as far as it is read.
#[derive(Drop)]
pub(crate) struct Header {
    word: Word,
    next: Next,
    /// The names of the open scopes, each with a dot behind it, and the length before each.
    path: Vec<u8>,
    lengths: ArrayVec<usize, MOST_SCOPES>,
    /// The number of scopes that were opened.
    scopes: u64,
    size: u16,
    identifier: u64,
    name: Word,
}

/// What a byte completes.
#[derive(Clone, Copy, Debug, PartialEq, Eq)]
pub(crate) enum Progress {
    /// Nothing.
    More,
    /// A variable, which `map_variable` maps.
    Variable,
    /// The header.
    Ended,
}

impl Next {
    /// Returns whether the word is read.
    fn is_read(self) -> bool
        ensures { result ≡ is_read self }
    {
        !matches!(self, Next::Skipped | Next::VariableKind)
    }
}

/// Returns what the word after a keyword is, but for `$upscope`.
fn after_keyword(word: &[u8]) -> Option<Next>
    ensures { result ≡ after_keyword word.now }
{
    if word == b"$scope".as_slice() {
        Some(Next::ScopeKind)
    } else if word == b"$var".as_slice() {
        Some(Next::VariableKind)
    } else if word == b"$enddefinitions".as_slice() {
        Some(Next::HeaderEnd)
    } else if word.first() == Some(&b'$') {
        Some(Next::Skipped)
    } else {
        None
    }
}

impl Header {
    /// Returns the header before its first byte.
    pub(crate) fn new(alloc: Global) -> Header
        ensures { IsHeading beginning result }
    {
        Header {
            word: Word::new(),
            next: Next::Keyword,
            path: Vec::new(alloc),
            lengths: ArrayVec::new(),
            scopes: 0,
            size: 0,
            identifier: 0,
            name: Word::new(),
        }
    }

    /// Takes a byte.
    pub(crate) fn push(&mut self, byte: u8) -> Result<Progress, VcdFault>
        ensures says { (h : Heading) → IsHeading h self.old →
            IfOk result (λ progress. ReadsByte (byte_read h byte) progress self.new) }
        ensures why { (h : Heading) → IsHeading h self.old → IfErr result (λ fault. fault ≡ fault_of (byte_read h byte)) }
        ensures name { IfOk result (λ progress. progress ≡ progresses.Variable → self.new.name.is_cut ≡ false) }
    {
        if !is_blank(byte) {
            self.word.push(byte);
            return Ok(Progress::More);
        }
        if self.word.is_empty() {
            return Ok(Progress::More);
        }
        let progress = self.take_word()?;
        self.word.clear();
        Ok(progress)
    }

    /// Takes a word.
    fn take_word(&mut self) -> Result<Progress, VcdFault>
        ensures says { (h : Heading) → IsHeading h self.old →
            IfOk result (λ progress. Reads (word_read h) progress self.new) }
        ensures why { (h : Heading) → IsHeading h self.old → IfErr result (λ fault. fault ≡ fault_of (word_read h)) }
        ensures name { IfOk result (λ progress. progress ≡ progresses.Variable → self.new.name.is_cut ≡ false) }
    {
        if self.word.is_cut() && self.next.is_read() {
            return Err(VcdFault::WordTooLong);
        }
        if self.word.bytes() == b"$end".as_slice() {
            return self.take_end();
        }
        self.take_other()
    }

    /// Takes `$end`.
    fn take_end(&mut self) -> Result<Progress, VcdFault>
        ensures says { (h : Heading) → IsHeading h self.old →
            IfOk result (λ progress. Reads (end_read h h.next) progress self.new) }
        ensures why { (h : Heading) → IsHeading h self.old → IfErr result (λ fault. fault ≡ fault_of (end_read h h.next)) }
        ensures name { IfOk result (λ progress. progress ≡ progresses.Variable → self.new.name.is_cut ≡ false) }
    {
        match self.next {
            Next::Keyword => self.next = Next::Skipped,
            Next::Skipped => self.next = Next::Keyword,
            Next::HeaderEnd => return Ok(Progress::Ended),
            Next::Name => return self.end_variable(),
            Next::ScopeKind
            | Next::ScopeName
            | Next::VariableKind
            | Next::Size
            | Next::Identifier => return Err(VcdFault::BadVariable),
        }
        Ok(Progress::More)
    }

    /// Takes a word other than `$end`.
    fn take_other(&mut self) -> Result<Progress, VcdFault>
        ensures says { (h : Heading) → IsHeading h self.old → (is_long h.word && is_read h.next) ≡ false →
            IfOk result (λ progress. Reads (other_read h h.next) progress self.new) }
        ensures why { (h : Heading) → IsHeading h self.old → (is_long h.word && is_read h.next) ≡ false →
            IfErr result (λ fault. fault ≡ fault_of (other_read h h.next)) }
        ensures name { IfOk result (λ progress. progress ≡ progresses.Variable → self.new.name.is_cut ≡ false) }
    {
        match self.next {
            Next::Keyword => return self.take_keyword(),
            Next::Skipped => {}
            Next::HeaderEnd => return Err(VcdFault::NoKeyword),
            Next::ScopeKind => self.next = Next::ScopeName,
            Next::ScopeName => return self.open_scope(),
            Next::VariableKind => self.next = Next::Size,
            Next::Size => {
                // A size that is no number below 65536 is that of no line.
                self.size = number(self.word.bytes()).unwrap_or(u16::MAX);
                self.next = Next::Identifier;
            }
            Next::Identifier => {
                self.identifier = identifier_of(self.word.bytes());
                self.name.clear();
                self.next = Next::Name;
            }
            Next::Name => self.name.append(self.word.bytes()),
        }
        Ok(Progress::More)
    }

    /// Takes a keyword.
    fn take_keyword(&mut self) -> Result<Progress, VcdFault>
        ensures says { (h : Heading) → IsHeading h self.old → is_long h.word ≡ false →
            IfOk result (λ progress. Reads (keyword_read h) progress self.new) }
        ensures why { (h : Heading) → IsHeading h self.old → is_long h.word ≡ false →
            IfErr result (λ fault. fault ≡ fault_of (keyword_read h)) }
        ensures name { IfOk result (λ progress. progress ≡ progresses.Variable → self.new.name.is_cut ≡ false) }
    {
        if self.word.bytes() == b"$upscope".as_slice() {
            return self.end_scope();
        }
        let Some(next) = after_keyword(self.word.bytes()) else {
            return Err(VcdFault::NoKeyword);
        };
        self.next = next;
        Ok(Progress::More)
    }

    /// Ends the innermost scope.
    fn end_scope(&mut self) -> Result<Progress, VcdFault>
        ensures says { (h : Heading) → IsHeading h self.old →
            IfOk result (λ progress. Reads (scope_ended h h.scopes) progress self.new) }
        ensures why { (h : Heading) → IsHeading h self.old → IfErr result (λ fault. fault ≡ fault_of (scope_ended h h.scopes)) }
        ensures name { IfOk result (λ progress. progress ≡ progresses.Variable → self.new.name.is_cut ≡ false) }
    {
        let Some(length) = self.lengths.pop() else {
            return Err(VcdFault::NoScope);
        };
        self.path.truncate(length);
        self.next = Next::Skipped;
        Ok(Progress::More)
    }

    /// Opens the scope that the word names.
    fn open_scope(&mut self) -> Result<Progress, VcdFault>
        ensures says { (h : Heading) → IsHeading h self.old → is_long h.word ≡ false →
            IfOk result (λ progress. Reads (scope_opened h) progress self.new) }
        ensures why { (h : Heading) → IsHeading h self.old → is_long h.word ≡ false →
            IfErr result (λ fault. fault ≡ fault_of (scope_opened h)) }
        ensures name { IfOk result (λ progress. progress ≡ progresses.Variable → self.new.name.is_cut ≡ false) }
    {
        if self.lengths.is_full() {
            return Err(VcdFault::ScopesTooDeep);
        }
        self.lengths.push(self.path.len());
        self.path.extend_from_slice(self.word.bytes())?;
        self.path.push(b'.')?;
        self.scopes = self.scopes.saturating_add(1);
        self.next = Next::Skipped;
        Ok(Progress::More)
    }

    /// Ends a variable.
    fn end_variable(&mut self) -> Result<Progress, VcdFault>
        ensures says { (h : Heading) → IsHeading h self.old →
            IfOk result (λ progress. Reads (variable_ended h) progress self.new) }
        ensures why { (h : Heading) → IsHeading h self.old → IfErr result (λ fault. fault ≡ fault_of (variable_ended h)) }
        ensures name { IfOk result (λ progress. progress ≡ progresses.Variable → self.new.name.is_cut ≡ false) }
    {
        if self.name.is_cut() {
            return Err(VcdFault::WordTooLong);
        }
        if self.name.is_empty() {
            return Err(VcdFault::BadVariable);
        }
        self.next = Next::Keyword;
        if self.identifier == NO_IDENTIFIER {
            return Ok(Progress::More);
        }
        Ok(Progress::Variable)
    }

    /// Takes the variable that was declared.
    pub(crate) fn map_variable(
        &mut self,
        map: &LineMap,
        matching: &mut Matching,
    ) -> Result<(), AllocError>
        ensures heading { (h : Heading) → IsHeading h self.old → OnOk result (IsHeading h self.new) }
        ensures matching { (h : Heading) (ds : List Declaration) → IsHeading h self.old → is_long h.name ≡ false →
            IsMatching map.now ds matching.old →
            OnOk result (IsMatching map.now (ds ++ declaration h ∷ []) matching.new) }
    {
        let named = named_variable(self.name.bytes());
        let length = self.path.len();
        self.path.extend_from_slice(named.0)?;
        let declared = Declared {
            path: self.path.as_slice(),
            scope: self.scopes,
            identifier: self.identifier,
            size: self.size,
            range: named.1,
        };
        let taken = matching.take(map, &declared);
        self.path.truncate(length);
        taken
    }
}
