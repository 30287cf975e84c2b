//! A use of `vme_grammar`.
ghost use Rattle.std.specs.Prelude.{◌≡◌, IfOk, IsTrue};

use std::alloc::AllocError;
use vme_grammar::{parse_line, print_line_refusal};

/// Returns whether a line requests something. Appends its refusal, if it has one, to `text`.
pub fn is_request(line: &[u8], text: &mut Vec<u8>) -> Result<bool, AllocError>
    ensures { IfOk result (λ is. IsTrue is → text.new.items ≡ text.old.items) }
{
    match parse_line(line) {
        Ok(parsed) => Ok(parsed.is_some()),
        Err(fault) => {
            print_line_refusal(text, fault)?;
            Ok(false)
        }
    }
}
