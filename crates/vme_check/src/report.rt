//! The report of an input: the text of each finding, in the order of the file, and a tail.
mod context;
mod excerpt;
mod form;
mod json;
mod located;
mod plain;
mod print;

use crate::report::json::write_json;
use crate::report::plain::write_plain;
pub(crate) use context::Context;
pub(crate) use form::push_count;
pub use form::{Counts, Form, summary};
pub(crate) use located::{Input, Located};
pub(crate) use print::{print_file, print_lines};
use std::alloc::{AllocError, Global};
use std::fmt::Write;
use vme_explain::write_escaped;
use vme_positions::Cursor;
use vme_script::ConfigFault;

/// The report of an input: how its findings and the lines after them are printed.
#[derive(Drop)]
pub(crate) struct Report<'a> {
    alloc: Global,
    name: &'a str,
    /// The name as text shows it.
    shown_name: String,
    input: Input<'a>,
    cursor: Cursor<'a>,
    form: Form,
}

impl<'a> Report<'a> {
    /// The report of an input with this name.
    ///
    /// # Errors
    ///
    /// An allocation failed.
    pub(crate) fn new(
        alloc: Global,
        name: &'a str,
        input: Input<'a>,
        form: &Form,
    ) -> Result<Report<'a>, AllocError> {
        Ok(Report {
            alloc,
            name,
            shown_name: shown_name(alloc, name)?,
            input,
            cursor: Cursor::new(input.text),
            form: *form,
        })
    }

    /// Returns a finding as it is printed.
    ///
    /// # Errors
    ///
    /// An allocation failed.
    pub(crate) fn finding(&mut self, one: &Located) -> Result<String, AllocError> {
        let mut to = String::new(self.alloc);
        if self.form.json {
            write_json(
                self.alloc,
                self.name,
                &self.input,
                &mut self.cursor,
                one,
                &mut to,
            )?;
        } else {
            let name = self.shown_name.as_str();
            write_plain(
                self.alloc,
                name,
                &self.input,
                &mut self.cursor,
                one,
                &mut to,
            )?;
        }
        Ok(to)
    }

    /// Returns the text after the findings: as text, how many findings were left out, and the
    /// refusal; as JSON, the counts and the refusal.
    ///
    /// # Errors
    ///
    /// An allocation failed.
    pub(crate) fn tail(
        &self,
        counts: Counts,
        refusal: Option<ConfigFault>,
    ) -> Result<String, AllocError> {
        let mut to = String::new(self.alloc);
        if self.form.json {
            self.write_json_tail(counts, refusal, &mut to)?;
            return Ok(to);
        }
        let name = self.shown_name.as_str();
        let left_out = self.form.left_out(counts);
        match left_out {
            0 => {}
            1 => write!(to, "{name}: 1 more finding\n")?,
            _ => write!(to, "{name}: {left_out} more findings\n")?,
        }
        if let Some(refusal) = refusal {
            write!(to, "{name}: vme answers {refusal}\n")?;
        }
        Ok(to)
    }

    fn write_json_tail(
        &self,
        counts: Counts,
        refusal: Option<ConfigFault>,
        to: &mut String,
    ) -> Result<(), AllocError> {
        to.push_str("{\"file\":\"")?;
        write_escaped(self.name, to)?;
        let errors = counts.errors;
        write!(to, "\",\"errors\":{errors}")?;
        if !self.form.no_warnings {
            let warnings = counts.warnings;
            write!(to, ",\"warnings\":{warnings}")?;
        }
        if let Some(refusal) = refusal {
            write!(to, ",\"refusal\":\"{refusal}\"")?;
        }
        to.push_str("}\n")
    }
}

/// Returns the JSON object of an input that cannot be read, with the reason, as one line.
///
/// # Errors
///
/// An allocation failed.
pub fn unread(alloc: Global, name: &str, why: &str) -> Result<String, AllocError> {
    let mut to = String::new(alloc);
    to.push_str("{\"file\":\"")?;
    write_escaped(name, &mut to)?;
    to.push_str("\",\"fault\":\"")?;
    write_escaped(why, &mut to)?;
    to.push_str("\"}\n")?;
    Ok(to)
}

/// Returns a name or a word with each ASCII control character as `\xHH`.
///
/// # Errors
///
/// An allocation failed.
pub fn shown_name(alloc: Global, name: &str) -> Result<String, AllocError> {
    let mut shown = String::new(alloc);
    for c in name.chars() {
        if c.is_ascii_control() {
            let code = u32::from(c);
            write!(shown, "\\x{code:02x}")?;
        } else {
            shown.push(c)?;
        }
    }
    Ok(shown)
}
