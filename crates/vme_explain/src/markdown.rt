//! A text as a row of a table in Markdown.
use crate::entry::Text;
use std::alloc::AllocError;
use std::fmt::Write;

/// Appends the head of the table and the line under it.
///
/// # Errors
///
/// An allocation failed.
pub(crate) fn write_head(to: &mut String) -> Result<(), AllocError> {
    to.push_str(
        "| Code | Meaning | Cause and rule | What to do | Example |\n|---|---|---|---|---|\n",
    )
}

/// Appends a text as a row.
///
/// # Errors
///
/// An allocation failed.
pub(crate) fn write_row(text: &Text, to: &mut String) -> Result<(), AllocError> {
    let code = text.code;
    let title = text.title;
    let cause = text.cause;
    write!(to, "| `{code}`")?;
    for other in text.others {
        write!(to, ", `{other}`")?;
    }
    write!(to, " | {title} | {cause}")?;
    if !text.sections.is_empty() {
        let sections = text.sections;
        write!(to, " IEEE 1014-1987, {sections}.")?;
    }
    let help = text.help;
    write!(to, " | {help} |")?;
    if let Some(example) = &text.example {
        let brief = example.brief;
        write!(to, " `{brief}` |\n")
    } else {
        to.push_str(" |\n")
    }
}
