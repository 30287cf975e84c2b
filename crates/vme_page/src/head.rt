//! The head of a page.

use std::alloc::{AllocError, Global};

/// The begin, up to the title.
static BEGIN: &[u8] = b"<!DOCTYPE html>
<html lang=\"en\">
<head>
<meta charset=\"utf-8\">
<meta name=\"viewport\" content=\"width=device-width\">
<title>";

/// The style.
static STYLE: &[u8] = b"</title>
<style>
:root {
  color-scheme: light dark;
  --ink: #1f2328; --dim: #59636e; --grid: #d8dee4; --page: #fff;
  --hold: #0969da; --on: #fff; --box: #ddf4ff; --bad: #cf222e;
}
@media (prefers-color-scheme: dark) {
  :root {
    --ink: #e6edf3; --dim: #9198a1; --grid: #30363d; --page: #0d1117;
    --hold: #1f6feb; --on: #fff; --box: #0c2d6b; --bad: #ff7b72;
  }
}
body { background: var(--page); color: var(--ink); font: 14px/1.5 sans-serif; margin: 24px auto; max-width: 1180px;
  padding: 0 12px; }
h1 { overflow-wrap: anywhere; }
.f { margin: 0 0 18px; overflow-x: auto; break-inside: avoid; }
svg { display: block; }
text { font: 12px ui-monospace, \"DejaVu Sans Mono\", monospace; fill: var(--ink); text-anchor: middle; }
path, rect { fill: none; stroke: var(--ink); stroke-width: 1.2; }
.n { text-anchor: end; font-family: sans-serif; }
.q { text-anchor: start; font-family: sans-serif; fill: var(--dim); }
.e { font-weight: bold; }
.w { fill: var(--dim); font-family: sans-serif; }
.o { fill: var(--on); }
.b { fill: var(--bad); font-weight: bold; }
.g { stroke: var(--grid); }
.z { stroke: var(--dim); stroke-dasharray: 2 3; }
.v { fill: var(--box); }
.h { fill: var(--hold); stroke: none; }
.r { fill: var(--page); stroke: var(--hold); }
.x { stroke: var(--bad); }
.t { display: grid; grid-template-columns: max-content 1fr; gap: 0 24px; overflow-x: auto; }
.t div, pre { font: 13px/1.5 ui-monospace, \"DejaVu Sans Mono\", monospace; margin: 0; white-space: pre; }
.t div { color: var(--dim); }
p { max-width: 90ch; }
</style>
</head>
<body>
<h1>";

/// What the diagrams mean.
static LEGEND: &[u8] = b"</h1>
<p>Timing on a VMEbus. Each column is an event of the run, in order; an event with two handshakes has two columns, and polls of
slots that wait for the bus are one column. Below the number of an event are the slot and the line of its script, which is shown
when the pointer rests on the column. The edges are in the order of the handshake of ANSI/IEEE Std 1014-1987; the distances mean
nothing. A frame shows that a slot requests the bus on the line that it names, a solid bar that it holds the bus; slots that do
neither in a strip are left out. Above a datum is the slot of the board that replies; in a block the number of the datum is before
it. A dotted line is one that nothing drives. Eight-byte data have their upper half on the address lines.</p>
";

/// Returns the head of a page, whose title is the last part of a path.
pub(crate) fn page_head(alloc: Global, path: &str) -> Result<Vec<u8>, AllocError> {
    let mut title = Vec::new(alloc);
    print_title(&mut title, path.as_bytes())?;
    let mut text = Vec::new(alloc);
    text.extend_from_slice(BEGIN)?;
    text.extend_from_slice(title.as_slice())?;
    text.extend_from_slice(STYLE)?;
    text.extend_from_slice(title.as_slice())?;
    text.extend_from_slice(LEGEND)?;
    Ok(text)
}

/// Replaces a title by the last part of a path, as HTML.
fn print_title(title: &mut Vec<u8>, path: &[u8]) -> Result<(), AllocError> {
    for byte in path {
        if *byte == b'/' {
            title.clear();
        } else {
            print_character(title, *byte)?;
        }
    }
    Ok(())
}

/// Appends a byte of a text as HTML.
fn print_character(text: &mut Vec<u8>, byte: u8) -> Result<(), AllocError> {
    match byte {
        b'&' => text.extend_from_slice(b"&amp;"),
        b'<' => text.extend_from_slice(b"&lt;"),
        b'>' => text.extend_from_slice(b"&gt;"),
        _ => text.extend_from_slice(&[byte]),
    }
}
