//! The steps of a script, each with the line that it writes.
ghost use Rattle.std.specs.Prelude.{OnOk, string_bytes};
ghost use Rattle.script_drawing.specs.Listing.{AddsLast, AddsLines, told};

use crate::form::Form;
use crate::json::json_before;
use crate::page::Page;
use crate::played::Played;
use crate::script_words::add_step;
use std::alloc::{AllocError, Global};

/// Returns the text before the line at a place: the end of the line before it, with the rule behind that if the form
/// shows rules, and the step that wrote the line, in words.
fn words_before(
    alloc: Global,
    played: Played<'_>,
    place: usize,
    form: Form,
) -> Result<String, AllocError> {
    let mut page = Page::new(alloc);
    if let Some(before) = place.checked_sub(1) {
        if let (Form::Explained, Some(one)) = (form, played.step_of_line(before))
            && !one.rule.is_empty()
        {
            write!(page, "  -- {}", one.rule);
        }
        page.push_str("\n");
    }
    if let Some(one) = played.step_of_line(place) {
        write!(page, "{:>5}  ", one.number);
        add_step(&mut page, one.step);
        page.push_str(": ");
    }
    page.finish()
}

/// Adds a line of the script, after the words before it.
fn add_entry(listing: &mut String, words: &str, line: &str) -> Result<(), AllocError>
    ensures { OnOk result
        (AddsLast line.now (string_bytes listing.old) (string_bytes listing.new)) }
{
    listing.push_str(words)?;
    listing.push_str(line)
}

/// Adds the lines of a script, each with the step that wrote it, and its rule, if the form shows rules: as a list for
/// people, or as entries in JSON.
pub fn add_listing(
    alloc: Global,
    listing: &mut String,
    played: Played<'_>,
    form: Form,
) -> Result<(), AllocError>
    ensures { OnOk result (AddsLines (told played.entry.lines.now)
        (string_bytes listing.old) (string_bytes listing.new)) }
{
    let lines = played.lines;
    for (place, line) in lines.iter().enumerate() {
        let words = match form {
            Form::Json | Form::JsonWithPicture(_) => json_before(alloc, played, place)?,
            _ => words_before(alloc, played, place, form)?,
        };
        add_entry(listing, words.as_str(), line)?;
    }
    Ok(())
}
