//! The picture of a collected chain: a lane for its source, one for the other side of each zip, and one for what it gives.

use crate::mark::{Label, Note, Sign, Words};
use crate::picture::Picture;
use crate::script_words::items_of;
use flow_law::End;
use flow_script::Answer;
use serde_json::Value;
use std::alloc::{AllocError, Global};

/// The most items that are drawn of a lane.
const MOST_ITEMS: usize = 24;

/// The sign of a mark, and the words in it.
type Content<'a> = (Sign, Words<'a>);

/// The source of a chain.
#[derive(Clone, Copy)]
struct Source<'a> {
    /// The key that its items have.
    key: &'static str,
    items: &'a [Value],
}

impl<'a> Source<'a> {
    fn new(chain: &'a Value) -> Self {
        for key in ["of", "range", "script"] {
            if let Some(source) = chain.get("from")
                && source.get(key).is_some()
            {
                let items = items_of(source, key);
                return Source { key, items };
            }
        }
        Source {
            key: "",
            items: &[],
        }
    }

    /// Returns the mark at a column: an item, or the end after the last item. Of a range only the first and the last
    /// number are drawn.
    fn at(&self, column: usize) -> Content<'a> {
        let is_range = self.key == "range";
        if is_range && column == 1 {
            return (Sign::Told, Words::Text("to"));
        }
        let before = (is_range && column > 1) as usize;
        match self.items.get(column.saturating_sub(before)) {
            Some(Value::Number(number)) => {
                (Sign::Value, Words::Number(number.as_i64().unwrap_or(0)))
            }
            Some(Value::String(_)) => (Sign::Nothing, Words::None),
            Some(_) => (Sign::Refused, Words::Text("fault")),
            None => (Sign::Ends, Words::None),
        }
    }
}

/// What a chain gave: its items, and how it ended or why it could not be built.
#[derive(Clone, Copy)]
struct Given<'a> {
    items: &'a [i64],
    end: Content<'a>,
}

impl<'a> Given<'a> {
    /// Returns what a collection gave, by its answer and its line. The line has the items, and why the chain failed.
    fn new(answer: &'a Answer, line: &'a str) -> Self {
        let Answer::Collected(items, end) = answer else {
            return Given {
                items: &[],
                end: (Sign::Refused, Words::Text(line)),
            };
        };
        Given {
            items: items.as_slice(),
            end: match (end, line.split_once("] ")) {
                (End::Failed(_), Some((_, why))) => (Sign::Refused, Words::Text(why)),
                _ => (Sign::Ends, Words::None),
            },
        }
    }

    /// Returns the mark at a column: an item, or the end after the last item.
    fn at(&self, column: usize) -> Content<'a> {
        match self.items.get(column) {
            Some(item) => (Sign::Value, Words::Number(*item)),
            None => self.end,
        }
    }
}

/// Adds a lane for each source of a chain: its own one, and the other side of each zip. Returns the sources.
fn add_sources<'a>(
    alloc: Global,
    picture: &mut Picture<'a>,
    chain: &'a Value,
) -> Result<Vec<Source<'a>>, AllocError> {
    let source = Source::new(chain);
    let mut sources = Vec::new(alloc);
    sources.push(source)?;
    picture.add_lane(Label::of(source.key), None);
    for op in items_of(chain, "ops") {
        if let Some(other) = op.get("with") {
            sources.push(Source::new(other))?;
            picture.add_lane(Label::of("zip with"), None);
        }
    }
    Ok(sources)
}

/// Adds a mark to a lane that has not ended. After the last column of items, a lane that goes on gets two dots.
fn add_content<'a>(picture: &mut Picture<'a>, lane: usize, content: Content<'a>) {
    if !picture.is_open(lane) {
        return;
    }
    let column = picture.columns;
    let ends = matches!(content.0, Sign::Ends | Sign::Refused);
    let (sign, words) = if column == MOST_ITEMS && !ends {
        (Sign::Told, Words::Text(".."))
    } else {
        content
    };
    if ends {
        picture.end_lane(lane, column);
    }
    picture.add_mark(lane, sign, words, Note::None);
}

/// Adds the marks of a column, and returns whether a lane has not ended.
fn add_column<'a>(
    picture: &mut Picture<'a>,
    sources: &[Source<'a>],
    given: Given<'a>,
    column: usize,
) -> bool {
    let mut is_open = false;
    for (lane, source) in sources.iter().enumerate() {
        add_content(picture, lane, source.at(column));
        is_open = is_open || picture.is_open(lane);
    }
    add_content(picture, sources.len(), given.at(column));
    picture.columns = picture.columns.saturating_add(1);
    is_open || picture.is_open(sources.len())
}

/// Returns the picture of a collection, by the chain, its answer and its line. Each lane has at most 24 marks before its
/// end, or before two dots for the other items.
///
/// # Errors
/// `AllocError`: out of memory.
pub fn collection_picture<'a>(
    alloc: Global,
    chain: &'a Value,
    answer: &'a Answer,
    line: &'a str,
) -> Result<Picture<'a>, AllocError> {
    let mut picture = Picture::new(alloc);
    let sources = add_sources(alloc, &mut picture, chain)?;
    let given = Given::new(answer, line);
    picture.add_lane(Label::of("result"), None);
    for column in 0..MOST_ITEMS + 1 {
        if !add_column(&mut picture, sources.as_slice(), given, column) {
            break;
        }
    }
    picture.finish()
}
