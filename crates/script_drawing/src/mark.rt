//! The marks of a picture: what they mean, what is written in them, and how text shows them.

use std::fmt;

/// What a mark means.
#[derive(Clone, Copy, PartialEq, Eq)]
pub enum Sign {
    /// The flow took the value, or a subscriber received it.
    Value,
    /// The emitter of the value waits.
    Waits,
    /// The flow did not take the value, its emission was cancelled, or a subscriber lost it.
    Lost,
    /// There was nothing to receive or to end.
    Nothing,
    /// The subscriber has subscribed.
    Begins,
    /// The subscriber has unsubscribed, or the list of items has ended.
    Ends,
    /// The script has ended, and a subscriber has yet to receive values.
    Over,
    /// What the flow answered.
    Told,
    /// The step was refused, or its chain failed.
    Refused,
}

/// A text that is cut to at most this many characters.
#[derive(Clone, Copy)]
pub struct Cut<'a>(&'a str, usize);

impl fmt::Display for Cut<'_> {
    fn fmt<W: fmt::Write>(&self, f: &mut fmt::Formatter<W>) -> fmt::Result {
        let Cut(text, most) = *self;
        match text.get(..most.saturating_sub(2)) {
            Some(short) if text.len() > most => write!(f, "{short}.."),
            _ => write!(f, "{text}"),
        }
    }
}

/// Values that one step let in: the first three of them, and how many there are.
#[derive(Clone, Copy)]
pub struct Admitted {
    pub first: [i64; 3],
    pub count: usize,
}

impl Admitted {
    pub fn push(&mut self, value: i64) {
        if self.count < 3 {
            self.first[self.count] = value;
        }
        self.count = self.count.saturating_add(1);
    }

    /// Returns the words of a mark with these values, if there are any.
    pub fn words(self) -> Option<Words<'static>> {
        match self.count {
            0 => None,
            1 => Some(Words::Number(self.first[0])),
            _ => Some(Words::Admitted(self)),
        }
    }
}

impl fmt::Display for Admitted {
    fn fmt<W: fmt::Write>(&self, f: &mut fmt::Formatter<W>) -> fmt::Result {
        let (a, b, c) = (self.first[0], self.first[1], self.first[2]);
        match self.count {
            0..=2 => write!(f, "{a}, {b}"),
            3 => write!(f, "{a}, {b}, {c}"),
            _ => write!(f, "{a}, {b}, {c}, .."),
        }
    }
}

/// The words in a mark.
#[derive(Clone, Copy)]
pub enum Words<'a> {
    /// Nothing.
    None,
    /// A value.
    Number(i64),
    /// Two or more values that waited, and that one step let in.
    Admitted(Admitted),
    /// A line or a part of one.
    Text(&'a str),
    /// A list, which is cut if it is long.
    List(&'a str),
}

/// The most characters of a list in a mark.
const LIST_WIDTH: usize = 24;

impl fmt::Display for Words<'_> {
    fn fmt<W: fmt::Write>(&self, f: &mut fmt::Formatter<W>) -> fmt::Result {
        match *self {
            Words::None => Ok(()),
            Words::Number(number) => write!(f, "{number}"),
            Words::Admitted(admitted) => write!(f, "{admitted}"),
            Words::Text(text) => write!(f, "{text}"),
            Words::List(text) => write!(f, "{}", Cut(text, LIST_WIDTH)),
        }
    }
}

/// The note beside a mark.
#[derive(Clone, Copy)]
pub enum Note {
    None,
    /// The subscriber of the lane has this many emitted values yet to receive.
    Behind(u64),
    /// What else the step did.
    Word(&'static str),
}

impl Note {
    /// Returns the note for a lag, or no note if it is 0.
    pub fn behind(lag: u64) -> Note {
        if lag == 0 {
            Note::None
        } else {
            Note::Behind(lag)
        }
    }
}

impl fmt::Display for Note {
    fn fmt<W: fmt::Write>(&self, f: &mut fmt::Formatter<W>) -> fmt::Result {
        match *self {
            Note::None => Ok(()),
            Note::Behind(count) => write!(f, "+{count}"),
            Note::Word(word) => write!(f, "{word}"),
        }
    }
}

/// A mark on a lane. Text shows its sign by the characters around its words.
#[derive(Clone, Copy)]
pub struct Mark<'a> {
    /// The place of its lane among the picture's, from 0.
    pub lane: usize,
    /// The place of its column, from 0.
    pub column: usize,
    pub sign: Sign,
    pub words: Words<'a>,
    pub note: Note,
}

impl fmt::Display for Mark<'_> {
    fn fmt<W: fmt::Write>(&self, f: &mut fmt::Formatter<W>) -> fmt::Result {
        let (words, note) = (self.words, self.note);
        match self.sign {
            Sign::Value => write!(f, "({words}){note}"),
            Sign::Waits => write!(f, "?{words}{note}"),
            Sign::Lost => write!(f, "x{words}{note}"),
            Sign::Nothing => write!(f, ".{words}{note}"),
            Sign::Begins | Sign::Ends => write!(f, "|{words}{note}"),
            Sign::Told | Sign::Over => write!(f, "{words}{note}"),
            Sign::Refused => write!(f, "!{words}{note}"),
        }
    }
}

/// What is written before a lane.
#[derive(Clone, Copy)]
pub struct Label<'a> {
    /// The name of the flow, the subscriber or the emission, or what a lane of a collection shows.
    pub name: &'a str,
    /// The flow of a subscriber or an emission, if the script has several flows.
    pub flow: Option<&'a str>,
}

/// The most characters of a name before its lane.
const MOST_NAME: usize = 12;

impl<'a> Label<'a> {
    /// Returns a label without a flow.
    pub fn of(name: &'a str) -> Label<'a> {
        Label { name, flow: None }
    }

    /// Returns the name and that of the flow, as they are written.
    pub fn cut(self) -> (Cut<'a>, Option<Cut<'a>>) {
        let flow = match self.flow {
            Some(flow) => Some(Cut(flow, MOST_NAME)),
            None => None,
        };
        (Cut(self.name, MOST_NAME), flow)
    }
}

impl fmt::Display for Label<'_> {
    fn fmt<W: fmt::Write>(&self, f: &mut fmt::Formatter<W>) -> fmt::Result {
        match self.cut() {
            (name, Some(flow)) => write!(f, "{name} < {flow}"),
            (name, None) => write!(f, "{name}"),
        }
    }
}
