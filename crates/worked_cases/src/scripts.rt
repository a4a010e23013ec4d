// Scripts: their cases, one after another.
use crate::cases::Case;
use crate::lines::{Line, read_line};
use std::alloc::{AllocError, Global};

/// What a script is made of.
#[derive(Clone, Copy)]
pub enum Piece<'a> {
    /// A case, from its first line to its end.
    Case(Case<'a>),
    /// A line that can't be read, or that stands where it says nothing.
    Unreadable,
    /// A script without cases.
    Empty,
}

/// What each line of a script says.
pub fn read_lines<'a>(alloc: Global, texts: &'a [String]) -> Result<Vec<Line<'a>>, AllocError> {
    let mut lines = Vec::new(alloc);
    for text in texts {
        lines.push(read_line(text.as_str()))?;
    }
    Ok(lines)
}

// A case whose end hasn't come, and how many lines stand before its first.
#[derive(Clone, Copy)]
struct Begun<'a> {
    case: Case<'a>,
    before: usize,
}

/// What has been read of the lines of a script.
#[derive(Drop)]
pub struct Reader<'a> {
    lines: &'a [Line<'a>],
    number: usize,
    begun: Option<Begun<'a>>,
    is_empty: bool,
}

impl<'a> Reader<'a> {
    /// Nothing has been read of these lines.
    pub fn new(lines: &'a [Line<'a>]) -> Reader<'a> {
        Reader {
            lines,
            number: 0,
            begun: None,
            is_empty: true,
        }
    }

    /// How many lines have been read.
    pub fn number(&self) -> usize {
        self.number
    }

    /// Takes the next line: the case that it ends, or whether it can't be read.
    pub fn take(&mut self, line: &Line<'a>) -> Option<Piece<'a>> {
        let before = self.number;
        self.number = before.saturating_add(1);
        let piece = match line {
            Line::Nothing | Line::Text { .. } => None,
            Line::Unreadable => Some(Piece::Unreadable),
            Line::Case(what) => self.begin(Begun {
                case: Case::new(what),
                before,
            }),
            _ => self.add(line),
        };
        self.is_empty = self.is_empty && piece.is_none();
        piece
    }

    // Begins a case. The one before it should have ended.
    fn begin(&mut self, begun: Begun<'a>) -> Option<Piece<'a>> {
        match self.begun.replace(begun) {
            Some(_) => Some(Piece::Unreadable),
            None => None,
        }
    }

    // Adds to the case that has begun.
    fn add(&mut self, line: &Line<'a>) -> Option<Piece<'a>> {
        let Some(mut begun) = self.begun.take() else {
            return Some(Piece::Unreadable);
        };
        if !begun.case.take(line) {
            return Some(Piece::Unreadable);
        }
        if begun.case.has_ended {
            return Some(self.whole(begun));
        }
        self.begun = Some(begun);
        None
    }

    // The case with its lines.
    fn whole(&self, begun: Begun<'a>) -> Piece<'a> {
        match self.lines.get(begun.before..self.number) {
            Some(lines) => Piece::Case(Case {
                lines,
                ..begun.case
            }),
            None => Piece::Unreadable,
        }
    }

    /// What there is to say at the end of the script.
    pub fn end(&self) -> Option<Piece<'a>> {
        if self.begun.is_some() {
            Some(Piece::Unreadable)
        } else if self.is_empty {
            Some(Piece::Empty)
        } else {
            None
        }
    }
}
