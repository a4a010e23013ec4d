// The script of runs over journals.
use crate::scenes::BEGIN;
use std::alloc::{AllocError, Global};

/// A run of the program, as its lines tell it. Each value stands behind its name, with blanks in a list; one that no line tells is empty.
#[derive(Clone, Copy)]
pub struct Run<'a> {
    pub what: &'a str,
    pub words: &'a str,
    /// The files that are there, by their names, or `*` where each is there and is too long.
    pub files: &'a str,
    /// The clocks' first answer.
    pub begin: u32,
    /// The files of the messages, each of which comes by one read.
    pub messages: &'a str,
    /// The files of the messages that come at the two ears.
    pub ears: &'a str,
    /// The kind and the number of the call that fails.
    fails: &'a str,
    /// What is shown of what was written: its `text`, its first `line`, or that the files of these names hold it. It comes last.
    pub shows: &'a str,
}

impl<'a> Run<'a> {
    /// A run of which nothing is told.
    pub fn new() -> Run<'a> {
        Run {
            what: "",
            words: "",
            files: "",
            begin: BEGIN,
            messages: "",
            ears: "",
            fails: "",
            shows: "",
        }
    }

    /// Takes what a line tells; it is None where that is nothing.
    pub fn take(&mut self, line: &'a str) -> Option<()> {
        let (name, value) = line.split_once(' ')?;
        match name {
            "case" => self.what = value,
            "words" => self.words = value,
            "files" => self.files = value,
            "begin" => self.begin = value.parse().ok()?,
            "messages" => self.messages = value,
            "ears" => self.ears = value,
            "fails" => self.fails = value,
            "shows" => self.shows = value,
            _ => return None,
        }
        Some(())
    }

    /// Whether each file is there and is too long.
    pub fn has_long_files(&self) -> bool {
        self.files == "*"
    }

    /// The numbers of the calls of a kind that fail: of none, or of one.
    pub fn failing(&self, alloc: Global, kind: &str) -> Result<Vec<u64>, AllocError> {
        let number = match self.fails.split_once(' ') {
            Some((failing, number)) if failing == kind => number.parse().ok(),
            _ => None,
        };
        number.into_iter().collect(alloc)
    }
}
