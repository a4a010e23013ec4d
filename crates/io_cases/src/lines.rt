// The lines of the cases, and the words for what the calls answer.
use kms_io::{FileAnswer, Opened, Put, Took};
use std::alloc::{AllocError, Global};
use std::io;

/// The lines so far, as long as there is memory for them.
#[derive(Drop)]
pub struct Lines {
    text: String,
    lacks_memory: bool,
}

impl Lines {
    /// No lines.
    pub fn new(alloc: Global) -> Lines {
        Lines {
            text: String::new(alloc),
            lacks_memory: false,
        }
    }

    // Notes whether there was memory for a text.
    fn note(&mut self, added: Result<(), AllocError>) {
        if added.is_err() {
            self.lacks_memory = true;
        }
    }

    /// Adds words, or the end of a line.
    pub fn say(&mut self, words: &str) {
        let added = self.text.push_str(words);
        self.note(added);
    }

    /// Adds a number.
    pub fn say_number(&mut self, number: u64) {
        let added = write!(self.text, "{number}");
        self.note(added);
    }

    /// Adds bytes, as the text that they are, in quotes.
    pub fn say_text(&mut self, bytes: &[u8]) {
        match str::from_utf8(bytes) {
            Ok(text) => {
                let added = write!(self.text, "{text:?}");
                self.note(added);
            }
            Err(_) => self.say("no text"),
        }
    }

    /// Adds whether something holds.
    pub fn say_whether(&mut self, holds: bool) {
        self.say(if holds { "true" } else { "false" });
    }

    /// Adds what a read did.
    pub fn say_took(&mut self, took: Took) {
        match took {
            Took::Got(count) => {
                self.say("got ");
                self.say_number(count as u64);
            }
            Took::End => self.say("end"),
            Took::Failed => self.say("failed"),
        }
    }

    /// Adds what a write did.
    pub fn say_put(&mut self, put: Put) {
        match put {
            Put::Wrote(count) => {
                self.say("wrote ");
                self.say_number(count as u64);
            }
            Put::Failed => self.say("failed"),
        }
    }

    /// Adds what a read of a file did, and how many bytes the room has then.
    pub fn say_answer(&mut self, answer: FileAnswer, room: usize) {
        self.say(match answer {
            FileAnswer::Read => "read",
            FileAnswer::TooLong => "too long",
            FileAnswer::Failed => "failed",
            FileAnswer::NoMemory => "no memory",
        });
        self.say(", the room has ");
        self.say_number(room as u64);
        self.say(" bytes");
    }

    /// Adds what an opening did.
    pub fn say_opened(&mut self, opened: Opened) {
        self.say(match opened {
            Opened::Open => "open",
            Opened::Failed => "failed",
            Opened::NoMemory => "no memory",
        });
    }

    /// Writes the lines, where there was memory for all of them.
    pub fn print(&self, rt: &impl Print) -> io::Result<()> {
        if self.lacks_memory {
            return Err(io::Error::from(AllocError));
        }
        rt.write_all(self.text.as_bytes())
    }
}
