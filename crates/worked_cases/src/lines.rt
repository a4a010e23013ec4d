// The lines of a script.
use crate::texts::has_name;
use std::str::FromStr;

/// A range of numbers, from the first to the last.
#[derive(Clone, Copy)]
pub struct Span {
    pub first: usize,
    pub last: usize,
}

/// How many words and initialization vectors a pass has given.
#[derive(Clone, Copy, PartialEq, Eq)]
pub struct Given {
    pub words: u64,
    pub ivs: u64,
}

/// A reply: whether it closes, its status, the number of entries, the exception's name where it is a
/// refusal, and its body or its message.
#[derive(Clone, Copy)]
pub struct Wanted<'a> {
    pub closes: bool,
    pub status: u16,
    pub exception: Option<&'a str>,
    pub front: u64,
    pub text: &'a str,
}

/// What a line says.
#[derive(Clone, Copy)]
pub enum Line<'a> {
    Nothing,
    Unreadable,
    Text {
        name: &'a str,
        copies: usize,
        text: &'a str,
    },
    Case(&'a str),
    Clock {
        second: u64,
        date: &'a str,
    },
    Caller(&'a str),
    Policy {
        principal: &'a str,
        text: &'a str,
    },
    Ceiling(&'a str),
    Credential {
        id: &'a str,
        secret: &'a str,
        principal: &'a str,
    },
    Boot(u32),
    Pieces(Span),
    Cut(Span),
    Again(usize),
    FailingRead(u64),
    FailingWrite(u64),
    Spent(Given),
    Ask {
        operation: &'a str,
        body: &'a str,
    },
    Raw(&'a str),
    Reply(Wanted<'a>),
    End {
        end: &'a str,
        whole: Option<usize>,
    },
    Left(Given),
}

// What hasn't been read of a line, and whether something in it couldn't be read.
#[derive(Drop)]
struct Words<'a> {
    rest: &'a str,
    is_faulty: bool,
}

impl<'a> Words<'a> {
    // The next word, behind which a space stands.
    fn word(&mut self) -> &'a str {
        match self.rest.split_once(' ') {
            Some((word, rest)) => {
                self.rest = rest;
                word
            }
            None => {
                self.is_faulty = true;
                ""
            }
        }
    }

    // The number that a text is.
    fn number_in<N: FromStr<Err: Drop> + Default>(&mut self, text: &str) -> N {
        match text.parse() {
            Ok(number) => number,
            Err(_) => {
                self.is_faulty = true;
                N::default()
            }
        }
    }

    // The number that the next word is.
    fn number<N: FromStr<Err: Drop> + Default>(&mut self) -> N {
        let word = self.word();
        self.number_in(word)
    }

    // The number that all the rest is.
    fn last_number<N: FromStr<Err: Drop> + Default>(&mut self) -> N {
        self.number_in(self.rest)
    }

    // One number, or the first and the last of a range, which is not empty.
    fn span(&mut self) -> Span {
        let (first, last) = self.rest.split_once(' ').unwrap_or((self.rest, self.rest));
        let span = Span {
            first: self.number_in(first),
            last: self.number_in(last),
        };
        if span.first > span.last {
            self.is_faulty = true;
        }
        span
    }

    fn places(&mut self) -> Given {
        Given {
            words: self.number(),
            ivs: self.last_number(),
        }
    }
}

fn read_failing<'a>(words: &mut Words<'a>) -> Line<'a> {
    match words.word() {
        "read" => Line::FailingRead(words.last_number()),
        "write" => Line::FailingWrite(words.last_number()),
        _ => Line::Unreadable,
    }
}

fn read_ask<'a>(words: &mut Words<'a>) -> Line<'a> {
    let operation = words.word();
    let body = words.rest;
    if operation == "raw" {
        Line::Raw(body)
    } else {
        Line::Ask { operation, body }
    }
}

// A status of 200 with the whole body, or another with the exception's name and its message.
fn read_reply<'a>(words: &mut Words<'a>) -> Line<'a> {
    let after = words.rest.strip_prefix("close ");
    words.rest = after.unwrap_or(words.rest);
    let status = words.number();
    let exception = if status == 200 {
        None
    } else {
        Some(words.word())
    };
    Line::Reply(Wanted {
        closes: after.is_some(),
        status,
        exception,
        front: words.number(),
        text: words.rest,
    })
}

fn read_end<'a>(words: &mut Words<'a>) -> Line<'a> {
    match words.rest.split_once(' ') {
        Some((end, whole)) => Line::End {
            end,
            whole: Some(words.number_in(whole)),
        },
        None => Line::End {
            end: words.rest,
            whole: None,
        },
    }
}

fn read_setting<'a>(word: &str, words: &mut Words<'a>) -> Line<'a> {
    match word {
        "clock" => Line::Clock {
            second: words.number(),
            date: words.rest,
        },
        "as" => Line::Caller(words.rest),
        "policy" => Line::Policy {
            principal: words.word(),
            text: words.rest,
        },
        "ceiling" => Line::Ceiling(words.rest),
        "credential" => Line::Credential {
            id: words.word(),
            secret: words.word(),
            principal: words.rest,
        },
        "boot" => Line::Boot(words.last_number()),
        "pieces" => Line::Pieces(words.span()),
        "cut" => Line::Cut(words.span()),
        "again" => Line::Again(words.last_number()),
        "fail" => read_failing(words),
        "spent" => Line::Spent(words.places()),
        _ => Line::Unreadable,
    }
}

fn read_words<'a>(words: &mut Words<'a>) -> Line<'a> {
    match words.word() {
        "text" => Line::Text {
            name: words.word(),
            copies: 1,
            text: words.rest,
        },
        "copies" => Line::Text {
            name: words.word(),
            copies: words.number(),
            text: words.rest,
        },
        "case" => Line::Case(words.rest),
        ">" => read_ask(words),
        "<" => read_reply(words),
        "end" => read_end(words),
        "left" => Line::Left(words.places()),
        word => read_setting(word, words),
    }
}

/// What a line says. One in which a name stands that has no text can't be read.
pub fn read_line(line: &str) -> Line<'_> {
    if line.is_empty() || line.starts_with('#') {
        return Line::Nothing;
    }
    let mut words = Words {
        rest: line,
        is_faulty: has_name(line),
    };
    let said = read_words(&mut words);
    if words.is_faulty {
        Line::Unreadable
    } else {
        said
    }
}
