// A case: the session that it stands for, and what is wanted of it.
use crate::lines::{Given, Line, Span, Wanted};
use crate::texts::is_escaped;
use std::alloc::{AllocError, Global};

/// Some bytes of the input.
#[derive(Clone, Copy)]
pub enum Request<'a> {
    /// A message by which this caller asks the operation for this, with a body.
    Ask {
        caller: &'a str,
        operation: &'a str,
        body: &'a str,
    },
    /// Bytes as they stand, but for their escapes.
    Raw(&'a str),
}

/// A case: what it shows, what its lines set, how many requests and replies they have, and the lines.
#[derive(Clone, Copy)]
pub struct Case<'a> {
    pub what: &'a str,
    /// Who asks the next request.
    pub caller: &'a str,
    pub has_credentials: bool,
    pub boot: u32,
    pub pieces: Span,
    pub cut: Option<Span>,
    pub spent: Option<Given>,
    pub requests: usize,
    pub replies: usize,
    pub has_ended: bool,
    /// All its lines, once the last one has come, which says how it ends.
    pub lines: &'a [Line<'a>],
}

const ROOT: &str = "arn:aws:iam::111122223333:root";

impl<'a> Case<'a> {
    /// A case that shows this, of which nothing else is said yet.
    pub fn new(what: &'a str) -> Case<'a> {
        Case {
            what,
            caller: ROOT,
            has_credentials: false,
            boot: 1,
            pieces: Span { first: 0, last: 0 },
            cut: None,
            spent: None,
            requests: 0,
            replies: 0,
            has_ended: false,
            lines: &[],
        }
    }

    /// Takes what a line sets, or one of the case's turns. It is false where the line says nothing there.
    pub fn take(&mut self, line: &Line<'a>) -> bool {
        let has_asked = self.requests != 0;
        match *line {
            Line::Clock { .. } | Line::FailingRead(_) | Line::FailingWrite(_) => {}
            Line::Policy { .. } | Line::Ceiling(_) => return !has_asked,
            Line::Credential { .. } => {
                self.has_credentials = true;
                return !has_asked;
            }
            Line::Caller(caller) => {
                self.caller = caller;
                return self.spent.is_some() || !has_asked;
            }
            Line::Boot(boot) => self.boot = boot,
            Line::Pieces(pieces) => self.pieces = pieces,
            Line::Cut(cut) => self.cut = Some(cut),
            Line::Spent(places) => self.spent = Some(places),
            _ => return self.take_turn(line),
        }
        true
    }

    // The same of the lines that are a turn, or the end.
    fn take_turn(&mut self, line: &Line<'a>) -> bool {
        match *line {
            Line::Ask { .. } => self.requests = self.requests.saturating_add(1),
            Line::Raw(text) => {
                self.requests = self.requests.saturating_add(1);
                return is_escaped(text);
            }
            Line::Reply(_) => self.replies = self.replies.saturating_add(1),
            Line::Again(count) => {
                let has_turn = self.requests != 0 && self.replies != 0;
                self.requests = self.requests.saturating_add(count);
                self.replies = self.replies.saturating_add(count);
                return has_turn;
            }
            Line::End { .. } | Line::Left(_) => self.has_ended = true,
            _ => return false,
        }
        true
    }

    /// The requests, those that are said again too.
    pub fn all_requests(&self, alloc: Global) -> Result<Vec<Request<'a>>, AllocError> {
        let mut caller = ROOT;
        let mut requests = Vec::new(alloc);
        for line in self.lines {
            match *line {
                Line::Caller(next) => caller = next,
                Line::Ask { operation, body } => requests.push(Request::Ask {
                    caller,
                    operation,
                    body,
                })?,
                Line::Raw(text) => requests.push(Request::Raw(text))?,
                Line::Again(count) => add_again(&mut requests, count)?,
                _ => {}
            }
        }
        Ok(requests)
    }

    /// The replies, those that are said again too.
    pub fn all_replies(&self, alloc: Global) -> Result<Vec<Wanted<'a>>, AllocError> {
        let mut replies = Vec::new(alloc);
        for line in self.lines {
            match *line {
                Line::Reply(reply) => replies.push(reply)?,
                Line::Again(count) => add_again(&mut replies, count)?,
                _ => {}
            }
        }
        Ok(replies)
    }
}

// Adds the last item so many more times.
fn add_again<T: Copy>(items: &mut Vec<T>, count: usize) -> Result<(), AllocError> {
    if let Some(last) = items.last().copied() {
        for _ in 0..count {
            items.push(last)?;
        }
    }
    Ok(())
}
