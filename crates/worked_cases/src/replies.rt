// Messages and replies as they stand on the link.
use crate::cases::{Case, Request};
use crate::lines::{Line, Wanted};
use crate::texts::add_unescaped;
use std::alloc::{AllocError, Global};

// The reason phrase of a status (RFC 9110, section 15).
fn reason(status: u16) -> &'static str {
    match status {
        200 => "OK",
        400 => "Bad Request",
        404 => "Not Found",
        405 => "Method Not Allowed",
        411 => "Length Required",
        412 => "Precondition Failed",
        413 => "Content Too Large",
        501 => "Not Implemented",
        503 => "Service Unavailable",
        _ => "Internal Server Error",
    }
}

/// The body of a reply.
pub fn body_text(alloc: Global, reply: &Wanted<'_>) -> Result<String, AllocError> {
    let text = reply.text;
    match reply.exception {
        Some(name) => format!(in alloc; "{{\"__type\":\"{name}\",\"message\":\"{text}\"}}"),
        None => String::from_str(alloc, text),
    }
}

// The reply's bytes, at this date.
fn reply_text(alloc: Global, reply: &Wanted<'_>, date: &str) -> Result<String, AllocError> {
    let status = reply.status;
    let reason = reason(status);
    let body = body_text(alloc, reply)?;
    let size = body.len();
    let front = reply.front;
    let close = if reply.closes {
        "Connection: close\r\n"
    } else {
        ""
    };
    format!(in alloc;
        "HTTP/1.1 {status} {reason}\r\nContent-Type: application/x-amz-json-1.1\r\nContent-Length: {size}\r\nDate: {date}\r\nx-kms-front: {front}\r\n{close}\r\n{body}"
    )
}

// The date of the clock's answer to the reply of this number: the last one's, where there are fewer.
fn date_of<'a>(case: &Case<'a>, number: usize) -> &'a str {
    let mut date = "";
    let mut answers = 0usize;
    for line in case.lines {
        if let Line::Clock { date: next, .. } = line
            && answers <= number
        {
            date = next;
            answers = answers.saturating_add(1);
        }
    }
    date
}

// The bytes of replies of a case.
fn texts_of(
    alloc: Global,
    case: &Case<'_>,
    replies: &[Wanted<'_>],
) -> Result<Vec<String>, AllocError> {
    let mut texts = Vec::new(alloc);
    for (number, reply) in replies.iter().enumerate() {
        texts.push(reply_text(alloc, reply, date_of(case, number))?)?;
    }
    Ok(texts)
}

/// The bytes of each reply of a case.
pub fn reply_texts(alloc: Global, case: &Case<'_>) -> Result<Vec<String>, AllocError> {
    texts_of(alloc, case, &case.all_replies(alloc)?)
}

// Adds a message that asks for an operation.
fn add_message(all: &mut String, operation: &str, body: &str) -> Result<(), AllocError> {
    let size = body.len();
    write!(
        all,
        "POST / HTTP/1.1\r\nHost: localhost\r\nContent-Type: application/x-amz-json-1.1\r\nX-Amz-Target: TrentService.{operation}\r\nContent-Length: {size}\r\n\r\n{body}"
    )
}

// The text of requests, one after another.
fn messages(alloc: Global, requests: &[Request<'_>]) -> Result<String, AllocError> {
    let mut all = String::new(alloc);
    for request in requests {
        match *request {
            Request::Ask {
                operation,
                body,
                ..
            } => add_message(&mut all, operation, body)?,
            Request::Raw(text) => add_unescaped(&mut all, text)?,
        }
    }
    Ok(all)
}

/// All requests of a case, one after another.
pub fn input(alloc: Global, case: &Case<'_>) -> Result<String, AllocError> {
    messages(alloc, &case.all_requests(alloc)?)
}

/// Whether these bytes are the first replies, so many, and a front of the next one that lacks some of it.
pub fn is_front(written: &[u8], replies: &[String], whole: usize) -> bool {
    let mut rest = written;
    for (number, reply) in replies.iter().enumerate() {
        if number >= whole {
            let next = reply.as_bytes();
            return rest.len() < next.len() && next.starts_with(rest);
        }
        match rest.strip_prefix(reply.as_bytes()) {
            Some(after) => rest = after,
            None => return false,
        }
    }
    replies.len() == whole && rest.is_empty()
}

/// Whether these bytes are all replies and nothing else.
pub fn is_all(written: &[u8], replies: &[String]) -> bool {
    let mut rest = written;
    for reply in replies.iter() {
        match rest.strip_prefix(reply.as_bytes()) {
            Some(after) => rest = after,
            None => return false,
        }
    }
    rest.is_empty()
}
