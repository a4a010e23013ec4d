// Bytes as a word: what is printed stands for itself, `\n` for a line feed, and `\3x09.` for three times
// the byte 09, which is how other bytes are written, and those that stand more than eight times in a row.
use crate::failures::Failure;
use std::alloc::Global;

// Adds a byte so many times.
fn add_run(word: &mut String, byte: u8, count: u64) -> Result<(), Failure> {
    let shown = match byte {
        b'\n' => "\\n",
        b'!'..=b'[' | b']'..=b'~' => "",
        _ => "\\",
    };
    if count > 8 || (shown == "\\" && count > 0) {
        write!(word, "\\{count}x{byte:02x}.")?;
        return Ok(());
    }
    for _ in 0..count {
        if shown.is_empty() {
            word.push(char::from(byte))?;
        } else {
            word.push_str(shown)?;
        }
    }
    Ok(())
}

/// Adds bytes to words.
pub fn add_bytes(word: &mut String, bytes: &[u8]) -> Result<(), Failure> {
    let mut last = 0;
    let mut count = 0u64;
    for byte in bytes {
        if *byte != last {
            add_run(word, last, count)?;
            last = *byte;
            count = 0;
        }
        count = count.saturating_add(1);
    }
    add_run(word, last, count)
}

/// The number that a word stands for.
pub fn number_in(word: &str) -> Result<u64, Failure> {
    word.parse::<u64>().ok().ok_or(Failure::Unfit)
}

/// The size that a word stands for.
pub fn size_in(word: &str) -> Result<usize, Failure> {
    word.parse::<usize>().ok().ok_or(Failure::Unfit)
}

// Adds what stands behind a backslash.
fn add_piece(bytes: &mut Vec<u8>, piece: &str) -> Result<(), Failure> {
    if let Some(rest) = piece.strip_prefix('n') {
        bytes.push(b'\n')?;
        return Ok(bytes.extend_from_slice(rest.as_bytes())?);
    }
    let (run, rest) = piece.split_once('.').ok_or(Failure::Unfit)?;
    let (count, digits) = run.split_once('x').ok_or(Failure::Unfit)?;
    let byte = u8::from_str_radix(digits, 16).ok().ok_or(Failure::Unfit)?;
    for _ in 0..number_in(count)? {
        bytes.push(byte)?;
    }
    Ok(bytes.extend_from_slice(rest.as_bytes())?)
}

/// The bytes that a word stands for. `-` are none.
pub fn bytes_of(alloc: Global, word: &str) -> Result<Vec<u8>, Failure> {
    let mut bytes = Vec::new(alloc);
    if word == "-" {
        return Ok(bytes);
    }
    let mut is_first = true;
    for piece in word.split('\\') {
        if is_first {
            bytes.extend_from_slice(piece.as_bytes())?;
            is_first = false;
        } else {
            add_piece(&mut bytes, piece)?;
        }
    }
    Ok(bytes)
}
