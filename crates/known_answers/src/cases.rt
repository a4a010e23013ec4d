//! A case: the columns of its line, and the answer that its call gives.

use kms_names::{Bytes, NoMemory, Text, TextList};
use std::alloc::{AllocError, Global};
use std::str::FromStr;

/// A case. Its columns are read from the first on, with ` | ` between two, and its answer is written word by
/// word. It is lost where a column can't be read or memory is refused: then it has no answer, and what is read
/// from there on is empty or 0.
#[derive(Drop)]
pub struct Case<'a> {
    /// What memory is taken from.
    pub alloc: Global,
    columns: Option<&'a str>,
    answer: String,
    is_lost: bool,
}

impl<'a> Case<'a> {
    /// A case of these columns, with no word of an answer.
    pub fn new(alloc: Global, columns: &'a str) -> Case<'a> {
        Case {
            alloc,
            columns: Some(columns),
            answer: String::new(alloc),
            is_lost: false,
        }
    }

    /// The answer as it was written; None where the case is lost or a column is left.
    pub fn into_answer(self) -> Option<String> {
        if self.is_lost || self.columns.is_some() {
            None
        } else {
            Some(self.answer)
        }
    }

    /// Loses the case, with the columns that are left.
    pub fn lose(&mut self) {
        self.is_lost = true;
        self.columns = None;
    }

    /// Loses the case where something doesn't hold.
    pub fn require(&mut self, holds: bool) {
        if !holds {
            self.lose();
        }
    }

    /// What was found; the case is lost where nothing was.
    pub fn found<T>(&mut self, option: Option<T>) -> Option<T> {
        self.require(option.is_some());
        option
    }

    /// What a call gave; the case is lost where it failed.
    pub fn kept<T, E: Drop>(&mut self, given: Result<T, E>) -> Option<T> {
        self.require(given.is_ok());
        given.ok()
    }

    /// What a call gave; where it failed the case is lost, and this stands for it.
    pub fn kept_or<T: Drop, E: Drop>(&mut self, given: Result<T, E>, other: T) -> T {
        self.require(given.is_ok());
        given.unwrap_or(other)
    }

    /// A text that a call gave, or the empty one.
    pub fn kept_text(&mut self, given: Result<Text, NoMemory>) -> Text {
        self.kept_or(given, Text::from_string(String::new(self.alloc)))
    }

    /// Bytes that a call gave, or none.
    pub fn kept_bytes(&mut self, given: Result<Bytes, NoMemory>) -> Bytes {
        self.kept_or(given, Bytes::new(Vec::new(self.alloc)))
    }
}

/// Columns, and the values that words stand for.
impl<'a> Case<'a> {
    /// The next column as it is written.
    pub fn word(&mut self) -> &'a str {
        let columns = self.found(self.columns).unwrap_or("");
        match columns.split_once(" | ") {
            Some((word, others)) => {
                self.columns = Some(others);
                word
            }
            None => {
                self.columns = None;
                columns
            }
        }
    }

    /// The next column as a text: `''` is the empty one.
    pub fn text(&mut self) -> &'a str {
        text_of(self.word())
    }

    /// The next column as a text of its own.
    pub fn owned_text(&mut self) -> Text {
        let text = self.text();
        self.owned(text)
    }

    /// The next column as bytes.
    pub fn bytes(&mut self) -> Vec<u8> {
        let word = self.word();
        self.bytes_of(word)
    }

    /// The next column as so many bytes.
    pub fn array<const N: usize>(&mut self) -> [u8; N] {
        let mut array = [0; N];
        let decoded = hex::decode_to_slice(self.word(), &mut array);
        self.require(decoded.is_ok());
        array
    }

    /// The next column as a decimal number.
    pub fn number<T: FromStr + Default>(&mut self) -> T
    where
        T::Err: Drop,
    {
        let word = self.word();
        self.number_of(word)
    }

    /// The next column as a list of texts.
    pub fn texts(&mut self) -> TextList {
        let word = self.word();
        self.texts_of(word)
    }

    /// The number that a word stands for.
    pub fn number_of<T: FromStr + Default>(&mut self, word: &str) -> T
    where
        T::Err: Drop,
    {
        self.kept(word.parse()).unwrap_or_default()
    }

    /// The bytes that a word stands for, in hexadecimal: `-` are none.
    pub fn bytes_of(&mut self, word: &str) -> Vec<u8> {
        let digits = if word == "-" { "" } else { word };
        let bytes = hex::decode(self.alloc, digits);
        self.kept_or(bytes, Vec::new(self.alloc))
    }

    /// The texts that a word stands for, with `, ` between two: `-` is the empty list.
    pub fn texts_of(&mut self, word: &str) -> TextList {
        let mut items = Vec::new(self.alloc);
        if word != "-" {
            for text in word.split(", ") {
                let pushed = items.push(self.owned(text_of(text)));
                self.require(pushed.is_ok());
            }
        }
        TextList::new(items)
    }

    /// A text of its own.
    pub fn owned(&mut self, text: &str) -> Text {
        self.kept_text(Text::from_str(self.alloc, text))
    }
}

/// The answer.
impl Case<'_> {
    /// Writes a word behind the answer.
    pub fn write(&mut self, word: &str) {
        let written = self.answer.push_str(word);
        self.require(written.is_ok());
    }

    /// Puts a word behind the others, with a mark between them.
    pub fn put_after(&mut self, mark: &str, word: &str) {
        if !self.answer.is_empty() {
            self.write(mark);
        }
        self.write(word);
    }

    /// Puts a word behind the others.
    pub fn put(&mut self, word: &str) {
        self.put_after(" ", word);
    }

    /// Puts a text behind the others, with a mark between them: `''` is the empty one.
    pub fn put_text(&mut self, mark: &str, text: &str) {
        self.put_after(mark, if text.is_empty() { "''" } else { text });
    }

    /// Puts the word that a call made behind the others, with a mark between them.
    pub fn put_made(&mut self, mark: &str, made: Result<Text, NoMemory>) {
        let word = self.kept_text(made);
        self.put_after(mark, word.as_str());
    }

    /// Puts words that a call made behind the others.
    pub fn put_string(&mut self, made: Result<String, AllocError>) {
        let words = self.kept_or(made, String::new(self.alloc));
        self.put(words.as_str());
    }

    /// Puts bytes behind the others.
    pub fn put_bytes(&mut self, bytes: &[u8]) {
        if bytes.is_empty() {
            self.put("-");
        } else {
            self.put_string(hex::encode(self.alloc, bytes));
        }
    }

    /// Puts a number behind the others.
    pub fn put_number(&mut self, number: u64) {
        self.put_string(number.to_string(self.alloc));
    }

    /// Puts a truth value behind the others.
    pub fn put_truth(&mut self, truth: bool) {
        self.put(if truth { "true" } else { "false" });
    }

    /// Puts a list of texts behind the others, with a mark between them: `-` is the empty list.
    pub fn put_texts(&mut self, mark: &str, list: &TextList) {
        let mut mark = mark;
        for text in list.as_slice() {
            self.put_text(mark, text.as_str());
            mark = ", ";
        }
        if list.as_slice().is_empty() {
            self.put_after(mark, "-");
        }
    }

    /// Ends an answer that is a list alone: `-` is the empty one.
    pub fn end_list(&mut self) {
        if self.answer.is_empty() {
            self.write("-");
        }
    }
}

/// The text that a word stands for.
fn text_of(word: &str) -> &str {
    if word == "''" { "" } else { word }
}
