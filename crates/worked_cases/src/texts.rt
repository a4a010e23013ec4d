// The texts that a script gives names to.
use crate::lines::{Line, read_line};
use std::alloc::{AllocError, Global};

// Names, as they stand in a line, with their texts, in the order in which they were given.
#[derive(Drop)]
struct Names {
    named: Vec<(String, String)>,
}

impl Names {
    // The line with each name's text in the place of the name.
    fn expand(&self, alloc: Global, line: &str) -> Result<String, AllocError> {
        let mut text = String::from_str(alloc, line)?;
        for (name, value) in self.named.iter() {
            text = text.as_str().replace(alloc, name.as_str(), value.as_str())?;
        }
        Ok(text)
    }

    // Gives a text the name that a line says, under which it is written as `<NAME>`.
    fn learn(&mut self, alloc: Global, line: &Line<'_>) -> Result<(), AllocError> {
        if let Line::Text { name, copies, text } = line {
            let name = format!(in alloc; "<{name}>")?;
            let text = text.repeat(alloc, *copies)?;
            self.named.push((name, text))?;
        }
        Ok(())
    }
}

/// The lines of a script, with the texts in the places of the names that the lines before give them.
pub fn expanded(alloc: Global, script: &str) -> Result<Vec<String>, AllocError> {
    let mut names = Names {
        named: Vec::new(alloc),
    };
    let mut lines = Vec::new(alloc);
    for line in script.lines() {
        let line = names.expand(alloc, line)?;
        names.learn(alloc, &read_line(line.as_str()))?;
        lines.push(line)?;
    }
    Ok(lines)
}

/// Whether a name stands in the line: `<` and a capital letter.
pub fn has_name(line: &str) -> bool {
    line.as_bytes()
        .windows(2)
        .any(|pair| pair[0] == b'<' && pair[1].is_ascii_uppercase())
}

// The letter that an escape stands for.
fn escaped(letter: char) -> Option<char> {
    match letter {
        'r' => Some('\r'),
        'n' => Some('\n'),
        '\\' => Some('\\'),
        _ => None,
    }
}

/// Whether a text has no other escapes than `\r`, `\n` and `\\`.
pub fn is_escaped(text: &str) -> bool {
    let mut opened = false;
    for letter in text.chars() {
        if opened && escaped(letter).is_none() {
            return false;
        }
        opened = !opened && letter == '\\';
    }
    !opened
}

/// Adds a text in which `\r`, `\n` and `\\` stand for a carriage return, a line feed and a backslash.
pub fn add_unescaped(all: &mut String, text: &str) -> Result<(), AllocError> {
    let mut opened = false;
    for letter in text.chars() {
        let said = if opened {
            escaped(letter)
        } else {
            Some(letter)
        };
        opened = !opened && letter == '\\';
        if let Some(said) = said
            && !opened
        {
            all.push(said)?;
        }
    }
    Ok(())
}
