// How often each answer came.
use crate::answers::Answer;
use kms_names::NoMemory;
use std::alloc::Global;

/// How often each answer came of journals of so many lines at most.
#[derive(Drop)]
pub struct Tally {
    at: Vec<u64>,
    read: u64,
    old: u64,
}

// One more of a count.
fn more(count: &mut u64) {
    *count = count.saturating_add(1);
}

// Writes how often an answer came behind what stands in a text, where it came.
fn add(text: &mut String, count: u64, answer: &str) -> Result<(), NoMemory> {
    if count == 0 {
        return Ok(());
    }
    let comma = if text.is_empty() { "" } else { ", " };
    write!(text, "{comma}{count} {answer}")?;
    Ok(())
}

impl Tally {
    /// None yet, of journals of so many lines.
    pub fn new(alloc: Global, lines: usize) -> Result<Tally, NoMemory> {
        let mut at = Vec::new(alloc);
        for _line in 0..lines {
            at.push(0)?;
        }
        at.push(0)?;
        at.push(0)?;
        Ok(Tally {
            at,
            read: 0,
            old: 0,
        })
    }

    /// Counts an answer.
    pub fn count(&mut self, answer: Answer) {
        match answer {
            Answer::Read { .. } => more(&mut self.read),
            Answer::OldBoot => more(&mut self.old),
            Answer::At(line) => {
                let place = usize::try_from(line).unwrap_or(0);
                if let Some(count) = self.at.get_mut(place) {
                    more(count);
                }
            }
        }
    }

    /// How often each answer came, in the order of lines.
    pub fn text(&self, alloc: Global) -> Result<String, NoMemory> {
        let mut text = String::new(alloc);
        add(&mut text, self.read, "Ok")?;
        for (line, count) in self.at.iter().enumerate() {
            add(&mut text, *count, format!(in alloc; "At {line}")?.as_str())?;
        }
        add(&mut text, self.old, "OldBoot")?;
        Ok(text)
    }
}
