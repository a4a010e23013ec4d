//! Condition keys that are added to what a request says.
ghost use Rattle.std.specs.Prelude.{◌≡◌, ◌++◌, ◌∷◌, [], OnOk, map, option_map};
ghost use Rattle.authority.specs.Facts.{several, single, several_facts, text_facts, truth_facts, number_facts};

use cond_ops::Fact;
use kms_names::{NoMemory, Text, TextList};

// Adds a condition key with one value.
pub(crate) fn put(facts: &mut Vec<Fact>, key: Text, value: Text) -> Result<(), NoMemory>
    ensures { OnOk result (facts.new.items ≡ facts.old.items ++ single key value ∷ []) }
{
    let mut values = Vec::new(*facts.allocator());
    values.push(value)?;
    let values = TextList::new(values);
    facts.push(Fact { key, values })?;
    Ok(())
}

// The same of texts that are lent.
pub(crate) fn put_text(facts: &mut Vec<Fact>, key: &str, value: &str) -> Result<(), NoMemory>
    ensures { OnOk result (facts.new.items ≡ facts.old.items ++ single key.now value.now ∷ []) }
{
    let alloc = *facts.allocator();
    let key = Text::from_str(alloc, key)?;
    let value = Text::from_str(alloc, value)?;
    put(facts, key, value)
}

// Adds condition keys with one value each.
pub(crate) fn put_all(facts: &mut Vec<Fact>, pairs: &[(&str, &str)]) -> Result<(), NoMemory>
    ensures { OnOk result (facts.new.items ≡ facts.old.items ++ map (λ pair. single pair.0.now pair.1.now) pairs.now) }
{
    for pair in pairs {
        put_text(facts, pair.0, pair.1)?;
    }
    Ok(())
}

// Adds a condition key with these values.
pub(crate) fn put_values(facts: &mut Vec<Fact>, key: &str, values: TextList) -> Result<(), NoMemory>
    ensures { OnOk result (facts.new.items ≡ facts.old.items ++ several key.now values ∷ []) }
{
    let key = Text::from_str(*facts.allocator(), key)?;
    facts.push(Fact { key, values })?;
    Ok(())
}

// The same, unless there are none.
pub(crate) fn put_some(facts: &mut Vec<Fact>, key: &str, values: TextList) -> Result<(), NoMemory>
    ensures { OnOk result (facts.new.items ≡ facts.old.items ++ several_facts key.now values) }
{
    if values.as_slice().is_empty() {
        return Ok(());
    }
    put_values(facts, key, values)
}

// Adds a text, where there is one.
pub(crate) fn put_given(
    facts: &mut Vec<Fact>,
    key: &str,
    text: Option<&str>,
) -> Result<(), NoMemory>
    ensures { OnOk result (facts.new.items ≡ facts.old.items ++ text_facts key.now (option_map (λ t. t.now) text.entry)) }
{
    match text {
        Some(text) => put_text(facts, key, text),
        None => Ok(()),
    }
}

// Adds a truth value, where there is one.
pub(crate) fn put_truth(
    facts: &mut Vec<Fact>,
    key: &str,
    truth: Option<bool>,
) -> Result<(), NoMemory>
    ensures { OnOk result (facts.new.items ≡ facts.old.items ++ truth_facts key.now truth) }
{
    match truth {
        Some(true) => put_text(facts, key, "true"),
        Some(false) => put_text(facts, key, "false"),
        None => Ok(()),
    }
}

// Adds a number, where there is one.
pub(crate) fn put_number(
    facts: &mut Vec<Fact>,
    key: &str,
    number: Option<u32>,
) -> Result<(), NoMemory>
    ensures { OnOk result (facts.new.items ≡ facts.old.items ++ number_facts key.now number) }
{
    match number {
        Some(number) => {
            let text = format!(in *facts.allocator(); "{number}")?;
            put_text(facts, key, text.as_str())
        }
        None => Ok(()),
    }
}
