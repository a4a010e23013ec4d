// Values that are a text or a list of texts.
ghost use Rattle.std.specs.Prelude.{◌≡◌, IfOk};
ghost use Rattle.serde_json.specs.View.{view, items_view, number_view};
ghost use Rattle.policy_doc.specs.Paths.{path_text};
ghost use Rattle.policy_doc.specs.Answers.{Answers};
ghost use Rattle.policy_doc.specs.Forms.{takes_count};
ghost use Rattle.policy_doc.specs.Texts.{truth_text, whole_text, text_given, text_fault, text_of, items_fault, items_of, items_len, texts_fault, texts_of};

use crate::faults::{Departure, PolicyFault};
use crate::forms::{Form, departure};
use crate::lists::one;
use crate::paths::{Path, fault};
use kms_names::{NoMemory, Text, TextList};
use serde_json::{Number, Value};
use std::alloc::Global;

fn whole_text(alloc: Global, number: &Number) -> Result<Option<Text>, NoMemory>
    ensures { IfOk result (λ text. text ≡ whole_text (number_view number.now)) }
{
    if let Some(natural) = number.as_u64() {
        return Ok(Some(Text::from_string(format!(in alloc; "{natural}")?)));
    }
    if let Some(negative) = number.as_i64() {
        return Ok(Some(Text::from_string(format!(in alloc; "{negative}")?)));
    }
    Ok(None)
}

fn truth_text(truth: bool) -> &'static str
    ensures { result.now ≡ truth_text truth }
{
    if truth { "true" } else { "false" }
}

// The text that a value stands for.
fn text_value(alloc: Global, form: Form, value: &Value) -> Result<Option<Text>, NoMemory>
    ensures { IfOk result (λ text. text ≡ text_given form (view value.now)) }
{
    match value {
        Value::String(text) => Ok(Some(Text::from_str(alloc, text)?)),
        Value::Bool(truth) if form.takes_scalars() => {
            Ok(Some(Text::from_str(alloc, truth_text(*truth))?))
        }
        Value::Number(number) if form.takes_scalars() => whole_text(alloc, number),
        _ => Ok(None),
    }
}

fn read_text(alloc: Global, form: Form, path: &Path<'_>, value: &Value) -> Result<Text, PolicyFault>
    ensures { Answers (text_fault form (path_text path.now) (view value.now)) (text_of form (view value.now)) result }
{
    let Some(text) = text_value(alloc, form, value)? else {
        return Err(fault(alloc, Departure::BadShape, path));
    };
    match departure(form, text.as_str()) {
        None => Ok(text),
        Some(departure) => Err(fault(alloc, departure, path)),
    }
}

fn read_items(
    alloc: Global,
    form: Form,
    path: &Path<'_>,
    items: &[Value],
) -> Result<TextList, PolicyFault>
    ensures { Answers (items_fault form (path_text path.now) 0 (items_view items.now)) (items_of form (items_view items.now)) result }
{
    let mut texts = Vec::new(alloc);
    for (index, item) in items.iter().enumerate() {
        texts.push(read_text(alloc, form, &Path::Item(path, index), item)?)?;
    }
    Ok(TextList::new(texts))
}

fn takes_items(form: Form, items: &[Value]) -> bool
    ensures { result ≡ takes_count form (items_len (items_view items.now)) }
{
    form.takes_count(items.len())
}

/// The texts of a value that is a text or a list of texts of this form.
pub fn read_texts(
    alloc: Global,
    form: Form,
    path: &Path<'_>,
    value: &Value,
) -> Result<TextList, PolicyFault>
    ensures { Answers (texts_fault form (path_text path.now) (view value.now)) (texts_of form (view value.now)) result }
{
    match value {
        Value::Array(items) if takes_items(form, items) => read_items(alloc, form, path, items),
        Value::Array(_) => Err(fault(alloc, Departure::BadShape, path)),
        _ => {
            let text = read_text(alloc, form, path, value)?;
            Ok(TextList::new(one(alloc, text)?))
        }
    }
}
