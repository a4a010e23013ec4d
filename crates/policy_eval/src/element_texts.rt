//! The texts of a statement's elements, in one piece of memory.

ghost use Rattle.std.specs.Prelude.{◌≡◌, ◌↔◌, ◌++◌, IsTrue, IfOk, length};
ghost use Rattle.cond_ops.specs.Relation.{IsLike};
ghost use Rattle.policy_eval.specs.Elements.{elements_of};
ghost use Rattle.policy_eval.specs.Matching.{ElementMatches};

use crate::elements::some_matches;
use kms_names::{NoMemory, Text};
use packed_texts::PackedTexts;
use policy_doc::Statement;
use std::alloc::Global;
use std::marker::Model;

/// The texts of a statement's NotResource, Resource, Action and NotAction, one behind another. Contracts see the four
/// lists.
#[derive(Drop)]
pub struct ElementTexts {
    texts: PackedTexts,
    not_resource_count: u32,
    resource_count: u32,
    action_count: u32,
}

impl Model for ElementTexts {
    ghost use Rattle.policy_eval.specs.Elements.{Elements};

    ghost Value = { Elements };

    ghost use Rattle.policy_eval.specs.ElementTexts.{parted};

    ghost view = { parted };
}

// How many texts there are, in four bytes; refused where there are more.
fn count_of(texts: &[Text]) -> Result<u32, NoMemory>
    ensures { IfOk result (λ count. count ≡ length texts.now) }
{
    let count = texts.len();
    if count <= u32::MAX as usize {
        Ok(count as u32)
    } else {
        Err(NoMemory)
    }
}

// So many bytes and those of these texts, or more than there can be.
fn and_bytes_of(bytes: usize, texts: &[Text]) -> usize {
    let mut total = bytes;
    for text in texts {
        total = total.saturating_add(text.as_str().len());
    }
    total
}

// The bytes of the texts of all elements of a statement.
fn byte_count(statement: &Statement) -> usize {
    let not_resources = and_bytes_of(0, statement.not_resources.as_slice());
    let resources = and_bytes_of(not_resources, statement.resources.as_slice());
    let actions = and_bytes_of(resources, statement.actions.as_slice());
    and_bytes_of(actions, statement.not_actions.as_slice())
}

// How many texts all elements of a statement have.
fn text_count(statement: &Statement) -> usize {
    let not_resources = statement.not_resources.as_slice().len();
    let resources = statement.resources.as_slice().len();
    let actions = statement.actions.as_slice().len();
    not_resources
        .saturating_add(resources)
        .saturating_add(actions)
        .saturating_add(statement.not_actions.as_slice().len())
}

// The texts of all elements of a statement, with no room for more.
fn pack(alloc: Global, statement: &Statement) -> Result<PackedTexts, NoMemory>
    ensures { IfOk result (λ texts. texts ≡ ((statement.now.not_resources ++ statement.now.resources) ++ statement.now.actions) ++ statement.now.not_actions) }
{
    let mut texts = PackedTexts::with_capacity(
        alloc,
        text_count(statement),
        byte_count(statement),
    )?;
    texts.push_all(statement.not_resources.as_slice())?;
    texts.push_all(statement.resources.as_slice())?;
    texts.push_all(statement.actions.as_slice())?;
    texts.push_all(statement.not_actions.as_slice())?;
    Ok(texts)
}

impl ElementTexts {
    /// Those of a statement.
    pub fn new(alloc: Global, statement: &Statement) -> Result<ElementTexts, NoMemory>
        ensures { IfOk result (λ texts. texts ≡ elements_of statement.now) }
    {
        Ok(ElementTexts {
            texts: pack(alloc, statement)?,
            not_resource_count: count_of(statement.not_resources.as_slice())?,
            resource_count: count_of(statement.resources.as_slice())?,
            action_count: count_of(statement.actions.as_slice())?,
        })
    }

    /// Whether the Resource or NotResource matches.
    pub fn resource_matches(&self, alloc: Global, resource: &str) -> bool
        ensures { IsTrue result ↔ ElementMatches (IsLike resource.now) self.now.resources self.now.not_resources }
    {
        let all = self.texts.all();
        let not_resources = all.first(self.not_resource_count as usize);
        if not_resources.is_empty() {
            let others = all.behind(self.not_resource_count as usize);
            some_matches(others.first(self.resource_count as usize), alloc, resource)
        } else {
            !some_matches(not_resources, alloc, resource)
        }
    }

    /// A copy that equals its source.
    pub fn copy(&self) -> Result<ElementTexts, NoMemory>
        ensures { IfOk result (λ texts. texts ≡ self.now) }
    {
        Ok(ElementTexts {
            texts: self.texts.copy()?,
            not_resource_count: self.not_resource_count,
            resource_count: self.resource_count,
            action_count: self.action_count,
        })
    }
}
