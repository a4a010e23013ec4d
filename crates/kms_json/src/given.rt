// What a body gives to a field, by its form.
ghost use Rattle.std.specs.Prelude.{◌≡◌};
ghost use Rattle.kms_json.specs.Given.{text_if, text_in, texts_in, bytes_in, context_in, pairs_in, constraint_in, tags_in, number_in, number_or, flag_in, is_there, operations_named};

use crate::asks::GrantConstraint;
use enc_context::Context;
use kms_names::{Bytes, GrantOps, Text, TextList};
use resource_tags::{Tag, TagList};
use std::alloc::Global;

/// What a member is to its field.
#[derive(Drop)]
pub enum Given {
    /// It isn't there, or is null.
    Absent,
    /// A text.
    Text(Text),
    /// The bytes of a base64 text.
    Bytes(Bytes),
    /// A context, or none where its encoding has more than 8,192 bytes.
    Context(Option<Context>),
    /// The constraint of a grant, or none where it is two, or its encoding has more than 4,096 bytes.
    Constraint(Option<GrantConstraint>),
    /// A list of tags, or none where one lacks its key or its value.
    Tags(Option<TagList>),
    /// A list of texts.
    Texts(TextList),
    /// A whole number, or none where it is negative.
    Whole(Option<u64>),
    /// A truth value.
    Flag(bool),
    /// It is given, and nothing more is asked of it.
    Something,
}

impl Given {
    ghost use Rattle.std.specs.Prelude.{◌≡◌};
    ghost use Rattle.std.specs.Prelude.{is_some, option_map};
    ghost use Rattle.kms_json.specs.Given.{is_absent, is_there, text_in, bytes_in, context_in, whole_in, constraint_if, tags_if, texts_in};

    /// Whether the member isn't given.
    pub fn is_absent(&self) -> bool
        ensures { result ≡ is_absent self.now }
    {
        matches!(self, Given::Absent)
    }

    /// Whether the member is given.
    pub fn is_there(&self) -> bool
        ensures { result ≡ is_there self.now }
    {
        !self.is_absent()
    }

    /// The text, or the empty text where it is no text.
    pub fn text(&self) -> &str
        ensures { result.now ≡ text_in self.now }
    {
        match self {
            Given::Text(text) => text.as_str(),
            _ => "",
        }
    }

    /// The bytes, or none where it is no bytes.
    pub fn bytes(&self) -> &[u8]
        ensures { result.now ≡ bytes_in self.now }
    {
        match self {
            Given::Bytes(bytes) => bytes.as_slice(),
            _ => &[],
        }
    }

    /// The number, if it is one that isn't negative.
    pub fn whole(&self) -> Option<u64>
        ensures { result ≡ whole_in self.now }
    {
        match self {
            Given::Whole(number) => *number,
            _ => None,
        }
    }

    /// Whether it is a context that isn't too long.
    pub fn has_context(&self) -> bool
        ensures { result ≡ is_some (context_in self.now) }
    {
        match self {
            Given::Context(Some(_)) => true,
            _ => false,
        }
    }

    /// Whether it is a grant's constraint that is one and isn't too long.
    pub fn has_constraint(&self) -> bool
        ensures { result ≡ is_some (constraint_if self.now) }
    {
        match self {
            Given::Constraint(Some(_)) => true,
            _ => false,
        }
    }

    /// The tags, if it is a list of tags that all have their keys and values.
    pub fn tags(&self) -> Option<&[Tag]>
        ensures { option_map (λ tags. tags.now) result ≡ tags_if self.now }
    {
        match self {
            Given::Tags(Some(tags)) => Some(tags.as_slice()),
            _ => None,
        }
    }

    /// The texts, or none where it is no list of texts.
    pub fn texts(&self) -> &[Text]
        ensures { result.now ≡ texts_in self.now }
    {
        match self {
            Given::Texts(texts) => texts.as_slice(),
            _ => &[],
        }
    }
}

/// The text, or the empty text where it is no text.
pub fn text_in(alloc: Global, value: Given) -> Text
    ensures { result ≡ text_in value }
{
    match value {
        Given::Text(text) => text,
        _ => Text::from_string(String::new(alloc)),
    }
}

/// The text, if it is one.
pub fn text_if(value: Given) -> Option<Text>
    ensures { result ≡ text_if value }
{
    match value {
        Given::Text(text) => Some(text),
        _ => None,
    }
}

/// The bytes, or none where it is no bytes.
pub fn bytes_in(alloc: Global, value: Given) -> Bytes
    ensures { result ≡ bytes_in value }
{
    match value {
        Given::Bytes(bytes) => bytes,
        _ => Bytes::new(Vec::new(alloc)),
    }
}

/// The texts, or none where it is no list of texts.
pub fn texts_in(alloc: Global, value: Given) -> TextList
    ensures { result ≡ texts_in value }
{
    match value {
        Given::Texts(texts) => texts,
        _ => TextList::new(Vec::new(alloc)),
    }
}

/// The constraint, or the one that asks nothing where it is none.
pub fn constraint_in(value: Given) -> GrantConstraint
    ensures { result ≡ constraint_in value }
{
    match value {
        Given::Constraint(Some(constraint)) => constraint,
        _ => GrantConstraint::Free,
    }
}

/// The tags, or none where it is no list of tags. No memory is taken.
pub fn tags_in(alloc: Global, value: Given) -> TagList
    ensures { result ≡ tags_in value }
{
    match value {
        Given::Tags(Some(tags)) => tags,
        _ => TagList::new(Vec::new(alloc)),
    }
}

/// The set of the operations that are named. No memory is taken.
pub fn operations_in(value: Given) -> GrantOps
    ensures { result ≡ operations_named (texts_in value) }
{
    GrantOps::named(value.texts())
}

/// The context, if it is one that isn't too long.
pub fn context_if(value: Given) -> Option<Context>
    ensures { result ≡ context_in value }
{
    match value {
        Given::Context(context) => context,
        _ => None,
    }
}

/// The context, or the one without pairs where it is no context. No memory is taken.
pub fn context_in(alloc: Global, value: Given) -> Context
    ensures { result ≡ pairs_in value }
{
    match value {
        Given::Context(Some(context)) => context,
        _ => Context::new(alloc),
    }
}

/// The number, or this one where it is none.
pub fn number_or(value: Given, default: u64) -> u64
    ensures { result ≡ number_or value default }
{
    match value {
        Given::Whole(Some(number)) => number,
        _ => default,
    }
}

/// The number, or 0 where it is none.
pub fn number_in(value: Given) -> u64
    ensures { result ≡ number_in value }
{
    number_or(value, 0)
}

/// Whether the member is given.
pub fn is_given(value: Given) -> bool
    ensures { result ≡ is_there value }
{
    value.is_there()
}

/// The truth value, or false where it is none.
pub fn flag_in(value: Given) -> bool
    ensures { result ≡ flag_in value }
{
    match value {
        Given::Flag(flag) => flag,
        _ => false,
    }
}
