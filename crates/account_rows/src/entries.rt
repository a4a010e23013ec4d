//! Entries of the history.

ghost use Rattle.std.specs.Prelude.{◌≡◌, ◌+◌, length, min, IfOk};
ghost use Rattle.account_rows.specs.Sizes.{size_of, name_size, retiring_size, constraint_size, tags_size, texts_size};

use grant_table::{Constraint, copy_of_name, copy_of_principal};
use hmac_keys::KeyKind;
use kms_names::{
    AliasName, GrantId, GrantOps, KeyId, NoMemory, Principal, Text, TextList, principal_len,
};
use resource_tags::TagList;

/// What an entry did.
pub enum What {
    /// A key of this id and kind was made, with this description and policy, and with these tags.
    CreateKey {
        key: KeyId,
        kind: KeyKind,
        description: Text,
        policy: Text,
        tags: TagList,
    },
    /// A key was enabled.
    Enable {
        key: KeyId,
    },
    /// A key was disabled.
    Disable {
        key: KeyId,
    },
    /// The deletion of a key was scheduled.
    Schedule {
        key: KeyId,
        /// When it is deleted, in seconds since 1970.
        date: u64,
        /// The waiting period that was asked for, in days.
        days: u32,
    },
    /// The deletion of a key was cancelled, which leaves it disabled.
    Cancel {
        key: KeyId,
    },
    /// Automatic rotation of a key was turned on, with this period in days.
    RotationOn {
        key: KeyId,
        period: u32,
    },
    /// Automatic rotation of a key was turned off.
    RotationOff {
        key: KeyId,
    },
    /// A key was rotated on demand.
    RotateNow {
        key: KeyId,
    },
    /// A key was given another policy.
    Policy {
        key: KeyId,
        text: Text,
    },
    /// A key was given another description.
    Description {
        key: KeyId,
        text: Text,
    },
    /// A key was given tags, each in place of that of its key, if there was one.
    Tag {
        key: KeyId,
        tags: TagList,
    },
    /// The tags of these keys were taken from a key.
    Untag {
        key: KeyId,
        keys: TextList,
    },
    /// An alias was made, or an alias of this name was given another key.
    AliasPut {
        name: AliasName,
        key: KeyId,
    },
    /// An alias was deleted.
    AliasDrop {
        name: AliasName,
    },
    /// A grant of this id was made.
    GrantAdd {
        grant: GrantId,
        key: KeyId,
        grantee: Principal,
        retiring: Option<Principal>,
        operations: GrantOps,
        constraint: Constraint,
        name: Option<Text>,
    },
    /// A grant was retired or revoked.
    GrantDrop {
        grant: GrantId,
    },
    /// Housekeeping: keys whose date of deletion has come were removed with their aliases and grants, and keys whose automatic rotation was due were rotated.
    House,
}

// Each crate that lets an entry go calls this one drop, and doesn't take it apart itself.
impl Drop for What {
    fn drop(self) {
        match self {
            What::CreateKey {
                key: _,
                kind: _,
                description: _,
                policy: _,
                tags: _,
            } => {}
            What::Enable { key: _ } => {}
            What::Disable { key: _ } => {}
            What::Schedule {
                key: _,
                date: _,
                days: _,
            } => {}
            What::Cancel { key: _ } => {}
            What::RotationOn { key: _, period: _ } => {}
            What::RotationOff { key: _ } => {}
            What::RotateNow { key: _ } => {}
            What::Policy { key: _, text: _ } => {}
            What::Description { key: _, text: _ } => {}
            What::Tag { key: _, tags: _ } => {}
            What::Untag { key: _, keys: _ } => {}
            What::AliasPut { name: _, key: _ } => {}
            What::AliasDrop { name: _ } => {}
            What::GrantAdd {
                grant: _,
                key: _,
                grantee: _,
                retiring: _,
                operations: _,
                constraint: _,
                name: _,
            } => {}
            What::GrantDrop { grant: _ } => {}
            What::House => {}
        }
    }
}

/// How many bytes each entry counts beside its texts.
const ENTRY: u64 = 64;

// The number with some bytes more.
fn with_bytes(bytes: u64, more: usize) -> u64
    ensures { result ≡ min (bytes + more) 18446744073709551615 }
{
    bytes.saturating_add(more as u64)
}

// The number with the bytes of a text.
fn with_text(bytes: u64, text: &Text) -> u64
    ensures { result ≡ min (bytes + length text.now) 18446744073709551615 }
{
    with_bytes(bytes, text.as_str().len())
}

// The number with the bytes of the keys and values of tags.
fn with_tags(bytes: u64, tags: &TagList) -> u64
    ensures { result ≡ min (bytes + tags_size tags.now) 18446744073709551615 }
{
    let mut all = bytes;
    for tag in tags.as_slice() {
        all = with_text(with_text(all, &tag.key), &tag.value);
    }
    all
}

// The number with the bytes of texts.
fn with_texts(bytes: u64, texts: &TextList) -> u64
    ensures { result ≡ min (bytes + texts_size texts.now) 18446744073709551615 }
{
    let mut all = bytes;
    for text in texts.as_slice() {
        all = with_text(all, text);
    }
    all
}

// The bytes of a grant's name, where it has one.
fn name_size(name: &Option<Text>) -> usize
    ensures { result ≡ name_size name.now }
{
    match name {
        Some(name) => name.as_str().len(),
        None => 0,
    }
}

// The bytes of the printed ARN of a retiring principal, where there is one.
fn retiring_size(retiring: &Option<Principal>) -> usize
    ensures { result ≡ retiring_size retiring.now }
{
    match retiring {
        Some(retiring) => principal_len(retiring),
        None => 0,
    }
}

// The bytes of the encoded context of a constraint.
fn constraint_size(constraint: &Constraint) -> usize
    ensures { result ≡ constraint_size constraint.now }
{
    match constraint {
        Constraint::Free => 0,
        Constraint::Equals(context) | Constraint::Subset(context) => context.encoded_len(),
    }
}

impl What {
    /// A copy that equals its source.
    pub fn copy(&self) -> Result<What, NoMemory>
        ensures { IfOk result (λ what. what ≡ self.now) }
    {
        Ok(match self {
            What::CreateKey {
                key,
                kind,
                description,
                policy,
                tags,
            } => What::CreateKey {
                key: *key,
                kind: *kind,
                description: description.copy()?,
                policy: policy.copy()?,
                tags: tags.copy()?,
            },
            What::Enable { key } => What::Enable { key: *key },
            What::Disable { key } => What::Disable { key: *key },
            What::Schedule { key, date, days } => What::Schedule {
                key: *key,
                date: *date,
                days: *days,
            },
            What::Cancel { key } => What::Cancel { key: *key },
            What::RotationOn { key, period } => What::RotationOn {
                key: *key,
                period: *period,
            },
            What::RotationOff { key } => What::RotationOff { key: *key },
            What::RotateNow { key } => What::RotateNow { key: *key },
            What::Policy { key, text } => What::Policy {
                key: *key,
                text: text.copy()?,
            },
            What::Description { key, text } => What::Description {
                key: *key,
                text: text.copy()?,
            },
            What::Tag { key, tags } => What::Tag {
                key: *key,
                tags: tags.copy()?,
            },
            What::Untag { key, keys } => What::Untag {
                key: *key,
                keys: keys.copy()?,
            },
            What::AliasPut { name, key } => What::AliasPut {
                name: name.copy()?,
                key: *key,
            },
            What::AliasDrop { name } => What::AliasDrop { name: name.copy()? },
            What::GrantAdd {
                grant,
                key,
                grantee,
                retiring,
                operations,
                constraint,
                name,
            } => What::GrantAdd {
                grant: *grant,
                key: *key,
                grantee: grantee.copy()?,
                retiring: copy_of_principal(retiring)?,
                operations: *operations,
                constraint: constraint.copy()?,
                name: copy_of_name(name)?,
            },
            What::GrantDrop { grant } => What::GrantDrop { grant: *grant },
            What::House => What::House,
        })
    }

    /// How many bytes it counts: 64, and those of its texts, of its names, of the printed ARNs of a grant's principals, of
    /// the encoded context of its constraint, of the keys and values of its tags, and of the keys of the tags that it drops,
    /// or as many as a u64 can say. No memory is taken.
    pub fn size(&self) -> u64
        ensures { result ≡ min (size_of self.now) 18446744073709551615 }
    {
        match self {
            What::CreateKey {
                description,
                policy,
                tags,
                ..
            } => with_tags(with_text(with_text(ENTRY, description), policy), tags),
            What::Policy { text, .. } | What::Description { text, .. } => with_text(ENTRY, text),
            What::Tag { tags, .. } => with_tags(ENTRY, tags),
            What::Untag { keys, .. } => with_texts(ENTRY, keys),
            What::AliasPut { name, .. } | What::AliasDrop { name } => {
                with_bytes(ENTRY, name.as_str().len())
            }
            What::GrantAdd {
                grantee,
                retiring,
                constraint,
                name,
                ..
            } => {
                let bytes = with_bytes(ENTRY, name_size(name));
                let bytes = with_bytes(bytes, principal_len(grantee));
                let bytes = with_bytes(bytes, retiring_size(retiring));
                with_bytes(bytes, constraint_size(constraint))
            }
            _ => ENTRY,
        }
    }
}

/// An entry of the history.
#[derive(Drop)]
pub struct Entry {
    /// When it was made, in seconds since 1970. Times never fall along a history.
    pub time: u64,
    /// What was done.
    pub what: What,
}

impl Entry {
    /// A copy that equals its source.
    pub fn copy(&self) -> Result<Entry, NoMemory>
        ensures { IfOk result (λ entry. entry ≡ self.now) }
    {
        Ok(Entry {
            time: self.time,
            what: self.what.copy()?,
        })
    }
}
