// Marks.
ghost use Rattle.std.specs.Prelude.{◌≡◌, ◌↔◌, IsTrue};

use std::marker::Model;

/// What became of a statement or of a grant where a question was asked of it.
#[derive(Clone, Copy, PartialEq, Eq)]
pub enum Mark {
    /// The statement matches, or the grant permits. A statement of a key's policy also names
    /// everyone or the caller, or denies and names the root of the caller's account.
    Hit,
    /// Of a key's policy: an Allow statement matches, and names the root of the caller's account,
    /// but neither everyone nor the caller. So the caller's own policies may allow it.
    RootHit,
    /// A statement of a key's policy names none of everyone, the caller and the root of its
    /// account; a grant has another grantee.
    Principal,
    /// The action isn't one that the statement is about; the operation isn't among the grant's.
    Action,
    /// The resource isn't one that the statement is about.
    Resource,
    /// A condition of the statement doesn't hold; the grant's constraint doesn't hold of the
    /// encryption context, or what is asked for wouldn't be a child of the grant.
    Condition,
}

/// A list of marks.
#[derive(Drop)]
pub struct MarkList {
    items: Vec<Mark>,
}

impl Model for MarkList {
    ghost use Rattle.std.specs.Prelude.{List};
    ghost use Rattle.access_explain.specs.declared.marks.Mark.{Mark as MarkValue};

    ghost Value = { List MarkValue };

    ghost view = { λ l. l.items.items };
}

impl MarkList {
    /// The list of a vector's marks; no memory is taken.
    pub fn new(items: Vec<Mark>) -> MarkList
        ensures { result ≡ items.items }
    {
        MarkList { items }
    }

    /// The marks in order.
    pub fn as_slice(&self) -> &[Mark]
        ensures { result.now ≡ self.now }
    {
        self.items.as_slice()
    }

    /// Whether both are the same marks in the same order.
    pub fn equal(&self, other: &MarkList) -> bool
        ensures { IsTrue result ↔ (self.now ≡ other.now) }
    {
        same_marks(self.items.as_slice(), other.items.as_slice())
    }
}

fn same_marks(one: &[Mark], other: &[Mark]) -> bool
    ensures { IsTrue result ↔ (one.now ≡ other.now) }
{
    one == other
}
