//! The constraints of grants.

ghost use Rattle.std.specs.Prelude.{◌≡◌, ◌↔◌, IsTrue, IfOk};
ghost use Rattle.grant_table.specs.Constraints.{constraint_holds, ConstraintHolds, is_as_strict, IsAsStrict, same_constraint};

use enc_context::Context;
use kms_names::NoMemory;

/// What a grant asks of the encryption context of a request (AWS KMS API Reference, "GrantConstraints").
#[derive(Drop)]
pub enum Constraint {
    /// Nothing.
    Free,
    /// That it is equal to this one (`EncryptionContextEquals`).
    Equals(Context),
    /// That it has all pairs of this one (`EncryptionContextSubset`).
    Subset(Context),
}

impl Constraint {
    /// Whether the constraint holds of an encryption context. No memory is taken.
    pub fn holds(&self, context: &Context) -> bool
        ensures told { IsTrue result ↔ ConstraintHolds self.now context.now }
        ensures test { result ≡ constraint_holds self.now context.now }
    {
        match self {
            Constraint::Free => true,
            Constraint::Equals(pairs) => context.equal(pairs),
            Constraint::Subset(pairs) => context.includes(pairs),
        }
    }

    /// Whether another constraint is as strict as this one: every one is where this is free; under `Equals` an equal
    /// `Equals`; under `Subset` a `Subset` or an `Equals` whose context has all of its pairs. No memory is taken.
    pub fn is_as_strict(&self, child: &Constraint) -> bool
        ensures told { IsTrue result ↔ IsAsStrict self.now child.now }
        ensures test { result ≡ is_as_strict self.now child.now }
    {
        match (self, child) {
            (Constraint::Free, _) => true,
            (Constraint::Equals(pairs), Constraint::Equals(others)) => others.equal(pairs),
            (Constraint::Subset(pairs), Constraint::Equals(others)) => others.includes(pairs),
            (Constraint::Subset(pairs), Constraint::Subset(others)) => others.includes(pairs),
            _ => false,
        }
    }

    /// Whether both constraints are the same: of one kind, with the same pairs. No memory is taken.
    pub fn equal(&self, other: &Constraint) -> bool
        ensures told { IsTrue result ↔ (self.now ≡ other.now) }
        ensures test { result ≡ same_constraint self.now other.now }
    {
        match (self, other) {
            (Constraint::Free, Constraint::Free) => true,
            (Constraint::Equals(pairs), Constraint::Equals(others)) => pairs.equal(others),
            (Constraint::Subset(pairs), Constraint::Subset(others)) => pairs.equal(others),
            _ => false,
        }
    }

    /// A copy that equals its source.
    pub fn copy(&self) -> Result<Constraint, NoMemory>
        ensures { IfOk result (λ constraint. constraint ≡ self.now) }
    {
        match self {
            Constraint::Free => Ok(Constraint::Free),
            Constraint::Equals(context) => Ok(Constraint::Equals(context.copy()?)),
            Constraint::Subset(context) => Ok(Constraint::Subset(context.copy()?)),
        }
    }
}
