ghost use Rattle.std.specs.Prelude.{◌≡◌, ◌≢◌, ◌↔◌, ◌||◌, ℕ, [], true, not, IsTrue, IfOk, MatchOption};
ghost use Rattle.std.specs.List.{list_all, list_any};
ghost use Rattle.kms_names.specs.GrantOps.{all_grant_ops, action_of, grant_op_name, contains, is_named, members, those, with_op, IsSubset};
ghost use Rattle.kms_names.specs.declared.operations.GrantOp.{GrantOp};

use crate::action_sets::ActionSet;
use crate::actions::Action;
use crate::faults::NoMemory;
use crate::texts::Text;
use std::marker::Model;

/// An operation that a grant may permit. The order is that in which they are printed.
#[derive(Clone, Copy)]
pub enum GrantOp {
    Encrypt,
    Decrypt,
    GenerateDataKey,
    GenerateDataKeyWithoutPlaintext,
    ReEncryptFrom,
    ReEncryptTo,
    CreateGrant,
    RetireGrant,
    DescribeKey,
    GenerateMac,
    VerifyMac,
}

impl GrantOp {
    /// All grant operations in order.
    pub const ALL: [GrantOp; 11] = [
        GrantOp::Encrypt,
        GrantOp::Decrypt,
        GrantOp::GenerateDataKey,
        GrantOp::GenerateDataKeyWithoutPlaintext,
        GrantOp::ReEncryptFrom,
        GrantOp::ReEncryptTo,
        GrantOp::CreateGrant,
        GrantOp::RetireGrant,
        GrantOp::DescribeKey,
        GrantOp::GenerateMac,
        GrantOp::VerifyMac,
    ];

    /// The operation of a name, exactly as it is printed; no memory is taken.
    pub fn read(text: &str) -> Option<GrantOp>
        ensures { MatchOption result ((op : GrantOp) → text.now ≢ grant_op_name op) (λ op. text.now ≡ grant_op_name op) }
    {
        match text {
            "Encrypt" => Some(GrantOp::Encrypt),
            "Decrypt" => Some(GrantOp::Decrypt),
            "GenerateDataKey" => Some(GrantOp::GenerateDataKey),
            "GenerateDataKeyWithoutPlaintext" => Some(GrantOp::GenerateDataKeyWithoutPlaintext),
            "ReEncryptFrom" => Some(GrantOp::ReEncryptFrom),
            "ReEncryptTo" => Some(GrantOp::ReEncryptTo),
            "CreateGrant" => Some(GrantOp::CreateGrant),
            "RetireGrant" => Some(GrantOp::RetireGrant),
            "DescribeKey" => Some(GrantOp::DescribeKey),
            "GenerateMac" => Some(GrantOp::GenerateMac),
            "VerifyMac" => Some(GrantOp::VerifyMac),
            _ => None,
        }
    }

    /// A copy that equals its source; no memory is taken.
    pub fn copy(&self) -> Result<GrantOp, NoMemory>
        ensures { IfOk result (λ x. x ≡ self.now) }
    {
        Ok(*self)
    }

    /// The action of the same name.
    pub fn action(self) -> Action
        ensures { result ≡ action_of self }
    {
        match self {
            GrantOp::Encrypt => Action::Encrypt,
            GrantOp::Decrypt => Action::Decrypt,
            GrantOp::GenerateDataKey => Action::GenerateDataKey,
            GrantOp::GenerateDataKeyWithoutPlaintext => Action::GenerateDataKeyWithoutPlaintext,
            GrantOp::ReEncryptFrom => Action::ReEncryptFrom,
            GrantOp::ReEncryptTo => Action::ReEncryptTo,
            GrantOp::CreateGrant => Action::CreateGrant,
            GrantOp::RetireGrant => Action::RetireGrant,
            GrantOp::DescribeKey => Action::DescribeKey,
            GrantOp::GenerateMac => Action::GenerateMac,
            GrantOp::VerifyMac => Action::VerifyMac,
        }
    }

    /// The printed name.
    pub fn name(self) -> &'static str
        ensures { result.now ≡ grant_op_name self }
    {
        self.action().name()
    }
}

/// A set of grant operations. Contracts see it as the set of their actions: a number whose bit at the number of an action
/// is set where its operation is in the set.
#[derive(Clone, Copy)]
pub struct GrantOps {
    actions: ActionSet,
}

impl Model for GrantOps {
    ghost Value = { ℕ };

    ghost view = { λ s. s.actions };

    ghost inverse = { λ n. record { actions = n } };
}

fn is_named(names: &[Text], op: GrantOp) -> bool
    ensures { result ≡ is_named names.now op }
{
    names.iter().any(|name| name.as_str() == op.name())
}

impl GrantOps {
    /// A copy that equals its source; no memory is taken.
    pub fn copy(&self) -> Result<GrantOps, NoMemory>
        ensures { IfOk result (λ x. x ≡ self.now) }
    {
        Ok(*self)
    }

    /// The empty set.
    pub fn new() -> GrantOps
        ensures zero { result ≡ 0 }
        ensures empty { members result ≡ [] }
    {
        GrantOps {
            actions: ActionSet::new(),
        }
    }

    /// The set of the operations that these texts name; a text that names none is passed over. No memory is taken.
    pub fn named(names: &[Text]) -> GrantOps
        ensures sum { result ≡ those (is_named names.now) }
        ensures each { (op : GrantOp) → contains result op ≡ is_named names.now op }
    {
        let mut ops = GrantOps::new();
        for op in GrantOp::ALL {
            if is_named(names, op) {
                ops.insert(op);
            }
        }
        ops
    }

    /// Whether an operation is in the set.
    pub fn contains(&self, op: GrantOp) -> bool
        ensures { result ≡ contains self.now op }
    {
        self.actions.contains(op.action())
    }

    /// Adds an operation.
    pub fn insert(&mut self, op: GrantOp)
        ensures sum { self.new ≡ with_op op self.old }
        ensures added { contains self.new op ≡ true }
        ensures others { (other : GrantOp) → other ≢ op → contains self.new other ≡ contains self.old other }
    {
        self.actions.insert(op.action());
    }

    /// Whether no operation is in the set.
    pub fn is_empty(&self) -> bool
        ensures { IsTrue result ↔ (members self.now ≡ []) }
    {
        !self.has_any()
    }

    fn has_any(&self) -> bool
        ensures { result ≡ list_any (contains self.now) all_grant_ops }
    {
        GrantOp::ALL.iter().any(|op| self.contains(*op))
    }

    /// Whether each operation of this set is in another.
    pub fn is_subset(&self, other: &GrantOps) -> bool
        ensures { IsTrue result ↔ IsSubset self.now other.now }
    {
        self.all_in(other)
    }

    fn all_in(&self, other: &GrantOps) -> bool
        ensures { result ≡ list_all (λ op. not (contains self.now op) || contains other.now op) all_grant_ops }
    {
        GrantOp::ALL
            .iter()
            .all(|op| !self.contains(*op) || other.contains(*op))
    }
}
