// The operations on the state, the rotation and the description of a key.
ghost use Rattle.std.specs.Prelude.{◌≡◌, ◌<◌, ◌≤◌, IfOk};
ghost use Rattle.kms_names.specs.Moment.{year_10000};
ghost use Rattle.account_keys.specs.KeyChanges.{action_of, said_of, refused_for, done_at, reply_of, rotation_of, changes_key, gets_rotation_status};

use account_rows::{Lent, What, days_after};
use account_steps::{
    Changes, LentText, Made, Questions, Reads, Request, Stop, Uses, View, of_key, only_key_of,
    refuse, unrotated,
};
use authority::Particulars;
use draw_lines::DrawLine;
use hmac_keys::KeyKind;
use key_states::{KeyRow, Stored};
use kms_json::{AutomaticRotation, Refusal, Reply};
use kms_names::{Action, NoMemory, Text};
use std::alloc::Global;

/// What is done to the state or the rotation of a key.
#[derive(Drop)]
pub enum KeyChange<'a> {
    /// EnableKey.
    Enable,
    /// DisableKey.
    Disable,
    /// ScheduleKeyDeletion, with a waiting period of 7 to 30 days.
    ScheduleDeletion { days: u32 },
    /// CancelKeyDeletion.
    CancelDeletion,
    /// EnableKeyRotation, with a period of 90 to 2,560 days.
    RotateEvery { period: u32 },
    /// DisableKeyRotation.
    RotateNoMore,
    /// RotateKeyOnDemand.
    RotateNow,
    /// UpdateKeyDescription, with the new description.
    Describe { text: LentText<'a> },
}

impl KeyChange<'_> {
    // What it is called where it is authorized.
    fn action(&self) -> Action
        ensures { result ≡ action_of self.now }
    {
        match self {
            KeyChange::Enable => Action::EnableKey,
            KeyChange::Disable => Action::DisableKey,
            KeyChange::ScheduleDeletion { .. } => Action::ScheduleKeyDeletion,
            KeyChange::CancelDeletion => Action::CancelKeyDeletion,
            KeyChange::RotateEvery { .. } => Action::EnableKeyRotation,
            KeyChange::RotateNoMore => Action::DisableKeyRotation,
            KeyChange::RotateNow => Action::RotateKeyOnDemand,
            KeyChange::Describe { .. } => Action::UpdateKeyDescription,
        }
    }

    // What it says to conditions, beside the key.
    fn said<'a>(&self, of_key: Particulars<'a>) -> Particulars<'a>
        ensures { result ≡ said_of self.now of_key.entry }
    {
        match self {
            KeyChange::ScheduleDeletion { days } => Particulars {
                window: Some(*days),
                ..of_key
            },
            KeyChange::RotateEvery { period } => Particulars {
                period: Some(*period),
                ..of_key
            },
            _ => of_key,
        }
    }

    // The refusal of a rotation, of a key whose material isn't rotated.
    fn refused_for(&self, kind: KeyKind) -> Option<Refusal>
        ensures { result ≡ refused_for self.now kind }
    {
        match self {
            KeyChange::RotateEvery { .. } | KeyChange::RotateNoMore | KeyChange::RotateNow => {
                unrotated(kind)
            }
            _ => None,
        }
    }
}

// What is done at a moment, where there is something to do.
fn done_at(row: &KeyRow, moment: u64, change: &KeyChange<'_>) -> Result<Option<What>, NoMemory>
    requires { moment < year_10000 }
    ensures { IfOk result (λ did. did ≡ done_at moment row.now change.now) }
{
    let key = row.key;
    Ok(match change {
        KeyChange::Enable if row.stored == Stored::Enabled => None,
        KeyChange::Enable => Some(What::Enable { key }),
        KeyChange::Disable if row.stored == Stored::Disabled => None,
        KeyChange::Disable => Some(What::Disable { key }),
        KeyChange::ScheduleDeletion { days } => Some(What::Schedule {
            key,
            date: days_after(moment, *days),
            days: *days,
        }),
        KeyChange::CancelDeletion => Some(What::Cancel { key }),
        KeyChange::RotateEvery { period } if row.period == Some(*period) => None,
        KeyChange::RotateEvery { period } => Some(What::RotationOn {
            key,
            period: *period,
        }),
        KeyChange::RotateNoMore if row.period.is_none() => None,
        KeyChange::RotateNoMore => Some(What::RotationOff { key }),
        KeyChange::RotateNow => Some(What::RotateNow { key }),
        KeyChange::Describe { text } => Some(What::Description {
            key,
            text: text.text().copy()?,
        }),
    })
}

/// One of the operations on a key's state or rotation.
#[derive(Drop)]
pub struct ChangingKey<'a> {
    /// What its steps go by.
    pub view: &'a View<'a>,
    /// The reference to the key.
    pub key_id: &'a Text,
    /// What is done to the key.
    pub change: KeyChange<'a>,
}

impl<'a> ChangingKey<'a> {
    ghost use Rattle.std.specs.Prelude.{◌≡◌, IfOk};
    ghost use Rattle.account_keys.specs.KeyChanges.{reply_of};

    // The reply.
    fn reply(&self, alloc: Global, row: &KeyRow) -> Result<Reply, NoMemory>
        ensures { IfOk result (λ reply. reply ≡ reply_of self.now.view.now row.now self.now.change) }
    {
        let arn = self.view.arn(alloc, &row.key)?;
        Ok(match &self.change {
            KeyChange::ScheduleDeletion { days } => Reply::DeletionScheduled {
                arn,
                deletion_date: days_after(self.view.moment(), *days),
                days: u64::from(*days),
            },
            KeyChange::CancelDeletion => Reply::DeletionCancelled { arn },
            KeyChange::RotateNow => Reply::Rotated { key: row.key },
            _ => Reply::Done,
        })
    }
}

impl<'a> Request for ChangingKey<'a> {
    type Found = Lent<'a>;

    type Ready = ();

    ghost seen = { λ op. op.view.now };

    ghost parts = { λ op. (changes_key op.view.now op.key_id.now op.change).parts };

    fn view(&self) -> &View<'_> {
        self.view
    }

    fn find(&self, alloc: Global) -> Result<Lent<'a>, Stop> {
        only_key_of(alloc, self.view, self.key_id)
    }

    fn questions<'q>(&'q self, found: &'q Lent<'a>) -> Questions<'q> {
        let said = self.change.said(of_key(self.view, found.row()));
        Questions::on_key(self.change.action(), found, said)
    }

    fn tokens(&self) -> &[Text] {
        &[]
    }

    fn fit(&self, alloc: Global, found: &Lent<'a>) -> Result<(), Stop> {
        self.view.fit(alloc, self.change.action(), found)
    }

    fn own(&self, _alloc: Global, found: &Lent<'a>) -> Result<(), Stop> {
        refuse(self.change.refused_for(found.row().kind))
    }

    fn dry_run(&self) -> bool {
        false
    }
}

impl<'a> Changes for ChangingKey<'a> {
    ghost does = { λ op. (changes_key op.view.now op.key_id.now op.change).does };

    fn make(&self, alloc: Global, found: Lent<'a>, _ready: ()) -> Result<Made, NoMemory> {
        let row = found.row();
        Ok(Made {
            reply: self.reply(alloc, row)?,
            what: done_at(row, self.view.moment(), &self.change)?,
        })
    }
}

// The next automatic rotation, and its period.
fn rotation_of(row: &KeyRow) -> Option<AutomaticRotation>
    ensures { result ≡ rotation_of row.now }
{
    match row.period {
        Some(period) => Some(AutomaticRotation {
            next: row.next,
            period,
        }),
        None => None,
    }
}

/// GetKeyRotationStatus.
#[derive(Drop)]
pub struct GettingRotationStatus<'a> {
    /// What its steps go by.
    pub view: &'a View<'a>,
    /// The reference to the key.
    pub key_id: &'a Text,
}

impl<'a> Request for GettingRotationStatus<'a> {
    type Found = Lent<'a>;

    type Ready = ();

    ghost seen = { λ op. op.view.now };

    ghost parts = { λ op. (gets_rotation_status op.view.now op.key_id.now).parts };

    fn view(&self) -> &View<'_> {
        self.view
    }

    fn find(&self, alloc: Global) -> Result<Lent<'a>, Stop> {
        only_key_of(alloc, self.view, self.key_id)
    }

    fn questions<'q>(&'q self, found: &'q Lent<'a>) -> Questions<'q> {
        let said = of_key(self.view, found.row());
        Questions::on_key(Action::GetKeyRotationStatus, found, said)
    }

    fn tokens(&self) -> &[Text] {
        &[]
    }

    fn fit(&self, alloc: Global, found: &Lent<'a>) -> Result<(), Stop> {
        self.view.fit(alloc, Action::GetKeyRotationStatus, found)
    }

    fn own(&self, _alloc: Global, found: &Lent<'a>) -> Result<(), Stop> {
        refuse(unrotated(found.row().kind))
    }

    fn dry_run(&self) -> bool {
        false
    }
}

impl<'a> Reads for GettingRotationStatus<'a> {
    ghost takes = { λ op. (gets_rotation_status op.view.now op.key_id.now).takes };

    fn uses(&self) -> Uses {
        Uses::NOTHING
    }

    fn serve(
        &self,
        _alloc: Global,
        found: Lent<'a>,
        _ready: (),
        _line: &mut DrawLine,
    ) -> Result<Reply, NoMemory> {
        let row = found.row();
        Ok(Reply::RotationStatus {
            key: row.key,
            rotation: rotation_of(row),
        })
    }
}
