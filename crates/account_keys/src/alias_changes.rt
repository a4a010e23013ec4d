// The operations on aliases: CreateAlias, UpdateAlias and DeleteAlias.
ghost use Rattle.std.specs.Prelude.{◌≡◌};
ghost use Rattle.account_keys.specs.Aliases.{action_of, changes_alias};

use account_rows::{Lent, What};
use account_steps::{
    Asking, Changes, LentAlias, LentText, Made, Questions, Request, Stop, View, key_of_alias,
    of_key, only_key_of, refuse,
};
use kms_json::{Refusal, Reply};
use kms_names::{Action, AliasName, NoMemory, Text};
use std::alloc::Global;

/// What is done to an alias.
#[derive(Drop)]
pub enum AliasChange<'a> {
    /// It is made, to name the key that this text refers to.
    Create { key_id: LentText<'a> },
    /// It names from now on the key that this text refers to.
    Update { key_id: LentText<'a> },
    /// It is deleted.
    Delete,
}

/// The keys of an alias.
#[derive(Drop)]
pub struct Moving<'a> {
    /// The key that it names before, if any.
    pub old: Option<Lent<'a>>,
    /// The key that it names then, if any.
    pub new: Option<Lent<'a>>,
}

impl AliasChange<'_> {
    // What it is called where it is authorized.
    fn action(&self) -> Action
        ensures { result ≡ action_of self.now }
    {
        match self {
            AliasChange::Create { .. } => Action::CreateAlias,
            AliasChange::Update { .. } => Action::UpdateAlias,
            AliasChange::Delete => Action::DeleteAlias,
        }
    }
}

/// One of the operations on an alias.
#[derive(Drop)]
pub struct ChangingAlias<'a> {
    /// What its steps go by.
    pub view: &'a View<'a>,
    /// The alias.
    pub name: &'a AliasName,
    /// What is done to it.
    pub change: AliasChange<'a>,
}

impl<'a> ChangingAlias<'a> {
    ghost use Rattle.std.specs.Prelude.{◌≡◌, IfOk};
    ghost use Rattle.account_steps.specs.Authority.{asked_if};
    ghost use Rattle.account_keys.specs.Aliases.{action_of, question_on, taken, done_to};

    // Whether the caller may do it on a key, where there is one.
    fn question_on<'q>(&'q self, key: &'q Option<Lent<'a>>) -> Option<Asking<'q>>
        ensures { asked_if self.now.view.now result ≡ question_on self.now.view.now (action_of self.now.change) key.now }
    {
        match key {
            Some(lent) => {
                let said = of_key(self.view, lent.row());
                Some(Asking::on_key(self.change.action(), lent, said))
            }
            None => None,
        }
    }

    // The refusal of an alias that is there already.
    fn taken(&self) -> Option<Refusal>
        ensures { result ≡ taken self.now.view.now self.now.name.now self.now.change }
    {
        match &self.change {
            AliasChange::Create { .. } if self.view.aliased(self.name).is_some() => {
                Some(Refusal::AlreadyExists)
            }
            _ => None,
        }
    }

    // What is appended.
    fn done_to(&self, key: &Option<Lent<'a>>) -> Result<What, NoMemory>
        ensures { IfOk result (λ what. what ≡ done_to self.now.name.now key.now) }
    {
        let name = self.name.copy()?;
        Ok(match key {
            Some(lent) => What::AliasPut {
                name,
                key: lent.row().key,
            },
            None => What::AliasDrop { name },
        })
    }
}

impl<'a> Request for ChangingAlias<'a> {
    type Found = Moving<'a>;

    type Ready = ();

    ghost seen = { λ op. op.view.now };

    ghost parts = { λ op. (changes_alias op.view.now op.name.now op.change).parts };

    fn view(&self) -> &View<'_> {
        self.view
    }

    fn find(&self, alloc: Global) -> Result<Moving<'a>, Stop> {
        let old = match &self.change {
            AliasChange::Create { .. } => None,
            AliasChange::Update { .. } | AliasChange::Delete => {
                Some(key_of_alias(self.view, self.name)?)
            }
        };
        let new = match &self.change {
            AliasChange::Create { key_id } | AliasChange::Update { key_id } => {
                Some(only_key_of(alloc, self.view, key_id.text())?)
            }
            AliasChange::Delete => None,
        };
        Ok(Moving { old, new })
    }

    fn questions<'q>(&'q self, found: &'q Moving<'a>) -> Questions<'q> {
        Questions {
            first: Asking::OnAlias {
                action: self.change.action(),
                alias: LentAlias::new(self.name),
            },
            second: self.question_on(&found.old),
            third: self.question_on(&found.new),
        }
    }

    fn tokens(&self) -> &[Text] {
        &[]
    }

    fn fit(&self, alloc: Global, found: &Moving<'a>) -> Result<(), Stop> {
        match &found.new {
            Some(lent) => self.view.fit(alloc, self.change.action(), lent),
            None => Ok(()),
        }
    }

    fn own(&self, _alloc: Global, _found: &Moving<'a>) -> Result<(), Stop> {
        refuse(self.taken())
    }

    fn dry_run(&self) -> bool {
        false
    }
}

impl<'a> Changes for ChangingAlias<'a> {
    ghost does = { λ op. (changes_alias op.view.now op.name.now op.change).does };

    fn make(&self, _alloc: Global, found: Moving<'a>, _ready: ()) -> Result<Made, NoMemory> {
        Ok(Made {
            reply: Reply::Done,
            what: Some(self.done_to(&found.new)?),
        })
    }
}
