// The operations that list.
ghost use Rattle.std.specs.Prelude.{◌≡◌, IfOk};
ghost use Rattle.account_steps.specs.Steps.{Gives};
ghost use Rattle.account_steps.specs.Given.{principal_if_given};
ghost use Rattle.account_lists.specs.Lists.{action_in, key_id_if_given, lists_in, grant_id_if_given, lists_on};

use crate::listings::{
    AliasesListed, AliasesOfKey, GrantsOfKey, KeysListed, RetirableGrants, RotationsOf,
};
use crate::pages::{Part, behind_marker, part_behind};
use account_rows::Lent;
use account_steps::{
    Asking, LentText, Questions, Reads, Request, Stop, Uses, View, grant_id_in, of_key, of_none,
    only_key_of, principal_in, refuse, unrotated,
};
use draw_lines::DrawLine;
use hmac_keys::KeyKind;
use kms_json::{
    AliasList, AliasPage, GrantList, GrantPage, KeyIdList, KeyPage, ListedAlias, Page, Refusal,
    Reply, RotationList, RotationPage,
};
use kms_names::{Action, GrantId, KeyId, NoMemory, Principal, Text};
use std::alloc::Global;

/// A list of the account.
#[derive(Drop)]
pub enum AccountList<'a> {
    /// Its keys.
    Keys,
    /// Its aliases, or those of the key that a text refers to.
    Aliases { key_id: Option<LentText<'a>> },
    /// Its grants that a principal may retire, by the principal's ARN.
    RetirableGrants { retiring: LentText<'a> },
}

/// Whose rows are listed.
#[derive(Drop)]
pub enum ListedIn {
    /// Those of all keys.
    Keys,
    /// The aliases of all keys, or of one.
    Aliases(Option<KeyId>),
    /// The grants of a retiring principal.
    Grants(Principal),
}

impl AccountList<'_> {
    // What it is called where it is authorized.
    fn action(&self) -> Action
        ensures { result ≡ action_in self.now }
    {
        match self {
            AccountList::Keys => Action::ListKeys,
            AccountList::Aliases { .. } => Action::ListAliases,
            AccountList::RetirableGrants { .. } => Action::ListRetirableGrants,
        }
    }
}

// The id of the key that a text refers to, where one is given.
fn key_id_if_given(
    alloc: Global,
    view: &View<'_>,
    reference: &Option<LentText<'_>>,
) -> Result<Option<KeyId>, Stop>
    ensures { Gives (key_id_if_given view.now reference.now) result }
{
    match reference {
        Some(reference) => Ok(Some(only_key_of(alloc, view, reference.text())?.row().key)),
        None => Ok(None),
    }
}

/// ListKeys, ListAliases or ListRetirableGrants.
#[derive(Drop)]
pub struct ListingAccount<'a> {
    /// What its steps go by.
    pub view: &'a View<'a>,
    /// What is listed.
    pub what: AccountList<'a>,
    /// Which part.
    pub page: &'a Page,
}

impl<'a> ListingAccount<'a> {
    ghost use Rattle.std.specs.Prelude.{◌≡◌, IfOk, filter, map};
    ghost use Rattle.account_lists.specs.Pages.{part_of};
    ghost use Rattle.account_lists.specs.Lists.{key_page, alias_page, grant_page, shown_alias, listed_keys, listed_aliases, retirable_grants};

    // A part of the keys.
    fn keys(&self, alloc: Global, after: Option<u64>) -> Result<Reply, NoMemory>
        ensures { IfOk result (λ reply. reply ≡ key_page self.now.view.now (part_of (λ row. row.born) (listed_keys self.now.view.now) self.now.page.now.limit after)) }
    {
        let facts = self.view.facts();
        let part = part_behind(
            alloc,
            &KeysListed::new(self.view),
            self.page.limit as usize,
            after,
        )?;
        Ok(Reply::Keys(KeyPage {
            account: facts.account,
            region: facts.region.copy()?,
            keys: KeyIdList::new(part.items),
            next: part.next,
        }))
    }

    // At most so many of the aliases of all keys, or of one, behind a place.
    fn part_of_aliases(
        &self,
        alloc: Global,
        key: &Option<KeyId>,
        after: Option<u64>,
    ) -> Result<Part<ListedAlias>, NoMemory>
        ensures items { IfOk result (λ part. part.items.items ≡ map shown_alias (part_of (λ row. row.born) (listed_aliases self.now.view.now key.now) self.now.page.now.limit after).rows) }
        ensures next { IfOk result (λ part. part.next ≡ (part_of (λ row. row.born) (listed_aliases self.now.view.now key.now) self.now.page.now.limit after).next) }
    {
        let limit = self.page.limit as usize;
        match key {
            Some(key) => part_behind(alloc, &AliasesOfKey::new(self.view, key), limit, after),
            None => part_behind(alloc, &AliasesListed::new(self.view), limit, after),
        }
    }

    // A part of the aliases.
    fn aliases(
        &self,
        alloc: Global,
        key: &Option<KeyId>,
        after: Option<u64>,
    ) -> Result<Reply, NoMemory>
        ensures { IfOk result (λ reply. reply ≡ alias_page self.now.view.now (part_of (λ row. row.born) (listed_aliases self.now.view.now key.now) self.now.page.now.limit after)) }
    {
        let facts = self.view.facts();
        let part = self.part_of_aliases(alloc, key, after)?;
        Ok(Reply::Aliases(AliasPage {
            account: facts.account,
            region: facts.region.copy()?,
            aliases: AliasList::new(part.items),
            next: part.next,
        }))
    }

    // A part of the grants that a principal may retire.
    fn grants(
        &self,
        alloc: Global,
        retiring: &Principal,
        after: Option<u64>,
    ) -> Result<Reply, NoMemory>
        ensures { IfOk result (λ reply. reply ≡ grant_page self.now.view.now (part_of (λ row. row.born) (retirable_grants self.now.view.now retiring.now) self.now.page.now.limit after)) }
    {
        let facts = self.view.facts();
        let listing = RetirableGrants::new(self.view, retiring);
        let part = part_behind(alloc, &listing, self.page.limit as usize, after)?;
        Ok(Reply::Grants(GrantPage {
            account: facts.account,
            region: facts.region.copy()?,
            grants: GrantList::new(part.items),
            next: part.next,
        }))
    }
}

impl<'a> Request for ListingAccount<'a> {
    type Found = ListedIn;

    type Ready = Option<u64>;

    ghost seen = { λ op. op.view.now };

    ghost parts = { λ op. (lists_in op.view.now op.what op.page.now).parts };

    fn view(&self) -> &View<'_> {
        self.view
    }

    fn find(&self, alloc: Global) -> Result<ListedIn, Stop> {
        match &self.what {
            AccountList::Keys => Ok(ListedIn::Keys),
            AccountList::Aliases { key_id } => {
                let key = key_id_if_given(alloc, self.view, key_id)?;
                Ok(ListedIn::Aliases(key))
            }
            AccountList::RetirableGrants { retiring } => {
                let retiring = principal_in(alloc, retiring.text())?;
                Ok(ListedIn::Grants(retiring))
            }
        }
    }

    fn questions<'q>(&'q self, _found: &'q ListedIn) -> Questions<'q> {
        let asking = Asking::OnAll {
            action: self.what.action(),
            said: of_none(),
        };
        asking.alone()
    }

    fn tokens(&self) -> &[Text] {
        &[]
    }

    fn fit(&self, _alloc: Global, _found: &ListedIn) -> Result<(), Stop> {
        Ok(())
    }

    fn own(&self, _alloc: Global, _found: &ListedIn) -> Result<Option<u64>, Stop> {
        behind_marker(self.page)
    }

    fn dry_run(&self) -> bool {
        false
    }
}

impl<'a> Reads for ListingAccount<'a> {
    ghost takes = { λ op. (lists_in op.view.now op.what op.page.now).takes };

    fn uses(&self) -> Uses {
        Uses::NOTHING
    }

    fn serve(
        &self,
        alloc: Global,
        found: ListedIn,
        ready: Option<u64>,
        _line: &mut DrawLine,
    ) -> Result<Reply, NoMemory> {
        match &found {
            ListedIn::Keys => self.keys(alloc, ready),
            ListedIn::Aliases(key) => self.aliases(alloc, key, ready),
            ListedIn::Grants(retiring) => self.grants(alloc, retiring, ready),
        }
    }
}

/// A list of a key.
#[derive(Drop)]
pub enum KeyList<'a> {
    /// The names of its policies.
    Policies,
    /// Its rotations.
    Rotations,
    /// Its grants: the one of an id, those of a grantee, or all.
    Grants {
        grant_id: Option<LentText<'a>>,
        grantee: Option<LentText<'a>>,
    },
}

/// What is sought of the grants of a key: the one of an id, and those of a grantee.
#[derive(Drop)]
pub struct Sought {
    /// The id, where one is given.
    pub grant: Option<GrantId>,
    /// The grantee, where one is given.
    pub grantee: Option<Principal>,
}

/// A key, and what is sought of its grants.
#[derive(Drop)]
pub struct ListedOf<'a> {
    /// The key.
    pub row: Lent<'a>,
    /// What is sought.
    pub sought: Sought,
}

// The id of a grant that a text is, where one is given.
fn grant_id_if_given(text: &Option<LentText<'_>>) -> Result<Option<GrantId>, Stop>
    ensures { Gives (grant_id_if_given text.now) result }
{
    match text {
        Some(text) => Ok(Some(grant_id_in(text.text())?)),
        None => Ok(None),
    }
}

// The principal whose ARN a text is, where one is given.
fn grantee_if_given(alloc: Global, text: &Option<LentText<'_>>) -> Result<Option<Principal>, Stop>
    ensures { Gives (principal_if_given text.now) result }
{
    match text {
        Some(text) => Ok(Some(principal_in(alloc, text.text())?)),
        None => Ok(None),
    }
}

impl KeyList<'_> {
    ghost use Rattle.std.specs.Prelude.{◌≡◌};
    ghost use Rattle.account_steps.specs.Steps.{Gives};
    ghost use Rattle.account_lists.specs.Lists.{action_on, unlisted, sought_of};

    // What it is called where it is authorized.
    fn action(&self) -> Action
        ensures { result ≡ action_on self.now }
    {
        match self {
            KeyList::Policies => Action::ListKeyPolicies,
            KeyList::Rotations => Action::ListKeyRotations,
            KeyList::Grants { .. } => Action::ListGrants,
        }
    }

    // The refusal of a list of rotations, of a key whose material isn't rotated.
    fn unlisted(&self, kind: KeyKind) -> Option<Refusal>
        ensures { result ≡ unlisted self.now kind }
    {
        match self {
            KeyList::Rotations => unrotated(kind),
            KeyList::Policies | KeyList::Grants { .. } => None,
        }
    }

    // What is sought.
    fn sought(&self, alloc: Global) -> Result<Sought, Stop>
        ensures { Gives (sought_of self.now) result }
    {
        match self {
            KeyList::Policies | KeyList::Rotations => Ok(Sought {
                grant: None,
                grantee: None,
            }),
            KeyList::Grants { grant_id, grantee } => {
                let grant = grant_id_if_given(grant_id)?;
                let grantee = grantee_if_given(alloc, grantee)?;
                Ok(Sought { grant, grantee })
            }
        }
    }
}

/// ListKeyPolicies, ListKeyRotations or ListGrants.
#[derive(Drop)]
pub struct ListingKey<'a> {
    /// What its steps go by.
    pub view: &'a View<'a>,
    /// The reference to the key.
    pub key_id: &'a Text,
    /// What is listed.
    pub what: KeyList<'a>,
    /// Which part.
    pub page: &'a Page,
}

impl<'a> ListingKey<'a> {
    ghost use Rattle.std.specs.Prelude.{◌≡◌, IfOk, filter};
    ghost use Rattle.account_lists.specs.Pages.{part_of};
    ghost use Rattle.account_lists.specs.Lists.{rotation_page, grant_page, rotations_of, grants_of_key};

    // A part of the rotations of a key.
    fn rotations(
        &self,
        alloc: Global,
        lent: &Lent<'a>,
        after: Option<u64>,
    ) -> Result<Reply, NoMemory>
        ensures { IfOk result (λ reply. reply ≡ rotation_page lent.now (part_of (λ numbered. numbered.number) (rotations_of lent.now) self.now.page.now.limit after)) }
    {
        let row = lent.row();
        let part = part_behind(
            alloc,
            &RotationsOf::new(row),
            self.page.limit as usize,
            after,
        )?;
        Ok(Reply::Rotations(RotationPage {
            key: row.key,
            rotations: RotationList::new(part.items),
            next: part.next,
        }))
    }

    // A part of the grants of a key.
    fn grants(
        &self,
        alloc: Global,
        listed: &ListedOf<'a>,
        after: Option<u64>,
    ) -> Result<Reply, NoMemory>
        ensures { IfOk result (λ reply. reply ≡ grant_page self.now.view.now (part_of (λ row. row.born) (grants_of_key self.now.view.now listed.now.row.key listed.now.sought) self.now.page.now.limit after)) }
    {
        let facts = self.view.facts();
        let listing = GrantsOfKey::new(self.view, &listed.row.row().key, &listed.sought);
        let part = part_behind(alloc, &listing, self.page.limit as usize, after)?;
        Ok(Reply::Grants(GrantPage {
            account: facts.account,
            region: facts.region.copy()?,
            grants: GrantList::new(part.items),
            next: part.next,
        }))
    }
}

impl<'a> Request for ListingKey<'a> {
    type Found = ListedOf<'a>;

    type Ready = Option<u64>;

    ghost seen = { λ op. op.view.now };

    ghost parts = { λ op. (lists_on op.view.now op.key_id.now op.what op.page.now).parts };

    fn view(&self) -> &View<'_> {
        self.view
    }

    fn find(&self, alloc: Global) -> Result<ListedOf<'a>, Stop> {
        let row = only_key_of(alloc, self.view, self.key_id)?;
        let sought = self.what.sought(alloc)?;
        Ok(ListedOf { row, sought })
    }

    fn questions<'q>(&'q self, found: &'q ListedOf<'a>) -> Questions<'q> {
        let said = of_key(self.view, found.row.row());
        Questions::on_key(self.what.action(), &found.row, said)
    }

    fn tokens(&self) -> &[Text] {
        &[]
    }

    fn fit(&self, alloc: Global, found: &ListedOf<'a>) -> Result<(), Stop> {
        self.view.fit(alloc, self.what.action(), &found.row)
    }

    fn own(&self, _alloc: Global, found: &ListedOf<'a>) -> Result<Option<u64>, Stop> {
        refuse(self.what.unlisted(found.row.row().kind))?;
        behind_marker(self.page)
    }

    fn dry_run(&self) -> bool {
        false
    }
}

impl<'a> Reads for ListingKey<'a> {
    ghost takes = { λ op. (lists_on op.view.now op.key_id.now op.what op.page.now).takes };

    fn uses(&self) -> Uses {
        Uses::NOTHING
    }

    fn serve(
        &self,
        alloc: Global,
        found: ListedOf<'a>,
        ready: Option<u64>,
        _line: &mut DrawLine,
    ) -> Result<Reply, NoMemory> {
        match &self.what {
            KeyList::Policies => Ok(Reply::KeyPolicyNames),
            KeyList::Rotations => self.rotations(alloc, &found.row, ready),
            KeyList::Grants { .. } => self.grants(alloc, &found, ready),
        }
    }
}
