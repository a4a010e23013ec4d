// The operations on keys: CreateKey and DescribeKey.
ghost use Rattle.std.specs.Prelude.{◌≡◌, ◌≤◌, [], IfOk, codes, length, option_map};
ghost use Rattle.kms_json.specs.declared.replies.Reply.TheVariants as Reply;
ghost use Rattle.hmac_keys.specs.Asked.{spec_meant, usage_meant};
ghost use Rattle.resource_tags.specs.Tags.{with_tags};
ghost use Rattle.account_steps.specs.Steps.{Gives, Passes};
ghost use Rattle.kms_names.specs.declared.actions.Action.TheVariants as action;
ghost use Rattle.account_steps.specs.declared.questions.Asking.TheVariants as asking;
ghost use Rattle.account_steps.specs.Authority.{asked_if};
ghost use Rattle.account_keys.specs.Keys.{description_of, creates_key, describes_key, unsupported_unless, kind_asked, field_of, served_kind, of_creation, questions_of_tags, said_new_key, unserved_key, policy_or_default, refused_if_given};

use crate::policies::accept;
use account_rows::What;
use account_steps::{
    Asking, Changes, KeySaid, Made, Named, Questions, Reads, Request, Stop, Uses, View, improper,
    key_id, key_of, of_named, of_new_key, refuse, told_state, unsupported,
};
use authority::{KindSaid, Particulars};
use draw_lines::DrawLine;
use hmac_keys::{KeyKind, KindField, KindRead, kind_of};
use key_policies::default_policy_text;
use kms_json::{CreateKey, KeyMetadata, KeyState, Refusal, Reply, Unsupported};
use kms_names::{AccountNumber, Action, KeyId, NoMemory, Text, TextList};
use resource_tags::{Tag, TagFault, TagList, TagMap};
use std::alloc::Global;
use tag_order::in_order;

// A key as replies describe it.
fn metadata(
    view: &View<'_>,
    key: KeyId,
    kind: KeyKind,
    created: u64,
    description: &Text,
    state: KeyState,
) -> Result<KeyMetadata, NoMemory>
    ensures { IfOk result (λ metadata. metadata ≡ description_of view.now.facts key kind created description.now state) }
{
    let facts = view.facts();
    Ok(KeyMetadata {
        account: facts.account,
        region: facts.region.copy()?,
        key,
        kind,
        created,
        description: description.copy()?,
        state,
    })
}

// The refusal of a text that isn't the one that is served.
fn unsupported_unless(wanted: &str, given: &Option<Text>, field: Unsupported) -> Option<Refusal>
    ensures { result ≡ unsupported_unless wanted.now given.now field }
{
    match given {
        Some(given) if given.as_str() != wanted => Some(Refusal::UnsupportedOperation(field)),
        _ => None,
    }
}

// A text that is given, lent.
fn lent(text: &Option<Text>) -> Option<&str>
    ensures { option_map (λ text. text.now) result ≡ text.now }
{
    match text {
        Some(text) => Some(text.as_str()),
        None => None,
    }
}

// The field of a request, as its refusal names it.
fn field_of(field: KindField) -> Unsupported
    ensures { result ≡ field_of field }
{
    match field {
        KindField::KeyUsage => Unsupported::KeyUsage,
        KindField::CustomerMasterKeySpec => Unsupported::CustomerMasterKeySpec,
        KindField::KeySpec => Unsupported::KeySpec,
    }
}

// The kind of key that is asked for.
fn kind_asked(request: &CreateKey) -> KindRead
    ensures { result ≡ kind_asked request.now }
{
    kind_of(
        lent(&request.key_usage),
        lent(&request.customer_master_key_spec),
        lent(&request.key_spec),
    )
}

// The same, where it is served.
fn serve_kind(request: &CreateKey) -> Result<KeyKind, Stop>
    ensures { Gives (served_kind (kind_asked request.now)) result }
{
    match kind_asked(request) {
        KindRead::Kind(kind) => Ok(kind),
        KindRead::Unsupported(field) => Err(Stop::Refused(Refusal::UnsupportedOperation(field_of(
            field,
        )))),
    }
}

// The kind of key that is asked for, by the texts of the request or those that stand for absent ones.
fn kind_said(request: &CreateKey) -> KindSaid<'_>
    ensures spec { result.spec ≡ spec_meant request.now.customer_master_key_spec request.now.key_spec }
    ensures usage { result.usage ≡ usage_meant request.now.key_usage }
{
    let spec = match (&request.key_spec, &request.customer_master_key_spec) {
        (Some(spec), _) | (None, Some(spec)) => spec.as_str(),
        (None, None) => KeyKind::Symmetric.spec_text(),
    };
    let usage = match &request.key_usage {
        Some(usage) => usage.as_str(),
        None => KeyKind::Symmetric.usage_text(),
    };
    KindSaid { spec, usage }
}

// What the request says of itself.
fn of_creation(request: &CreateKey) -> Particulars<'_>
    ensures { result ≡ of_creation request.now }
{
    Particulars {
        request_tags: Some(&request.tags),
        bypass: Some(request.bypass_lockout_check),
        ..of_new_key(kind_said(request))
    }
}

// Stops at what isn't served of any kind.
fn serve_only(request: &CreateKey) -> Result<(), Stop>
    ensures { Passes (unserved_key request.now) result }
{
    refuse(unsupported_unless("AWS_KMS", &request.origin, Unsupported::Origin))?;
    refuse(unsupported(request.custom_key_store_id, Unsupported::CustomKeyStoreId))?;
    refuse(improper(request.tags.as_slice()))?;
    refuse(unsupported(request.multi_region, Unsupported::MultiRegion))?;
    refuse(unsupported(request.xks_key_id, Unsupported::XksKeyId))
}

// The tags of a key that is made with these.
fn tags_of(alloc: Global, tags: &TagList) -> Result<TagMap, NoMemory>
    requires { length tags.now ≤ 50 }
    ensures { IfOk result (λ map. map ≡ with_tags [] tags.now) }
{
    match TagMap::new(alloc).put_all(tags.as_slice()) {
        Ok(tags) => Ok(tags),
        Err(TagFault::NoMemory) => Err(NoMemory),
        Err(TagFault::TooMany) => unreachable!(),
    }
}

// Stops at the refusal of a policy that is given, for a key of this kind with the tags of the request.
fn accept_if_given(
    alloc: Global,
    view: &View<'_>,
    kind: KeyKind,
    request: &CreateKey,
) -> Result<(), Stop>
    requires { length request.now.tags ≤ 50 }
    ensures { Passes (refused_if_given view.now (said_new_key view.now kind request.now.tags) request.now.policy request.now.bypass_lockout_check) result }
{
    match &request.policy {
        Some(text) => {
            let id = key_id(view.facts(), view.place());
            let tags = tags_of(alloc, &request.tags)?;
            let key = KeySaid {
                key: &id,
                kind,
                tags: &tags,
            };
            accept(alloc, view, &key, text, request.bypass_lockout_check)
        }
        None => Ok(()),
    }
}

// The policy of a key: what is given, or the default policy.
fn policy_or_default(
    alloc: Global,
    account: &AccountNumber,
    policy: &Option<Text>,
) -> Result<Text, NoMemory>
    ensures { IfOk result (λ text. text ≡ policy_or_default account.now policy.now) }
{
    match policy {
        Some(text) => text.copy(),
        None => default_policy_text(alloc, account),
    }
}

// Whether the caller may make the key.
fn question_of_key(request: &CreateKey) -> Asking<'_>
    ensures { result ≡ asking.OnAll action.CreateKey (of_creation request.now) }
{
    Asking::OnAll {
        action: Action::CreateKey,
        said: of_creation(request),
    }
}

// Whether it may give tags to it, where it gives some.
fn question_of_tags<'a>(view: &View<'_>, request: &'a CreateKey) -> Option<Asking<'a>>
    ensures { asked_if view.now result ≡ questions_of_tags request.now.tags (of_creation request.now) }
{
    if request.tags.as_slice().is_empty() {
        return None;
    }
    Some(Asking::OnAll {
        action: Action::TagResource,
        said: of_creation(request),
    })
}

/// CreateKey, with at most 50 tags.
#[derive(Drop)]
pub struct CreatingKey<'a> {
    /// What its steps go by.
    pub view: &'a View<'a>,
    /// What it asks.
    pub request: &'a CreateKey,
    ghost few: { length request.now.tags ≤ 50 },
}

impl<'a> Request for CreatingKey<'a> {
    type Found = ();

    type Ready = KeyKind;

    ghost seen = { λ op. op.view.now };

    ghost parts = { λ op. (creates_key op.view.now op.request.now).parts };

    fn view(&self) -> &View<'_> {
        self.view
    }

    fn find(&self, _alloc: Global) -> Result<(), Stop> {
        Ok(())
    }

    fn questions<'q>(&'q self, _found: &'q ()) -> Questions<'q> {
        Questions {
            first: question_of_key(self.request),
            second: question_of_tags(self.view, self.request),
            third: None,
        }
    }

    fn tokens(&self) -> &[Text] {
        &[]
    }

    fn fit(&self, _alloc: Global, _found: &()) -> Result<(), Stop> {
        Ok(())
    }

    fn own(&self, alloc: Global, _found: &()) -> Result<KeyKind, Stop> {
        let kind = serve_kind(self.request)?;
        serve_only(self.request)?;
        accept_if_given(alloc, self.view, kind, self.request)?;
        Ok(kind)
    }

    fn dry_run(&self) -> bool {
        false
    }
}

impl<'a> Changes for CreatingKey<'a> {
    ghost does = { λ op. (creates_key op.view.now op.request.now).does };

    fn make(&self, alloc: Global, _found: (), ready: KeyKind) -> Result<Made, NoMemory> {
        let time = self.view.moment();
        let facts = self.view.facts();
        let key = key_id(facts, self.view.place());
        let metadata = metadata(
            self.view,
            key,
            ready,
            time,
            &self.request.description,
            KeyState::Enabled,
        )?;
        let description = self.request.description.copy()?;
        let policy = policy_or_default(alloc, &facts.account, &self.request.policy)?;
        Ok(Made {
            reply: Reply::Metadata(metadata),
            what: Some(What::CreateKey {
                key,
                kind: ready,
                description,
                policy,
                tags: in_order(alloc, self.request.tags.as_slice())?,
            }),
        })
    }
}

/// DescribeKey.
#[derive(Drop)]
pub struct DescribingKey<'a> {
    /// What its steps go by.
    pub view: &'a View<'a>,
    /// The reference to the key.
    pub key_id: &'a Text,
    /// The tokens of grants.
    pub grant_tokens: &'a TextList,
}

impl<'a> Request for DescribingKey<'a> {
    type Found = Named<'a>;

    type Ready = ();

    ghost seen = { λ op. op.view.now };

    ghost parts = { λ op. (describes_key op.view.now op.key_id.now op.grant_tokens.now).parts };

    fn view(&self) -> &View<'_> {
        self.view
    }

    fn find(&self, alloc: Global) -> Result<Named<'a>, Stop> {
        key_of(alloc, self.view, self.key_id)
    }

    fn questions<'q>(&'q self, found: &'q Named<'a>) -> Questions<'q> {
        let said = of_named(self.view, found.row.row(), &found.alias);
        Questions::on_key(Action::DescribeKey, &found.row, said)
    }

    fn tokens(&self) -> &[Text] {
        self.grant_tokens.as_slice()
    }

    fn fit(&self, alloc: Global, found: &Named<'a>) -> Result<(), Stop> {
        self.view.fit(alloc, Action::DescribeKey, &found.row)
    }

    fn own(&self, _alloc: Global, _found: &Named<'a>) -> Result<(), Stop> {
        Ok(())
    }

    fn dry_run(&self) -> bool {
        false
    }
}

impl<'a> Reads for DescribingKey<'a> {
    ghost takes = { λ op. (describes_key op.view.now op.key_id.now op.grant_tokens.now).takes };

    fn uses(&self) -> Uses {
        Uses::NOTHING
    }

    fn serve(
        &self,
        _alloc: Global,
        found: Named<'a>,
        _ready: (),
        _line: &mut DrawLine,
    ) -> Result<Reply, NoMemory> {
        let row = found.row.row();
        let state = told_state(row.stored);
        let metadata = metadata(
            self.view,
            row.key,
            row.kind,
            row.made,
            &row.description,
            state,
        )?;
        Ok(Reply::Metadata(metadata))
    }
}
