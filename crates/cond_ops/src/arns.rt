//! ARNs by their parts (IAM User Guide, "Amazon Resource Names").

ghost use Rattle.std.specs.Prelude.{◌≡◌, ◌↔◌, ◌<◌, ℕ, List, IsTrue, MatchOption};
ghost use Rattle.std.specs.List.{AllZip};
ghost use Rattle.cond_ops.specs.Arn.{IsCutInto, parts_of, read_parts_of};
ghost use Rattle.cond_ops.specs.Relation.{IsLike};

use crate::cuts::cut_at;
use crate::read_texts::ReadText;
use std::alloc::Global;

/// The parts of an ARN: what stands before each of its first five colons, and all that follows them.
#[derive(Clone, Copy)]
pub struct Arn<'a> {
    pub scheme: &'a str,
    pub partition: &'a str,
    pub service: &'a str,
    pub region: &'a str,
    pub account: &'a str,
    pub resource: &'a str,
}

/// The parts of a text that has five colons or more.
pub fn read_arn(text: &str) -> Option<Arn<'_>>
    ensures { MatchOption result ((parts : List (List ℕ)) → ¬ (IsCutInto 5 text.now parts)) (λ arn. IsCutInto 5 text.now (parts_of arn)) }
{
    let (scheme, rest) = cut_at(text, ':')?;
    let (partition, rest) = cut_at(rest, ':')?;
    let (service, rest) = cut_at(rest, ':')?;
    let (region, rest) = cut_at(rest, ':')?;
    let (account, resource) = cut_at(rest, ':')?;
    Some(Arn {
        scheme,
        partition,
        service,
        region,
        account,
        resource,
    })
}

/// The parts of an ARN whose characters were read.
#[derive(Drop)]
pub struct ReadArn<'a> {
    scheme: ReadText<'a>,
    partition: ReadText<'a>,
    service: ReadText<'a>,
    region: ReadText<'a>,
    account: ReadText<'a>,
    resource: ReadText<'a>,
}

impl<'a> ReadArn<'a> {
    /// Those of an ARN.
    pub fn of(alloc: Global, arn: &Arn<'a>) -> ReadArn<'a>
        ensures { read_parts_of result ≡ parts_of arn.now }
    {
        ReadArn {
            scheme: ReadText::of(alloc, arn.scheme),
            partition: ReadText::of(alloc, arn.partition),
            service: ReadText::of(alloc, arn.service),
            region: ReadText::of(alloc, arn.region),
            account: ReadText::of(alloc, arn.account),
            resource: ReadText::of(alloc, arn.resource),
        }
    }

    /// Whether each part matches the pattern of its place.
    pub fn is_like(&self, pattern: &Arn<'_>) -> bool
        ensures { IsTrue result ↔ AllZip IsLike (read_parts_of self.now) (parts_of pattern.now) }
    {
        self.scheme.is_like(pattern.scheme)
            && self.partition.is_like(pattern.partition)
            && self.service.is_like(pattern.service)
            && self.region.is_like(pattern.region)
            && self.account.is_like(pattern.account)
            && self.resource.is_like(pattern.resource)
    }
}
