// Certificates with one mark turned.
use access_explain::{Certificate, Finding, FindingList, Mark, MarkList};
use kms_names::NoMemory;
use std::alloc::Global;

/// One of the four runs of a finding.
#[derive(Clone, Copy, PartialEq, Eq)]
pub enum Run {
    Key,
    Identity,
    Ceiling,
    Grants,
}

/// All of them.
pub const RUNS: [Run; 4] = [Run::Key, Run::Identity, Run::Ceiling, Run::Grants];

impl Run {
    /// The marks of this run of a finding.
    pub fn of(self, finding: &Finding) -> &MarkList {
        match self {
            Run::Key => &finding.key_marks,
            Run::Identity => &finding.identity_marks,
            Run::Ceiling => &finding.ceiling_marks,
            Run::Grants => &finding.grant_marks,
        }
    }
}

/// The place of a mark: the number of its finding, its run, and its number there.
#[derive(Clone, Copy)]
pub struct Place {
    pub finding: usize,
    pub run: Run,
    pub mark: usize,
}

fn other(mark: Mark) -> Mark {
    match mark {
        Mark::Hit => Mark::Action,
        _ => Mark::Hit,
    }
}

// The marks of a run, with that of this number turned, if any.
fn run_turned(
    alloc: Global,
    marks: &MarkList,
    turned: Option<usize>,
) -> Result<MarkList, NoMemory> {
    let mut all = Vec::new(alloc);
    for (number, mark) in marks.as_slice().iter().enumerate() {
        all.push(if turned == Some(number) {
            other(*mark)
        } else {
            *mark
        })?;
    }
    Ok(MarkList::new(all))
}

// A finding with the mark of this place turned, if any.
fn finding_turned(
    alloc: Global,
    finding: &Finding,
    place: Option<Place>,
) -> Result<Finding, NoMemory> {
    let turned = |run| match place {
        Some(place) if place.run == run => Some(place.mark),
        _ => None,
    };
    Ok(Finding {
        action: finding.action,
        resource: finding.resource.copy()?,
        ground: finding.ground,
        key_marks: run_turned(alloc, &finding.key_marks, turned(Run::Key))?,
        identity_marks: run_turned(alloc, &finding.identity_marks, turned(Run::Identity))?,
        ceiling_marks: run_turned(alloc, &finding.ceiling_marks, turned(Run::Ceiling))?,
        grant_marks: run_turned(alloc, &finding.grant_marks, turned(Run::Grants))?,
    })
}

/// A certificate with the mark of this place turned.
pub fn turned(
    alloc: Global,
    certificate: &Certificate,
    place: Place,
) -> Result<Certificate, NoMemory> {
    let mut findings = Vec::new(alloc);
    for (number, finding) in certificate.findings.as_slice().iter().enumerate() {
        let here = if number == place.finding {
            Some(place)
        } else {
            None
        };
        findings.push(finding_turned(alloc, finding, here)?)?;
    }
    Ok(Certificate {
        early: certificate.early,
        allowed: certificate.allowed,
        findings: FindingList::new(findings),
    })
}
