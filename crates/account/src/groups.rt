// The groups that findings are counted and listed by.
ghost use Rattle.std.specs.Prelude.{◌≡◌, count_by};
ghost use Rattle.account.specs.Groups.{member};

use crate::finding::Finding;
use crate::outcome::{NoPair, Reason};
use crate::standing::Standing;
use std::fmt;

// A tip is at fault where it has no pair, and that for no neighbour's sake. An enum and no closures: a group is counted, listed
// and put in a table of tasks, and one definition says what each is. The four names of `Standing` stand here again, since a
// group is one word to count and to list by.
#[derive(Clone, Copy)]
pub enum Group {
    WorkedOut,
    Lacking,
    PastLimit,
    AtFault,
    Inside,
    Outside,
    NoDip,
    NotCompared,
}

impl<L: Reason> Finding<L> {
    pub fn is_in(&self, group: Group) -> bool
        ensures { result ≡ member L.own group self.now }
    {
        match group {
            Group::WorkedOut => self.outcome.is_ok(),
            Group::Lacking => matches!(self.outcome, Err(NoPair::Lacking(_))),
            Group::PastLimit => matches!(self.outcome, Err(NoPair::PastLimit(_))),
            Group::AtFault => match &self.outcome {
                Ok(_) => false,
                Err(NoPair::Lacking(lack)) => lack.is_own(),
                Err(NoPair::PastLimit(_)) => true,
            },
            Group::Inside => self.standing == Standing::Inside,
            Group::Outside => self.standing == Standing::Outside,
            Group::NoDip => self.standing == Standing::NoDip,
            Group::NotCompared => self.standing == Standing::NotCompared,
        }
    }
}

// How many of the findings are in a group.
pub fn count<L: Reason>(findings: &[Finding<L>], group: Group) -> usize
    ensures { result ≡ count_by (member L.own group) findings.now }
{
    findings.iter().filter(|f| f.is_in(group)).count()
}

// The tips of a group by their numbers: `tip 6`, or `tips 4, 7`.
#[derive(Clone, Copy)]
pub struct Tips<'a, L> {
    pub findings: &'a [Finding<L>],
    pub group: Group,
}

impl<'a, L: Reason> fmt::Display for Tips<'a, L> {
    fn fmt<W: fmt::Write>(&self, f: &mut fmt::Formatter<W>) -> fmt::Result {
        let members = self.findings.iter().filter(|x| x.is_in(self.group));
        f.write_str(if count(self.findings, self.group) == 1 {
            "tip "
        } else {
            "tips "
        })?;
        f.write_joined(members.map(|x| x.number), ", ")
    }
}
