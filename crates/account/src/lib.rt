// The account of a line of tips: what became of each tip, where its dip stands, the groups that findings are counted by, and
// the texts of it all.
#![tactic(auto)]

pub mod bar;
pub mod finding;
pub mod groups;
pub mod outcome;
pub mod printing;
pub mod records;
pub mod standing;
pub mod tally;
pub mod texts;
pub mod units;
