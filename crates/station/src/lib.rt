// What a logging station works out of a dam whose tips share junction boxes: the bounds of the pore pressure at each tip, and where its
// dip stands.
#![tactic(auto)]

pub mod job;
pub mod lack;
pub mod line;
pub mod logger;
pub mod stop;
pub mod total;
pub mod working;
