// The CID, and what it shares with the CSD: two words of content with a check behind them.
#![tactic(auto)]

pub mod cid;
pub mod content;
