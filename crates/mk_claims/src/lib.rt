//! What findings claim: which of them are one group, and which lines are offered for each, so that
//! none closes a cycle.
#![tactic(auto)]

mod claim;
mod grouping;
mod joining;
pub mod laws;
mod left_claims;
mod numbering;
mod offer;
mod shown;
mod topic;
mod wider;

pub use claim::{Claim, claims_of};
pub use grouping::{GroupKey, Groups, RowKey, Rows, groups_of, rows_of};
pub use joining::{ClaimSet, claim_set, joined_rows};
pub use left_claims::untouched;
pub use numbering::group_numbers;
pub use offer::{Offer, claims_offered, open_word};
pub use shown::{all_claims, has_static};
pub use topic::{Kind, Topic, kind_word};
pub use wider::{offers_alone, offers_of};
