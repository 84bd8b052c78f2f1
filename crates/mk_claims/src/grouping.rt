//! Groups the claims of findings.

ghost use Rattle.std.specs.Prelude.{◌≡◌, map, IfOk};
ghost use Rattle.mk_repair.specs.Gathering.{gathered};
ghost use Rattle.mk_claims.specs.Claims.{claim_view};
ghost use Rattle.mk_claims.specs.Grouping.{group_key_eq, group_pair, row_pair, rows};
ghost use Rattle.mk_claims.specs.Tables.{groups_view, row_key_view, rows_view};

use crate::claim::Claim;
use crate::topic::Topic;
use indexmap::IndexMap;
use mk_repair::add_value;
use std::alloc::{AllocError, Global};

/// A topic and the name that claims are about.
#[derive(Clone, Copy, PartialEq, Eq, Hash)]
pub struct RowKey<'a> {
    pub topic: Topic<'a>,
    pub who: &'a str,
}

/// A topic and a list of files.
#[derive(Clone, Copy, PartialEq, Eq, Hash)]
pub struct GroupKey<'a> {
    pub topic: Topic<'a>,
    pub what: &'a [&'a str],
}

/// For each topic and name the files of its claims.
pub type Rows<'a> = IndexMap<RowKey<'a>, Vec<&'a str>>;

/// For each topic and list of files the names that have just these files.
pub type Groups<'a> = IndexMap<GroupKey<'a>, Vec<&'a str>>;

/// The key of the row that a claim belongs to.
fn row_key<'a>(claim: &Claim<'a>) -> RowKey<'a>
    ensures { row_key_view result ≡ (row_pair (claim_view claim.now)).0 }
{
    RowKey {
        topic: claim.topic,
        who: claim.who,
    }
}

/// The file of a claim.
fn file_of<'a>(claim: &Claim<'a>) -> &'a str
    ensures { result.now ≡ (row_pair (claim_view claim.now)).1 }
{
    claim.what
}

/// The rows of claims, in the order of the claims. The only error is out of memory.
pub fn rows_of<'a>(alloc: Global, claims: &[Claim<'a>]) -> Result<Rows<'a>, AllocError>
    ensures { IfOk result (λ table. rows_view table.entries ≡
        rows (map claim_view claims.now)) }
{
    let mut table = IndexMap::new(alloc);
    for claim in claims {
        let key = row_key(claim);
        let file = file_of(claim);
        add_value(alloc, &mut table, key, file)?;
    }
    Ok(table)
}

/// The names of the rows, those with the same topic and equal lists of files together, in the order
/// of the rows. The only error is out of memory.
pub fn groups_of<'a>(alloc: Global, rows: &'a Rows<'a>) -> Result<Groups<'a>, AllocError>
    ensures { IfOk result (λ table. groups_view table.entries ≡
        gathered group_key_eq (map group_pair (rows_view rows.entry.now.entries))) }
{
    let mut table = IndexMap::new(alloc);
    for place in 0..rows.len() {
        let Some((key, files)) = rows.get_index(place) else {
            continue;
        };
        let group = GroupKey {
            topic: key.topic,
            what: files.as_slice(),
        };
        add_value(alloc, &mut table, group, key.who)?;
    }
    Ok(table)
}
