//! How many recipes and reads were judged.

ghost use Rattle.std.specs.Prelude.{◌≡◌};
ghost use Rattle.mk_subject.specs.Counts.{count_of_recipes, count_of_reads};

use crate::subject::Subject;

/// How many recipes the graph has, and how many files they read by their records, where a file
/// counts once for each recipe that reads it. Doesn't allocate.
pub fn counts(subject: &Subject<'_>) -> (usize, u128)
    ensures recipes { result.0 ≡ count_of_recipes subject.now }
    ensures reads { result.1 ≡ count_of_reads subject.now }
{
    let mut recipes: usize = 0;
    let mut reads: u128 = 0;
    for entry in subject.entries() {
        if entry.recipe {
            recipes += 1;
        }
        reads += subject.count_of_reads(entry.number) as u128;
    }
    (recipes, reads)
}
