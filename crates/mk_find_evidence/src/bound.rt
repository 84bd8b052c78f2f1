//! Whether there are enough stamps for an evidence.

ghost use Rattle.std.specs.Prelude.{◌≡◌, ◌+◌, ◌*◌, ◌≤◌, ◌↔◌, true};
ghost use Rattle.mk_graph.specs.Serial.{serial_order};
ghost use Rattle.mk_build.specs.Setting.{writings};
ghost use Rattle.mk_build.specs.World.{last_stamp};
ghost use Rattle.mk_subject.specs.Subject.{footprints};

use mk_subject::Subject;

/// How many files the recipes write; a file counts once for each recipe that writes it.
fn writings(subject: &Subject<'_>) -> u128
    ensures { result ≡ writings subject.now.graph (footprints subject.now.setting)
        (serial_order subject.now.graph) }
{
    let mut writings: u128 = 0;
    for entry in subject.entries() {
        writings += entry.writes().len() as u128;
    }
    writings
}

/// Whether enough stamps are left, after those of the `given` files, for two writings of each file
/// that a recipe writes and one edit.
pub fn has_stamps(subject: &Subject<'_>, given: u64) -> bool
    ensures { (result ≡ true) ↔ (given + (2 * writings subject.now.graph
        (footprints subject.now.setting) (serial_order subject.now.graph) + 1) ≤ last_stamp) }
{
    let left = (u64::MAX - given) as u128;
    writings(subject) < (left + 1) / 2
}
