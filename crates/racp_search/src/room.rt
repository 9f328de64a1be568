//! Room for the records of a search.

ghost use Rattle.std.specs.Prelude.{◌≡◌, ◌<◌, ◌≤◌, ◌/◌, length};
ghost use Rattle.racp_cutset.specs.Kept.{front};

use racp_cutset::Local;
use racp_model::OfNetwork;

/// Makes room before a search: where the records that are kept leave less than half of the room for its own, all are
/// forgotten. Answers how many are kept then, which are those that stay.
pub fn make_room<N: OfNetwork>(local: &mut Local<N>) -> usize
    ensures count { result ≡ length local.new.records }
    ensures few { length local.old.records ≤ local.old.most / 2 → local.new ≡ local.old }
    ensures many { local.old.most / 2 < length local.old.records → local.new ≡ front 0 local.old }
{
    if local.most() / 2 < local.kept_count() {
        local.forget_behind(0);
    }
    local.kept_count()
}
