//! Ids that are within others, as `1.2` is within `1`.

ghost use Rattle.std.specs.Prelude.{◌≡◌, ◌↔◌, ℕ, ◌<◌, ◌≤◌, [], false, length, map, slice_index_or, string_bytes, take, IsTrue, true};
ghost use Rattle.racp_model.specs.Project.{place as place_of};
ghost use Rattle.racp_tables.specs.Outlines.{id_at, IsPartById, IsWithin};

/// The number of the row above the one at a place with the longest id that the own one is within; 0 if it is within none.
pub(crate) fn whole_by_id(ids: &[String], place: usize) -> usize
    requires { place < length ids.now }
    ensures { IsPartById (map string_bytes ids.now) place result }
{
    let mut number = 0;
    for earlier in 0..place {
        if is_longer(ids, place, number, earlier) {
            number = earlier + 1;
        }
    }
    number
}

/// Whether the id at the place of the own row is within the one of an earlier row, and that is no shorter than the one of the
/// row with this number, if it is not 0.
fn is_longer(ids: &[String], place: usize, number: usize, earlier: usize) -> bool
    requires own { place < length ids.now }
    requires above { earlier < place }
    requires before { number ≤ earlier }
    ensures within { result ≡ true → IsWithin (id_at (map string_bytes ids.now) earlier) (id_at (map string_bytes ids.now) place) }
    ensures longer { result ≡ true → 0 < number →
        length (id_at (map string_bytes ids.now) (place_of number)) ≤ length (id_at (map string_bytes ids.now) earlier) }
    ensures some { result ≡ false → IsWithin (id_at (map string_bytes ids.now) earlier) (id_at (map string_bytes ids.now) place) →
        0 < number }
    ensures shorter { result ≡ false → IsWithin (id_at (map string_bytes ids.now) earlier) (id_at (map string_bytes ids.now) place) →
        length (id_at (map string_bytes ids.now) earlier) ≤ length (id_at (map string_bytes ids.now) (place_of number)) }
{
    let id = id_at(ids, earlier);
    if !is_within(id, id_at(ids, place)) {
        return false;
    }
    number == 0 || id_at(ids, number - 1).len() <= id.len()
}

/// The id at a place.
fn id_at(ids: &[String], place: usize) -> &[u8]
    requires { place < length ids.now }
    ensures { result.now ≡ id_at (map string_bytes ids.now) place }
{
    ids[place].as_bytes()
}

/// Whether an id is another one, which is not empty, with a point and more behind it.
fn is_within(whole: &[u8], id: &[u8]) -> bool
    ensures { IsTrue result ↔ IsWithin whole.now id.now }
{
    let count = whole.len();
    0 < count && count + 1 < id.len() && begins(whole, id) && id[count] == b'.'
}

/// Whether a text begins with another one, which is not longer.
fn begins(begin: &[u8], text: &[u8]) -> bool
    requires { length begin.now ≤ length text.now }
    ensures { IsTrue result ↔ (take (length begin.now) text.now ≡ begin.now) }
{
    &text[..begin.len()] == begin
}
