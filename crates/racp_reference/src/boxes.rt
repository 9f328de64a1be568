//! The vectors of a box, in lexicographic order. A box has a lower and an upper bound for each place.

ghost use Rattle.std.specs.Prelude.{◌≡◌, ◌↔◌, IsTrue, MatchOption, length};
ghost use Rattle.racp_reference.specs.Boxes.{IsBox, IsInBox, IsNext, IsLast};

/// Whether no lower bound is above the upper one.
pub(crate) fn is_box(lower: &[u32], upper: &[u32]) -> bool
    requires { length lower.now ≡ length upper.now }
    ensures { IsTrue result ↔ IsBox lower.now upper.now }
{
    lower.iter().zip(upper).all(|(low, high)| *low <= *high)
}

/// The vector of the box that comes next, or `None` after the last.
pub(crate) fn next_in(lower: &[u32], upper: &[u32], mut vector: Vec<u32>) -> Option<Vec<u32>>
    requires { IsInBox lower.now upper.now vector.items }
    ensures { MatchOption result (IsLast lower.now upper.now vector.items)
        (λ next. IsNext lower.now upper.now vector.items next.items) }
{
    for i in (0..vector.len()).rev() {
        if vector[i] < upper[i] {
            vector[i] += 1;
            return Some(vector);
        }
        vector[i] = lower[i];
    }
    None
}
