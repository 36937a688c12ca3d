//! The lexicographic order of vectors.
ghost use Rattle.std.specs.Prelude.{◌≡◌, ◌↔◌, IsTrue, length};
ghost use Rattle.cgm_base.specs.Order.{IsLess};

/// Says whether the first vector is less than the second, of the same length: at the first place at
/// which they differ it has the lesser number. It takes no memory.
pub fn less(a: &[i64], b: &[i64]) -> bool
    requires { length a.now ≡ length b.now }
    ensures { IsTrue result ↔ IsLess a.now b.now }
{
    for (place, x) in a.iter().enumerate() {
        let y = b[place];
        if *x < y {
            return true;
        }
        if y < *x {
            return false;
        }
    }
    false
}
