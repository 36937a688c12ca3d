//! Sums and products that stay within the limit of a row.
ghost use Rattle.std.specs.Prelude.{◌≡◌, ◌+◌, ◌*◌, ◌^◌, ◌≤◌, ◌+ℤ◌, ◌*ℤ◌, unsigned_abs};
ghost use Rattle.cgm_atom.specs.Limits.{max_measure};

pub(crate) fn product(x: i64, y: i64) -> i64
    requires { unsigned_abs x * unsigned_abs y ≤ max_measure }
    ensures value { result ≡ x *ℤ y }
    ensures size { unsigned_abs result ≡ unsigned_abs x * unsigned_abs y }
{
    x * y
}

pub(crate) fn sum_of(x: i64, y: i64) -> i64
    requires { unsigned_abs x + unsigned_abs y ≤ max_measure }
    ensures value { result ≡ x +ℤ y }
    ensures size { unsigned_abs result ≤ unsigned_abs x + unsigned_abs y }
{
    x + y
}
