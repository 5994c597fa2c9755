// Free space: the signed difference between the expansion space and the sum of sizes, or none if that space is not definite.
ghost use Rattle.std.specs.Prelude.{◌≡◌, ◌+◌, ◌≤◌};
ghost use Rattle.std.proofs.Math.IntN.{sub_ℕ};
ghost use Rattle.sizing.specs.Size.{most_free, most_lacking};

// dots - total, exact wherever an i32 can say it: down to -2,147,483,648 and up to 2,147,483,647. By hand: no i64 holds every u64, and the library's
// `checked_signed_diff` gives an Option, here never none, which would have to be taken apart and cut to 32 bits.
pub(crate) fn difference(dots: u64, total: u64) -> i32
    requires { (dots ≤ total + most_free) × (total ≤ dots + most_lacking) }
    ensures { result ≡ sub_ℕ dots total }
{
    if total <= dots {
        return (dots - total) as i32;
    }
    -1 - ((total - dots - 1) as i32)
}
