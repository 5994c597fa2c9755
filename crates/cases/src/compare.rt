// Whether two lists of rows are the same. Slices of numbers are compared by == where they stand, and rows by `same`: the edit
// `compares_nothing` of this crate keeps its name and its meaning.
ghost use Rattle.std.specs.Prelude.{◌≡◌, IsTrue, ◌↔◌};

pub fn same<const N: usize>(a: &[[u32; N]], b: &[[u32; N]]) -> bool
    ensures { IsTrue result ↔ (a.now ≡ b.now) }
{
    a == b
}
