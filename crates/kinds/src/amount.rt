// A number that may be missing: absent and zero are never the same answer, so it is an Option. Here are the tag and the number that say it.
ghost use Rattle.std.specs.Prelude.{◌≡◌};
ghost use Rattle.kinds.specs.Kinds.{amount_of, amount_tag, amount_number, above};

// The tags of a sheet: numbers, as its bytes hold them (`docs/SHEET.md`); `of`, `tag` and `number` go to and from them, as `docs/PROMISES.md` has it.
pub const ABSENT: u32 = 0;

pub const GIVEN: u32 = 1;

pub fn of(tag: u32, n: u32) -> Option<u32>
    ensures { result ≡ amount_of tag n }
{
    match tag {
        GIVEN => Some(n),
        _ => None,
    }
}

pub fn tag(amount: Option<u32>) -> u32
    ensures { result ≡ amount_tag amount }
{
    match amount {
        None => ABSENT,
        Some(_) => GIVEN,
    }
}

// What stands in a sheet beside the tag: 0 where the number is absent.
pub fn number(amount: Option<u32>) -> u32
    ensures { result ≡ amount_number amount }
{
    amount.unwrap_or(0)
}

// Both are given, and the later is below the earlier.
pub(crate) fn is_above(earlier: Option<u32>, later: Option<u32>) -> bool
    ensures { result ≡ above earlier later }
{
    matches!((earlier, later), (Some(x), Some(y)) if y < x)
}
