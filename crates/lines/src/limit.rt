// A growth limit, or a room: so many dots, or none, which is a case of its own and no number.
ghost use Rattle.std.specs.Prelude.{◌≡◌};
ghost use Rattle.lines.specs.Rule.{cut_limit, limit_with};

// A limit, cut to another.
pub(crate) fn cut_limit(limit: Option<u32>, other: Option<u32>) -> Option<u32>
    ensures { result ≡ cut_limit limit other }
{
    match other {
        None => limit,
        Some(n) => Some(limit.map_or(n, |m| m.min(n))),
    }
}

// The larger of a number and a limit; none gives way.
pub fn limit_with(n: u32, limit: Option<u32>) -> Option<u32>
    ensures { result ≡ limit_with n limit }
{
    Some(limit.map_or(n, |m| n.max(m)))
}
