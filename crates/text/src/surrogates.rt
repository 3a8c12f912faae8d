// Surrogates, the halves of a pair.
ghost use Rattle.std.specs.Prelude.{◌≡◌, true, false, ◌&&◌, MatchOption};
ghost use Rattle.text.specs.Utf16.{leading, trailing, paired};

// A leading surrogate, the first half of a pair. It differs from a trailing one in the range alone, and a bound as a
// parameter would be no plainer than the range.
pub(crate) fn is_leading(code: u32) -> bool
    ensures { result ≡ leading code }
{
    matches!(code, 0xD800..=0xDBFF)
}

// A trailing surrogate, the second half of a pair.
pub(crate) fn is_trailing(code: u32) -> bool
    ensures { result ≡ trailing code }
{
    matches!(code, 0xDC00..=0xDFFF)
}

// The code, if it is a leading surrogate.
pub fn leading_of(code: u32) -> Option<u32>
    ensures { MatchOption result (leading code ≡ false) (λ h. (h ≡ code) × (leading code ≡ true)) }
{
    if is_leading(code) { Some(code) } else { None }
}

// The code, if it is a trailing surrogate.
pub(crate) fn trailing_of(code: u32) -> Option<u32>
    ensures { MatchOption result (trailing code ≡ false) (λ l. (l ≡ code) × (trailing code ≡ true)) }
{
    if is_trailing(code) { Some(code) } else { None }
}

// The code point that a leading and a trailing surrogate spell together.
pub fn pair(lead: u32, trail: u32) -> Option<u32>
    ensures { MatchOption result ((leading lead && trailing trail) ≡ false) (λ c. (leading lead ≡ true) × (trailing trail ≡ true) × (c ≡ paired lead trail)) }
{
    if is_leading(lead) && is_trailing(trail) {
        Some((lead - 0xD800) * 0x400 + (trail - 0xDC00) + 0x10000)
    } else {
        None
    }
}
