//! Places of a text, parts of it, and numbers in it.

ghost use Rattle.std.specs.Prelude.{◌≡◌, ℕ, ◌+◌, ◌-◌, ◌<◌, ◌^◌, min, IfNone, IfSome, MatchOption};
ghost use Rattle.corbaloc.specs.Grammar.{IsCut, IsFree, IsUntil, SpellsNumber};

/// The place of the last `left` octets of a text of `length` octets whose first has the place `at`. No
/// text is so long that a place is the greatest `usize`.
pub(crate) fn place_of(at: usize, length: usize, left: usize) -> usize
    ensures { result ≡ min (at + (length - left)) (2 ^ 64 - 1) }
{
    at.saturating_add(length.saturating_sub(left))
}

/// The parts of a text before the first of an ASCII character and behind it.
pub(crate) fn cut(text: &str, mark: char) -> Option<(&str, &str)>
    requires { mark < 128 }
    ensures { MatchOption result (IsFree mark text.now) (λ x. IsCut mark text.now x.0.now x.1.now) }
{
    text.split_once(mark)
}

/// The part of a text before the first of an ASCII character, and what follows from there on.
pub(crate) fn until(text: &str, mark: char) -> (&str, &str)
    requires { mark < 128 }
    ensures { IsUntil mark text.now result.0.now result.1.now }
{
    match text.find(mark) {
        Some(at) => text.split_at(at),
        None => (text, ""),
    }
}

/// The number that a text of decimal digits spells, if it is below 65536.
pub(crate) fn number(text: &str) -> Option<u16>
    ensures found { IfSome result (λ n. SpellsNumber text.now n) }
    ensures none { IfNone result ((n : ℕ) → n < 2 ^ 16 → SpellsNumber text.now n → ⊥) }
{
    if text.starts_with('+') {
        return None;
    }
    text.parse::<u16>().ok()
}
