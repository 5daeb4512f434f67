// Decimal numbers.
ghost use Rattle.script.specs.Numbers.{Number};

// The number that the word's digits write; `None` where a byte is no digit, where there is none, and where 64 bits do not hold it.
#[tactic(auto, using(std::proofs::lemmas::Str::Parse::digit_at))]
pub fn number(word: &str) -> Option<u64>
    ensures value { Number word.now result }
{
    match word.as_bytes() {
        // a digit first, since `parse` would read a plus too
        [b'0'..=b'9', ..] => word.parse::<u64>().ok(),
        _ => None,
    }
}

#[cfg(test)]
mod tests {
    use super::*;

    #[test]
    fn digits_alone_are_a_number(rt: HostRuntime) {
        assert_eq!(rt; number("0"), Some(0));
        assert_eq!(rt; number("18446744073709551615"), Some(u64::MAX));
        assert_eq!(rt; number("18446744073709551616"), None);
        assert_eq!(rt; number(""), None);
        assert_eq!(rt; number("+1"), None);
        assert_eq!(rt; number("1x"), None);
    }
}
