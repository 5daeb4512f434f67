// A line, by its words.
ghost use Rattle.std.specs.Prelude.{◌≡◌, map, drop, length, Decides};
ghost use Rattle.script.specs.Words.{word_at, Silent};

use std::marker::Model;

// Any words, in their order.
#[derive(Drop)]
pub struct Words<'w, 'a> {
    words: &'w [&'a str],
}

impl<'w, 'a> Model for Words<'w, 'a> {
    ghost use Rattle.std.specs.Prelude.{ℕ, List, map};

    ghost Value = { List (List ℕ) };

    ghost view = { λ w. map (λ x. x.now) w.words.now };
}

impl<'w, 'a> Words<'w, 'a> {
    pub fn new(words: &'w [&'a str]) -> Words<'w, 'a>
        ensures { result ≡ map (λ w. w.now) words.now }
    {
        Words { words }
    }

    pub fn len(&self) -> usize
        ensures { result ≡ length self.now }
    {
        self.words.len()
    }

    // The word at a place, and nothing past the last one.
    #[tactic(auto, unfolding(crate::specs::Words::word_at))]
    pub fn word(&self, k: usize) -> &'a str
        ensures { result.now ≡ word_at self.now k }
    {
        self.words.get(k).copied().unwrap_or("")
    }

    // The words after the first.
    pub(crate) fn rest(&self) -> &'w [&'a str]
        ensures { map (λ w. w.now) result.now ≡ drop 1 self.now }
    {
        match self.words {
            [_, rest @ ..] => rest,
            [] => &[],
        }
    }

    // Whether the line is to be skipped.
    pub fn is_silent(&self) -> bool
        ensures { Decides result (Silent self.now) }
    {
        self.words.is_empty() || self.word(0).starts_with('#')
    }
}

#[cfg(test)]
mod tests {
    use super::*;

    #[test]
    fn past_the_last_word_there_is_none(rt: HostRuntime) {
        let few = ["a", "bc"];
        let few = Words::new(few.as_slice());
        assert_eq!(rt; few.len(), 2);
        assert_eq!(rt; few.word(1), "bc");
        assert_eq!(rt; few.word(2), "");
    }
}
