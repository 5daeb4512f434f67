// The numbers of a line.
ghost use Rattle.std.specs.Prelude.{ℕ, List, IfOk, MatchOption};
ghost use Rattle.script.specs.Numbers.{Follow};

use crate::line::Words;
use crate::number::number;
use std::alloc::{AllocError, Global};

impl Words<'_, '_> {
    // What follows the first word, if it is numbers and nothing else.
    pub fn numbers(&self, heap: Global) -> Result<Option<Vec<u64>>, AllocError>
        ensures { IfOk result (λ found. MatchOption found ((ns : List ℕ) → Follow self.now ns → ⊥) (λ v. Follow self.now v.items)) }
    {
        let mut all = Vec::new(heap);
        for word in self.rest() {
            let Some(n) = number(word) else {
                return Ok(None);
            };
            all.push(n)?;
        }
        Ok(Some(all))
    }
}

#[cfg(test)]
mod tests {
    use super::*;
    use crate::words::words;
    use std::test::Fail;

    #[test]
    fn numbers_follow_the_first_word(rt: HostRuntime) -> Result<(), Fail> {
        let heap = rt.alloc();
        let some = Words::new(words(heap, "put 1 20 300")?.as_slice()).numbers(heap)?;
        assert!(rt; some.is_some_and(|ns| ns.as_slice() == [1, 20, 300].as_slice()));
        let other = Words::new(words(heap, "put 1 two")?.as_slice()).numbers(heap)?;
        assert!(rt; other.is_none());
        Ok(())
    }
}
