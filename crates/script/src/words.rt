// The words of a line.
ghost use Rattle.std.specs.Prelude.{◌≡◌, ℕ, List, map, IfOk};
ghost use Rattle.script.specs.Words.{AreWords};

use std::alloc::{AllocError, Global};

// What stands between white space, in order: the line has no other words.
pub fn words<'a>(heap: Global, line: &'a str) -> Result<Vec<&'a str>, AllocError>
    ensures made { IfOk result (λ v. AreWords line.now (map (λ x. x.now) v.items)) }
    ensures only { IfOk result (λ v. (ws : List (List ℕ)) → AreWords line.now ws → map (λ x. x.now) v.items ≡ ws) }
{
    let words = line.split_whitespace().collect(heap)?;
    Ok(words)
}

#[cfg(test)]
mod tests {
    use super::*;
    use std::test::Fail;

    #[test]
    fn white_space_divides(rt: HostRuntime) -> Result<(), Fail> {
        let few = words(rt.alloc(), " a  bc\td ")?;
        assert!(rt; few.as_slice() == ["a", "bc", "d"].as_slice());
        let none = words(rt.alloc(), "")?;
        assert!(rt; none.is_empty());
        Ok(())
    }
}
