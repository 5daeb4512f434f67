// The call for help, which is the only argument that there may be.
ghost use Rattle.std.specs.Prelude.{◌≡◌, false, true, MatchOption, MatchResult};
ghost use Rattle.std.specs.String.{string_bytes};
ghost use Rattle.program.specs.Help.{IsCall};

use anyhow::bail;

// Whether the argument calls for help; another one is refused.
pub fn is_called(arg: Option<String>) -> anyhow::Result<bool>
    ensures { MatchOption arg (result ≡ Ok false) (λ a. MatchResult result (λ called. (called ≡ true) × IsCall (string_bytes a)) (λ _. IsCall (string_bytes a) → ⊥)) }
{
    let Some(arg) = arg else {
        return Ok(false);
    };
    match arg.as_str() {
        "--help" | "-h" => Ok(true),
        _ => bail!("the only argument is --help"),
    }
}

#[cfg(test)]
mod tests {
    use super::*;
    use std::test::Fail;

    #[test]
    fn help_is_the_only_argument(rt: HostRuntime) -> Result<(), Fail> {
        let heap = rt.alloc();
        assert!(rt; !is_called(None)?);
        assert!(rt; is_called(Some(String::from_str(heap, "--help")?))?);
        assert!(rt; is_called(Some(String::from_str(heap, "-h")?))?);
        assert!(rt; is_called(Some(String::from_str(heap, "help")?)).is_err());
        Ok(())
    }
}
