// How a program ends.
ghost use Rattle.std.specs.Prelude.{◌≡◌, true, IfOk, is_ok, if◌then◌else◌};
ghost use Rattle.std.specs.Process.{exit_status};

use std::process::ExitCode;

// The status for the outcome. What failed goes to standard error, behind the program's name.
pub fn ended<R: Eprint>(rt: &R, name: &str, outcome: anyhow::Result<()>) -> anyhow::Result<ExitCode>
    ensures value { IfOk result (λ code. exit_status code ≡ (if is_ok outcome then 0 else 1)) }
    ensures done { is_ok outcome ≡ true → is_ok result ≡ true }
{
    match outcome {
        Ok(()) => Ok(ExitCode::SUCCESS),
        Err(e) => {
            eprintln!(rt; "{name}: {e}")?;
            Ok(ExitCode::FAILURE)
        }
    }
}

#[cfg(test)]
mod tests {
    use super::*;

    #[test]
    fn done_work_has_a_status(rt: HostRuntime) {
        assert!(rt; ended(&rt, "program", Ok(())).is_ok());
    }
}
