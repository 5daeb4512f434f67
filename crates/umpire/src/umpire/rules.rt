// How the umpire rules. It knows the size and the puts, and not who is faulty.
ghost use Rattle.std.specs.Prelude.{◌≡◌};
ghost use Rattle.roster.specs.Votes.{by_seat};
ghost use Rattle.umpire.specs.Rules.{rules_on, ruled};

use roster::decision::Decision;
use roster::size::Size;
use roster::votes::{count_said, count_votes};

// The ruling on a code that was put, if there can be one.
fn rules_on(size: Size, puts: &[Option<u64>; 10], code: u64) -> Option<Decision>
    ensures { result ≡ rules_on size.n size.t (by_seat puts.now) code }
{
    if count_votes(size, puts, code) >= size.one_sound() {
        return Some(Decision::Code(code));
    }
    if count_said(size, puts) >= size.all_but_faulty() {
        return Some(Decision::Nothing);
    }
    None
}

// The ruling after that: one that was made stands.
pub(super) fn ruled(
    size: Size,
    puts: &[Option<u64>; 10],
    code: u64,
    before: Option<Decision>,
) -> Option<Decision>
    ensures { result ≡ ruled size.n size.t (by_seat puts.now) code before }
{
    before.or_else(|| rules_on(size, puts, code))
}
