// How many seats make a quorum.
ghost use Rattle.std.specs.Prelude.{◌≡◌};
ghost use Rattle.roster.specs.Quorums.{echo_quorum, one_sound, ready_quorum, all_but_faulty, sound_rest};

use crate::size::Size;

impl Size {
    // ECHOs that a READY needs: two such quorums share a sound seat.
    pub fn echo_quorum(&self) -> u64
        ensures { result ≡ echo_quorum self.now.n self.now.t }
    {
        (self.n + self.t) / 2 + 1
    }

    // As many as surely have a sound one among them.
    pub fn one_sound(&self) -> u64
        ensures { result ≡ one_sound self.now.t }
    {
        self.t + 1
    }

    // READYs that a holding needs: more than t of so many are sound.
    pub fn ready_quorum(&self) -> u64
        ensures { result ≡ ready_quorum self.now.t }
    {
        2 * self.t + 1
    }

    // As many as a seat may wait for, since all others may be faulty.
    pub fn all_but_faulty(&self) -> u64
        ensures { result ≡ all_but_faulty self.now.n self.now.t }
    {
        self.n - self.t
    }

    // As many of any n - t as are surely sound: so many and any n - t share a seat.
    pub fn sound_rest(&self) -> u64
        ensures { result ≡ sound_rest self.now.n self.now.t }
    {
        self.n - 2 * self.t
    }
}
