// The rounds of a block, eight at a time, which the compiler lays out faster than single ones. Variables, schedule and block
// come apart, since a round changes two of them and reads the third.
ghost use Rattle.std.specs.Prelude.{ℕ, ◌+◌, ◌<◌, ◌≤◌, List};
ghost use Rattle.sha256.specs.Rounds.{Turned};

use crate::words::{CONSTANTS, turn, word};

// Round t: the schedule's next word, and the working variables turned by it.
fn round(s: &mut [u32; 8], w: &mut [u32; 64], block: &[u8; 64], t: usize)
    requires { t < 64 }
    ensures { (start : List ℕ) → Turned start block.now t w.old s.old → Turned start block.now (t + 1) w.new s.new }
{
    w[t] = word(block, w, t);
    turn(s, CONSTANTS[t], w[t]);
}

// Eight rounds from t on.
pub fn eight(s: &mut [u32; 8], w: &mut [u32; 64], block: &[u8; 64], t: usize)
    requires { t + 8 ≤ 64 }
    ensures { (start : List ℕ) → Turned start block.now t w.old s.old → Turned start block.now (t + 8) w.new s.new }
{
    round(s, w, block, t);
    round(s, w, block, t + 1);
    round(s, w, block, t + 2);
    round(s, w, block, t + 3);
    round(s, w, block, t + 4);
    round(s, w, block, t + 5);
    round(s, w, block, t + 6);
    round(s, w, block, t + 7);
}
