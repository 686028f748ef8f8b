//! The control sum of a trail.

ghost use Rattle.std.specs.Prelude.{◌≡◌, ◌^◌, ◌<◌};
ghost use Rattle.queries.specs.Sums.{words_sum, control_sum};

use ordering::operation::Words;
use trail::entry::Entry;

fn words_sum(words: Words) -> u64
    ensures value { result ≡ words_sum words }
    ensures bound { result < 2 ^ 34 }
{
    let [a, b, c, d] = words.at;
    u64::from(a) + u64::from(b) + u64::from(c) + u64::from(d)
}

/// All values of all entries, added modulo 2^32.
#[tactic(auto, using(crate::proofs::Adding::control_sum_more))]
pub fn control_sum(trail: &[Entry]) -> u32
    ensures { result ≡ control_sum trail.now }
{
    let mut sum: u32 = 0;
    for entry in trail {
        sum = ((u64::from(sum) + words_sum(entry.values)) % 0x1_0000_0000) as u32;
    }
    sum
}
