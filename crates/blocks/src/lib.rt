// Blocks of words, one after another in a buffer.
#![tactic(auto)]

ghost use Rattle.std.specs.Prelude.{◌≡◌, ℕ, ◌*◌, ◌<◌, ◌≤◌, length, drop};
ghost use Rattle.std.specs.Fork.{AcceptsAt, ChangesAt, slice_chunk};

// Fills a buffer block by block: `fill` gets the number of a block, from 0, and the block, of `size` words.
// Not by `chunks_exact_mut`: its contract in std doesn't say what the slice holds in the end.
pub fn fill_blocks<F: Fn(usize, &mut [u64])>(words: &mut [u64], size: usize, count: usize, fill: F)
    requires room { count * size ≤ length words.old }
    requires accepts { (i : ℕ) → i < count → AcceptsAt F.Fn fill i (slice_chunk words.old size i) }
    ensures blocks { (i : ℕ) → i < count → ChangesAt F.Fn fill i (slice_chunk words.old size i) (slice_chunk words.new size i) }
    ensures rest { drop (count * size) words.new ≡ drop (count * size) words.old }
{
    for i in 0..count {
        let start = i * size;
        fill(i, &mut words[start..start + size]);
    }
}
