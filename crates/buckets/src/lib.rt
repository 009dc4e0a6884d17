// An index of the numbers 0, 1, .. by bucket. `heads` has for each bucket the last number put in it, `nexts` for each number the one put in
// before it in the same bucket; both count from 1, and 0 stands for none. What is in which bucket is the caller's to say. The idea of the
// proof: the head of a bucket is the last in it of the numbers below k, and what stands at c in `nexts` is what that head was when k was c.
// `head` and `next` answer 0 for none and no Option: the search for an image chooses between two such numbers without a branch, and has more instructions with an Option.
#![tactic(auto)]

ghost use Rattle.std.specs.Prelude.{◌≡◌, ℕ, ◌+◌, ◌<◌, length, get_or};
ghost use Rattle.buckets.specs.Buckets.{IndexHolds};

// Puts c, the next number, in a bucket.
pub fn put(heads: &mut [u16], nexts: &mut [u16], bucket: usize, c: usize)
    requires { (bucket < length heads.old) × (c < length nexts.old) × (c < 65535) }
    ensures { (bucket_of : ℕ → ℕ) → bucket_of c ≡ bucket
        → IndexHolds bucket_of c heads.old nexts.old
        → IndexHolds bucket_of (c + 1) heads.new nexts.new }
{
    nexts[c] = heads[bucket];
    heads[bucket] = (c + 1) as u16;
}

// Where the walk of a bucket begins.
pub fn head(heads: &[u16], bucket: usize) -> usize
    requires { bucket < length heads.now }
    ensures { result ≡ get_or heads.now bucket 0 }
{
    heads[bucket] as usize
}

// Where it goes on from c.
pub fn next(nexts: &[u16], c: usize) -> usize
    requires { c < length nexts.now }
    ensures { result ≡ get_or nexts.now c 0 }
{
    nexts[c] as usize
}
