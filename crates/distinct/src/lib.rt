// "No number but 0 stands twice", over plain numbers: exact for every list, and near-linear where the numbers are ordinary.
//
// The places of each number fall into 1,024 slots, and those of one slot are chained from the last to the first. A new number is looked for
// along the chain of its slot; where that is longer than 8, among all that came before. So a list of which much falls into one slot costs
// the square of its length, and one that is spread about its length (docs/SPEED.md). It knows nothing of tables.
#![tactic(auto)]

ghost use Rattle.std.specs.Prelude.{◌≡◌, true, ℕ, ◌<◌, get_or};
ghost use Rattle.distinct.specs.Distinct.{has, distinct_of, unique_of};
ghost use Rattle.distinct.specs.Chain.{slot_of, Walk};

// The slot of x: the upper bits of its product with a number near 2^32 divided by the golden ratio.
#[tactic(auto, unfolding(crate::specs::Chain::slot_of))]
fn slot(x: u32) -> usize
    ensures { (result ≡ slot_of x) × (result < 1024) }
{
    (u64::from(x) * 2654435761 / 4194304 % 1024) as usize
}

// x is one of the keys. Every one is looked at, so that the loop goes several keys at a time.
#[tactic(auto, using(crate::proofs::Laws::has_next), unfolding(crate::specs::Distinct::has))]
fn among(keys: &[u32], x: u32) -> bool
    ensures { result ≡ has x keys.now }
{
    let mut found = false;
    for &key in keys {
        found |= key == x;
    }
    found
}

// True only if none of the first i keys is x. At most 8 steps along the chain of x, from `at` on; a place p is written p + 1, and 0 ends a
// chain.
fn clear(keys: &[u32], next: &[u16; 1024], at: usize, x: u32, i: usize) -> bool
    requires { Walk keys.now next.now i x at }
    ensures { result ≡ true → (j : ℕ) → j < i → get_or keys.now j 0 ≡ x → ⊥ }
{
    let mut a = at;
    for _ in 0..8 {
        if a == 0 {
            return true;
        }
        let p = a - 1;
        if keys[p] == x {
            return false;
        }
        a = usize::from(next[p]);
    }
    false
}

// The same by the plain way, for lists that the chains have no room for.
fn plain(keys: &[u32]) -> bool
    ensures { result ≡ distinct_of keys.now }
{
    for (i, &x) in keys.iter().enumerate() {
        if x != 0 && among(&keys[..i], x) {
            return false;
        }
    }
    true
}

// No key but 0 stands twice.
pub fn distinct(keys: &[u32]) -> bool
    ensures { result ≡ distinct_of keys.now }
{
    if 1024 < keys.len() {
        return plain(keys);
    }
    let mut head = [0u16; 1024];
    let mut next = [0u16; 1024];
    for (i, &x) in keys.iter().enumerate() {
        let b = slot(x);
        let h = head[b];
        if x != 0 {
            if !clear(keys, &next, usize::from(h), x, i) && among(&keys[..i], x) {
                return false;
            }
            head[b] = (i + 1) as u16;
        }
        next[i] = h;
    }
    true
}

// No key but 0 stands twice among the first n; false where there are not n.
pub fn unique(keys: &[u32], n: usize) -> bool
    ensures { result ≡ unique_of keys.now n }
{
    n <= keys.len() && distinct(&keys[..n])
}
