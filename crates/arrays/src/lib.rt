// Slices of words: an item put in or taken out, the later ones moved, and the search among ascending accounts. One
// search serves a bucket's state, the update in place and the lookup. It counts in a byte: a bucket has at most 16
// accounts (docs/DECISIONS.md, 70, 71). Each contract is an equality with a definition of specs/.
#![tactic(auto)]

ghost use Rattle.std.specs.Prelude.{◌≡◌, ◌≤◌, length};
ghost use Rattle.interface.specs.Limits.{greatest_capacity};
ghost use Rattle.arrays.specs.Arrays.{inserted_in, removed_from, scan};

// Where an account stands among ascending accounts, or before which it belongs: document 02's place found, in a byte.
// Kept beside the `Result<u8, u8>` of a binary search: neither of the two is an error, as Ok and Err would have it.
#[derive(Clone, Copy)]
pub enum Position {
    At(u8),
    Before(u8),
}

// v put at position i of a slice's first c items, the later ones moved up, where there is room.
pub fn raise(a: &mut [u64], c: usize, i: usize, v: u64)
    ensures { a.new ≡ inserted_in a.old c i v }
{
    if c < a.len() && i <= c {
        // Kept: a loop. With `copy_within` an insert takes 37 instructions more of 1,818.
        for k in (i..c).rev() {
            a[k + 1] = a[k];
        }
        a[i] = v;
    }
}

// Position i taken out of a slice's first c items, the later ones moved down.
pub fn lower(a: &mut [u64], c: usize, i: usize)
    ensures { a.new ≡ removed_from a.old c i }
{
    if c <= a.len() && i < c {
        a.copy_within(i + 1..c, i);
    }
}

// The first position whose account is not below this one.
pub fn scan(accounts: &[u64], account: u64) -> Position
    requires { length accounts.now ≤ greatest_capacity }
    ensures { result ≡ scan accounts.now account 0 }
{
    let count = accounts.len() as u8;
    for i in 0..count {
        let x = accounts[i as usize];
        if account <= x {
            return if account == x {
                Position::At(i)
            } else {
                Position::Before(i)
            };
        }
    }
    Position::Before(count)
}
