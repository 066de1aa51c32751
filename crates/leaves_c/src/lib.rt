// The function of `leaves` as an export to C, for the comparison under bench/.
// Kept beside it: a crate is a library or a static library, and other crates name that one.
#![tactic(auto)]

// 1 searches the record at q; any other number stores the changed state at `to`. Nothing is done where a record does
// not fit.
#[unsafe(no_mangle)]
pub extern "C" fn leaf(
    words: &mut [u64],
    which: u64,
    q: usize,
    to: usize,
    b: usize,
    n: usize,
    account: u64,
    total: u64,
) -> u64 {
    leaves::leaf(words, which, q, to, b, n, account, total)
}
