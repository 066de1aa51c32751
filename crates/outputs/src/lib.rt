// What is printed into a caller's buffer behind the bytes that are used. Each printer answers how many bytes are used
// then; a line for which there is no room is left out. Depends on rows for the listing, and on replies for the texts.
// Kept beside `Display`, as printers are.
#![tactic(auto)]

ghost use Rattle.std.specs.Prelude.{◌≡◌, ◌≤◌, length};
ghost use Rattle.replies.specs.Printed.{printed_reply, printed_row, printed_end};
ghost use Rattle.outputs.specs.Outputs.{output_of, emitted, put_rows, state_of, listed};
ghost use Rattle.sorting.specs.RowLists.{rows_at};
ghost use Rattle.outputs.specs.Room.{longest, room_for};

use replies::Reply;

// The longest text that one line is met with: 4,096 rows of 32 bytes each, and `end` with a count of up to 20 digits.
const LONGEST: usize = 131097;

// The listing's rows and its end, or its refusal.
pub fn show(
    words: &[u64],
    accounts: &mut [u32],
    totals: &mut [i64],
    out: &mut [u8],
    used: usize,
) -> usize
    ensures { state_of words.now accounts.new totals.new out.new result
        ≡ listed (state_of words.now accounts.old totals.old out.old
        used) }
{
    match rows::listing(words, accounts, totals) {
        Ok(count) => {
            let next = put_rows(accounts, totals, count as usize, out, used);
            put_end(out, next, count)
        }
        Err(why) => put_reply(out, used, Reply::Refused(why.number())),
    }
}

// The first rows of the two lists.
fn put_rows(
    accounts: &[u32],
    totals: &[i64],
    count: usize,
    out: &mut [u8],
    mut used: usize,
) -> usize
    requires { (count ≤ length accounts.now) × (count ≤ length totals.now) }
    ensures { output_of out.new result
        ≡ put_rows (output_of out.old used)
        (rows_at accounts.now totals.now 0 count) }
{
    for i in 0..count {
        used = put_row(out, used, accounts[i], totals[i]);
    }
    used
}

fn put_row(out: &mut [u8], used: usize, account: u32, total: i64) -> usize
    ensures { output_of out.new result
        ≡ emitted (output_of out.old used) (printed_row account total) }
{
    used + replies::print_row(out, used, account, total)
}

fn put_end(out: &mut [u8], used: usize, count: u64) -> usize
    ensures { output_of out.new result
        ≡ emitted (output_of out.old used) (printed_end count) }
{
    used + replies::print_end(out, used, count)
}

pub fn put_reply(out: &mut [u8], used: usize, reply: Reply) -> usize
    ensures { output_of out.new result
        ≡ emitted (output_of out.old used) (printed_reply reply) }
{
    used + replies::print_reply(out, used, reply)
}

// Whether the longest text has room behind the used bytes of a buffer.
pub fn roomy(len: usize, used: usize) -> bool
    ensures { result ≡ room_for longest len used }
{
    used <= len && LONGEST <= len - used
}
