// The rules that a bucket's words are read by: the bits of an account, when a bucket is full and what follows from it,
// the update in a slot, when it is pending, and one bit of a word changed. Each contract is an equality with a
// definition.
#![tactic(auto)]

ghost use Rattle.std.specs.Prelude.{◌≡◌, ◌+◌, ◌≤◌, ◌<◌, length};
ghost use Rattle.fields.specs.Fields.{slot_size};
ghost use Rattle.machine.specs.Sequential.{first_bits};
ghost use Rattle.rules.specs.Rules.{full_by, holds_back_by, splittable_by, descriptor_in, creates_by, crowded_by, answer_by, flip_bit, pending_by};

use arrays::Position;
use fields::{SLOT_ACCOUNT, SLOT_KIND, SLOT_TICKET, SLOT_TOTAL};
use interface::{KIND_INSERT, KIND_POST, Settings};

// A worker's update as announced in its slot: the field's operation descriptor.
#[derive(Clone, Copy)]
pub struct Descriptor {
    pub kind: u64,
    pub account: u64,
    pub total: u64,
    pub ticket: u64,
}

// ---- the bits of an account

// The first d bits of an account: those of its place, of 32.
pub fn first_bits(d: u64, account: u64) -> u64
    ensures { result ≡ first_bits d account }
{
    places::place_in(account) >> 32u64.saturating_sub(d)
}

// ---- full buckets: by the settings, the bucket's depth and how many accounts it has

// Whether there is no room left.
pub fn full(s: Settings, count: u64) -> bool
    ensures { result ≡ full_by s count }
{
    s.capacity <= count
}

// Whether the bucket is to be split.
pub fn splittable(s: Settings, depth: u64, count: u64) -> bool
    ensures { result ≡ splittable_by s depth count }
{
    full(s, count) && depth < s.depth
}

// Whether the bucket takes no update.
pub fn holds_back(s: Settings, depth: u64, count: u64) -> bool
    ensures { result ≡ holds_back_by s depth count }
{
    splittable(s, depth, count)
}

// ---- one update

// The update in the slot whose words stand from `at` on.
pub fn descriptor_at(words: &[u64], at: usize) -> Descriptor
    requires { at + slot_size ≤ length words.now }
    ensures { result ≡ descriptor_in words.now at }
{
    Descriptor {
        kind: words[at + SLOT_KIND],
        account: words[at + SLOT_ACCOUNT],
        total: words[at + SLOT_TOTAL],
        ticket: words[at + SLOT_TICKET],
    }
}

// Whether an update of this kind makes a new account, where a search gave position p.
fn creates(kind: u64, p: Position) -> bool
    ensures { result ≡ creates_by kind p }
{
    match p {
        Position::At(_) => false,
        Position::Before(_) => kind == KIND_INSERT || kind == KIND_POST,
    }
}

// Whether that update is crowded, in a bucket with so many accounts.
pub fn crowded(s: Settings, count: u64, kind: u64, p: Position) -> bool
    ensures { result ≡ crowded_by s count kind p }
{
    full(s, count) && creates(kind, p)
}

// One number where the account stands there, the other where it is missing.
pub fn answer_number(p: Position, there: u64, missing: u64) -> u64
    ensures { result ≡ answer_by p there missing }
{
    match p {
        Position::At(_) => there,
        Position::Before(_) => missing,
    }
}

// A word with bit w changed.
pub fn flip_bit(x: u64, w: usize) -> u64
    requires { w < 64 }
    ensures { result ≡ flip_bit x w }
{
    let bit: u64 = 1 << w;
    if (x >> w) % 2 == 0 { x + bit } else { x - bit }
}

// Whether worker j's update is to be carried out: its toggle bit differs from its applied bit, and its ticket is above
// the last settled one.
pub fn pending(toggle: u64, applied: u64, j: usize, settled: u64, ticket: u64) -> bool
    ensures { result ≡ pending_by toggle applied j settled ticket }
{
    j < 64 && (toggle >> j) % 2 != (applied >> j) % 2 && settled < ticket
}
