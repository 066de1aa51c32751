// The lent words by name: constants of the same names and values as the definitions of specs/Fields.antt.
#![tactic(auto)]

use interface::Settings;

// ---- the header

pub const HEADER_SETTINGS: usize = 0;

pub const HEADER_NEEDED: usize = 1;

pub const HEADER_DEPTH: usize = 2;

pub const HEADER_NUMBER: usize = 3;

pub const HEADER_SPARE: usize = 4;

pub const HEADER_SIZE: usize = 16;

// The first word: its units, the greatest depth it can keep, the mark of an open table, and from where to where it is
// with that mark and no depth above the greatest setting.
pub const CAPACITY_UNIT: u64 = Settings::GREATEST_WORKERS;

pub const DEPTH_UNIT: u64 = CAPACITY_UNIT * Settings::GREATEST_CAPACITY;

pub const DEEPEST: u64 = 15;

pub const MARK_UNIT: u64 = DEPTH_UNIT * (DEEPEST + 1);

pub const MARK: u64 = 6004514766;

pub const LEAST_FIRST: u64 = MARK * MARK_UNIT;

pub const GREATEST_FIRST: u64 = LEAST_FIRST + (Settings::GREATEST_DEPTH + 1) * DEPTH_UNIT - 1;

// ---- a slot

pub const SLOT_KIND: usize = 0;

pub const SLOT_ACCOUNT: usize = 1;

pub const SLOT_TOTAL: usize = 2;

pub const SLOT_TICKET: usize = 3;

pub const SLOT_SIZE: usize = 4;

// ---- a worker's record

pub const WORKER_KIND: usize = SLOT_KIND;

pub const WORKER_ACCOUNT: usize = SLOT_ACCOUNT;

pub const WORKER_TOTAL: usize = SLOT_TOTAL;

pub const WORKER_TICKET: usize = SLOT_TICKET;

pub const WORKER_STEPS: usize = 4;

pub const STEPS_RANGE: u64 = 65536;

pub const WORKER_HELD: usize = 5;

pub const WORKER_STATE: usize = 6;

pub const WORKER_TOGGLE: usize = 7;

pub const WORKER_DIRECTORY: usize = 8;

pub const WORKER_MARKS: usize = 9;

pub const WORKER_SLOTS: usize = 24;

// ---- a bucket's record

pub const RECORD_COUNT: usize = 0;

pub const RECORD_APPLIED: usize = 1;

pub const RECORD_TOGGLE: usize = 2;

pub const RECORD_DEPTH: usize = 3;

pub const RECORD_PREFIX: usize = 4;

pub const RECORD_NUMBER: usize = 5;

pub const RECORD_ACCOUNTS: usize = 6;

// ---- sizes

const LEAST_WORKERS: usize = Settings::LEAST_WORKERS as usize;

const LEAST_CAPACITY: usize = Settings::LEAST_CAPACITY as usize;

const LEAST_RECORD: usize = 2 * LEAST_CAPACITY + 3 * LEAST_WORKERS + RECORD_ACCOUNTS;

pub const WIDEST_RECORD: usize = 2 * (Settings::GREATEST_CAPACITY as usize)
    + 3 * (Settings::GREATEST_WORKERS as usize)
    + RECORD_ACCOUNTS;

pub const SPARE_RECORDS: usize = 2;

pub const SPARE_WORDS: usize = WIDEST_RECORD - 1;

pub const LEAST_WORDS: usize = HEADER_SIZE
    + SLOT_SIZE * LEAST_WORKERS
    + LEAST_WORKERS * (SLOT_SIZE * LEAST_WORKERS + WORKER_SLOTS)
    + (1 << Settings::LEAST_DEPTH)
    + ((1 << Settings::LEAST_DEPTH) + LEAST_WORKERS + SPARE_RECORDS) * LEAST_RECORD
    + SPARE_WORDS;
