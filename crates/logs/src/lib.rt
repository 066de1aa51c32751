// The length of a log and of its operations in words. All else here is definitions (specs/) and theorems (proofs/).
#![tactic(auto)]

// The words of one operation: worker, kind, account, total, answer, the answer's total, call and end.
pub const OPERATION_WORDS: usize = 8;

// The most operations of a log.
pub const GREATEST_OPERATIONS: usize = 12;

// Where each field of an operation stands among its words.
pub const LOGGED_WORKER: usize = 0;

pub const LOGGED_KIND: usize = 1;

pub const LOGGED_ACCOUNT: usize = 2;

pub const LOGGED_TOTAL: usize = 3;

pub const LOGGED_ANSWER: usize = 4;

pub const LOGGED_ANSWER_TOTAL: usize = 5;

pub const LOGGED_CALL: usize = 6;

pub const LOGGED_END: usize = 7;
