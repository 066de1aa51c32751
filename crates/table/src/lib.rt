// The table over lent words, as the other crates call it: how many words are needed, opening, calls, steps, runs, the
// listing, the rebates on its totals and its export; and the place of an account, with the way back, and the rebate on
// a total.
// Every one of these functions takes any words and any arguments; its contract equals a definition of specs/ in the
// crate that it stands in, or of the machine's.
#![tactic(auto)]

pub use calls::call;
pub use export::export;
pub use opening::{open, words_needed};
pub use places::{account_at, place};
pub use rebate::rebate;
pub use rebates::rebates;
pub use rows::listing;
pub use runs::run;
pub use turns::step;
