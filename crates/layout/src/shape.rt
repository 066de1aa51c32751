// The header of the lent words: the settings it keeps, and the checks behind 8.
ghost use Rattle.std.specs.Prelude.{◌≡◌, ◌≤◌};
ghost use Rattle.interface.specs.Limits.{greatest_workers};
ghost use Rattle.fields.specs.Regions.{directory_start};
ghost use Rattle.layout.specs.Shape.{strange, settings_of};

use crate::addresses::worker_at;
use fields::{
    CAPACITY_UNIT, DEEPEST, DEPTH_UNIT, GREATEST_FIRST, HEADER_NEEDED, HEADER_SETTINGS,
    LEAST_FIRST, LEAST_WORDS, WIDEST_RECORD,
};
use interface::Settings;

// The settings that a first word keeps. Kept beside `From<u64>`: a word is no settings, it holds them and a mark.
pub fn settings_of(x: u64) -> Settings
    ensures { result ≡ settings_of x }
{
    Settings {
        workers: x % Settings::GREATEST_WORKERS + 1,
        capacity: x / CAPACITY_UNIT % Settings::GREATEST_CAPACITY + 1,
        depth: x / DEPTH_UNIT % (DEEPEST + 1),
    }
}

// Where the directory begins: where one more worker's record would.
pub fn directory_start(g: Settings) -> usize
    requires { g.workers ≤ greatest_workers }
    ensures { result ≡ directory_start g.workers }
{
    worker_at(g, g.workers as usize)
}

// Whether the words fail the checks behind 8.
pub fn strange_words(words: &[u64]) -> bool
    ensures { result ≡ strange words.now }
{
    let len = words.len();
    if len < LEAST_WORDS {
        return true;
    }
    let x = words[HEADER_SETTINGS];
    if x < LEAST_FIRST {
        return true;
    }
    if GREATEST_FIRST < x {
        return true;
    }
    if (len as u64) < words[HEADER_NEEDED] {
        return true;
    }
    len < directory_start(settings_of(x)) + WIDEST_RECORD
}
