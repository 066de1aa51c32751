// Which step of an update comes: by its worker's own steps so far.
#![tactic(auto)]

ghost use Rattle.std.specs.Prelude.{◌≡◌, ◌+◌, ◌-◌, ◌*◌, ◌≤◌, ◌<◌, leb, get_or};
ghost use Rattle.machine.specs.Choice.{when◌then◌else◌};
ghost use Rattle.machine.specs.Plan.{check_state, bucket_pass, directory_pass, pass, phase, check_number};
ghost use Rattle.phases.specs.Phases.{planned};

#[derive(Clone, Copy)]
pub enum Phase {
    Announce,
    ReadDirectory,
    Flip,
    ReadState,
    ReadToggle,
    ReadSlot(usize),
    Swap,
    Check,
    CopyDirectory,
    StateStep(usize),
    SwapDirectory,
}

// k, or what is left past one round of len steps.
pub fn reduce(k: usize, len: usize) -> usize
    ensures { result ≡ (when leb len k then k - len else k) }
{
    if k >= len { k - len } else { k }
}

// A step of the bucket pass.
fn bucket_phase(r: usize, n: usize) -> Phase
    requires { (n ≤ 8) × (r < 2 * n + 7) }
    ensures { planned result ≡ get_or (bucket_pass n) r check_state }
{
    if r < 1 {
        return Phase::Flip;
    }
    match reduce(r - 1, n + 3) {
        0 => Phase::ReadState,
        1 => Phase::ReadToggle,
        i if i < n + 2 => Phase::ReadSlot(i - 2),
        _ => Phase::Swap,
    }
}

// A step of the directory pass.
fn directory_phase(r: usize, n: usize) -> Phase
    requires { (n ≤ 8) × (r < 4 * n + 4) }
    ensures { planned result ≡ get_or (directory_pass n) r check_state }
{
    match reduce(r, 2 * n + 2) {
        0 => Phase::CopyDirectory,
        i if i <= n => Phase::ReadSlot(i - 1),
        i if i <= 2 * n => Phase::StateStep(i - (n + 1)),
        _ => Phase::SwapDirectory,
    }
}

// A step of a pass.
fn pass_phase(r: usize, n: usize) -> Phase
    requires { n ≤ 8 }
    ensures { planned result ≡ get_or (pass n) r check_state }
{
    if r < 1 {
        Phase::ReadDirectory
    } else if r < 2 * n + 8 {
        bucket_phase(r - 1, n)
    } else if r < 2 * n + 9 {
        Phase::ReadDirectory
    } else if r < 2 * n + 10 {
        Phase::Check
    } else if r < 6 * n + 14 {
        directory_phase(r - (2 * n + 10), n)
    } else if r < 6 * n + 15 {
        Phase::ReadDirectory
    } else {
        Phase::Check
    }
}

// The step that comes after k own steps.
pub fn phase_of(k: usize, n: usize) -> Phase
    requires { (n ≤ 8) × (k < 65_536) }
    ensures { planned result ≡ phase n k }
{
    match k {
        0 => Phase::Announce,
        _ => pass_phase(reduce(k - 1, 6 * n + 16), n),
    }
}

// Which check the step after k own steps is: as many as the plan has up to it.
pub fn check_number(k: u64, n: u64) -> u64
    requires { n ≤ 8 }
    ensures { result ≡ check_number n k }
{
    if k < 2 * n + 10 {
        0
    } else if k < 6 * n + 16 {
        1
    } else if k < 8 * n + 26 {
        2
    } else if k < 12 * n + 32 {
        3
    } else {
        4
    }
}
