//! The options of a dialogue, beside its two texts. This file knows no command line.

ghost use Rattle.std.specs.Prelude.{◌<◌, ◌-◌, ◌^◌};

use smt_script::Start;
use smt_theory::Profile;

/// How many steps the evaluation of a model may cost: the sum over the assertions in force and the assumptions of
/// the check (`smt_eval::cost`), from 0 to 2^64 - 2. A model that costs more is reported as too long, and is not
/// evaluated.
#[derive(Clone, Copy)]
pub struct Limit {
    pub steps: u64,
    // (costs are counted up to 2^64 - 1, which means that much or more)
    pub ghost below: { steps < 2 ^ 64 - 1 },
}

/// The options of a dialogue, beside its two texts.
#[derive(Clone, Copy)]
pub struct Options {
    /// Whether the solver prints `success`, from the start, for commands without an answer of their own (SMT-LIB
    /// 2.6, section 4.1.7). A script may change that later.
    pub print_success: bool,
    /// Which language the script and the answers are in.
    pub profile: Profile,
    pub limit: Limit,
}

impl Options {
    ghost use Rattle.std.specs.Prelude.{◌≡◌};
    ghost use Rattle.smt_dialogue.specs.InForce.{start_by};
    ghost use Rattle.smt_dialogue.specs.Depth.{max_depth_of};

    /// How deep lists may nest in the script and in the answers, a list at the top being at depth 1: 1,000 in the
    /// base profile, and 1,000,000 in the wide profile.
    pub fn max_depth(self) -> usize
        ensures { result ≡ max_depth_of self.profile }
    {
        match self.profile {
            Profile::Base => 1000,
            Profile::Wide => 1_000_000,
        }
    }

    /// The options that hold before the first command of the script.
    pub(crate) fn start(self) -> Start
        ensures { result ≡ start_by self }
    {
        Start {
            print_success: self.print_success,
            profile: self.profile,
        }
    }
}
