//! The options of a dialogue, as C passes them. This file reads no text.

ghost use Rattle.std.specs.Prelude.{◌≡◌, ◌-◌, ◌^◌, MatchOption};
ghost use Rattle.smtcheck_c.specs.Given.{AreGiven};

use smt_dialogue::{Limit, Options, Profile};

/// `struct smtcheck_options`: the options of a dialogue, beside its two texts.
#[repr(C)]
#[derive(Clone, Copy)]
pub struct SmtcheckOptions {
    /// How many steps the evaluation of a model may take, from 0 to 2^64 - 2. With 2^64 - 1 an export returns 5.
    pub steps: u64,
    /// Whether the solver prints `success`, from the start, for commands without an answer of their own (SMT-LIB
    /// 2.6, section 4.1.7).
    pub print_success: bool,
    /// Whether the language is that of the profile `Wide`, and not that of `Base`.
    pub wide: bool,
}

/// The options that C has given; `None` where `steps` is 2^64 - 1. That is no limit, since costs are counted up to
/// that number.
pub(crate) fn options_of(given: &SmtcheckOptions) -> Option<Options>
    ensures { MatchOption result (given.now.steps ≡ 2 ^ 64 - 1)
        (λ options. AreGiven given.now options) }
{
    let steps = given.steps;
    if steps == u64::MAX {
        return None;
    }
    Some(Options {
        print_success: given.print_success,
        profile: if given.wide {
            Profile::Wide
        } else {
            Profile::Base
        },
        limit: Limit { steps },
    })
}
