//! What commands need of the answers. This file knows no answer, no pairs, and nothing that is in force.

ghost use Rattle.std.specs.Prelude.{◌≡◌};
ghost use Rattle.smt_dialogue.specs.Answers as answers;

use smt_script::Kind;
use smt_theory::Profile;

/// Which answers a command accepts (SMT-LIB 2.6, section 3.9.1).
#[derive(Clone, Copy)]
pub enum AnswerForm {
    /// `success`, `unsupported` or an error.
    General,
    /// `success`.
    Success,
    /// `unsupported`.
    Unsupported,
    /// `sat`, `unsat`, `unknown`, `unsupported` or an error.
    Check,
    /// A list, an error among them, or `unsupported`.
    Model,
    /// A string, `unsupported` or an error.
    Echo,
    /// Every tree but `success`.
    Other,
}

/// What a command needs of the answers.
#[derive(Clone, Copy)]
pub enum Need {
    /// It accepts no answer.
    Nothing,
    /// It accepts the next answer exactly where that has this form.
    Optional(AnswerForm),
    /// It accepts the next answer, which must have this form.
    Needed(AnswerForm),
}

/// What a command of this kind needs of the answers in a profile. `print_success` says whether the solver prints
/// `success` for a command that has no answer of its own (SMT-LIB 2.6, section 4.1.7).
pub(crate) fn need_of(profile: Profile, print_success: bool, kind: Kind) -> Need
    ensures { result ≡ answers.need_of_kind profile print_success kind }
{
    match kind {
        Kind::Check => Need::Needed(AnswerForm::Check),
        Kind::Model => Need::Needed(AnswerForm::Model),
        Kind::Echo => Need::Needed(AnswerForm::Echo),
        Kind::Query => Need::Needed(AnswerForm::Other),
        Kind::Exit => Need::Optional(AnswerForm::Success),
        Kind::PrintSuccess { on: true } => Need::Needed(AnswerForm::General),
        Kind::PrintSuccess { on: false } => Need::Optional(AnswerForm::General),
        Kind::Setting | Kind::Logic { .. } | Kind::Change | Kind::Reset if print_success => {
            Need::Needed(AnswerForm::General)
        }
        Kind::Setting => Need::Optional(AnswerForm::Unsupported),
        Kind::Logic { is_known } => silent_logic_need(profile, is_known),
        Kind::Change | Kind::Reset => Need::Nothing,
    }
}

// What a command that sets a logic needs where the solver prints no `success`: in the wide profile the solver may
// answer that it does not know the logic, where the profile does not know it either.
fn silent_logic_need(profile: Profile, is_known: bool) -> Need
    ensures { result ≡ answers.silent_logic_need profile is_known }
{
    match profile {
        Profile::Base => Need::Nothing,
        Profile::Wide if is_known => Need::Nothing,
        Profile::Wide => Need::Optional(AnswerForm::Unsupported),
    }
}
