//! The dialogue of a script and its answers: which answer belongs to which command, whether the models confirm
//! each `sat`, and the report.
//!
//! The layer above uses one contract: `validate` returns the report of the two texts, and its verdict means what
//! it says. `Session` accepts the texts in pieces, and `run` pulls them from two sources.
//!
//! A call, and the lines of the report that it returns:
//!
//! ```text
//! let options = Options { print_success: false, profile: Profile::Base, limit: Limit { steps: 10_000_000 } };
//! let script = b"(declare-const p Bool)(assert p)(check-sat)(get-model)(assert (not p))(check-sat)";
//! let answers = b"sat ((define-fun p () Bool true)) unsat";
//! validate(alloc, script, answers, options)?                                // its `lines`:
//! check 1 at command 3: sat, confirmed
//! check 2 at command 6: unsat
//! verdict: valid, confirmed 1, refuted 0, undecided 0, unchecked 1
//! ```
#![tactic(auto)]

mod accepted;
mod answer;
mod checks;
mod claims;
mod given_text;
mod judgement;
pub mod laws;
mod line_queue;
mod need;
mod next_answer;
mod options;
mod outlet;
mod pairing;
mod replay;
mod runs;
mod session;
mod tree_queue;
mod turn;
mod validation;

pub use options::{Limit, Options};
pub use replay::Replay;
pub use runs::{RunFault, run};
pub use session::{Failed, Session};
pub use smt_eval::Memory;
pub use smt_report::{
    CheckAnswer, Claim, Line, LineVisitor, Report, Side, Summary, Tally, Verdict,
};
pub use smt_streams::{Device, Sink, Source};
pub use smt_theory::Profile;
pub use validation::validate;
