//! The walk over a term: lists in it are checked one after another, and the parts of the term that wait for them are
//! frames on a stack. This file finds no sort itself, and adds no name to a library.

ghost use Rattle.std.specs.Prelude.{◌≡◌, ◌<◌, ◌≤◌, ◌+◌, ◌*◌, ◌∷◌, [], IfErr, IfOk, MatchResult, OnOk, length, reverse};
ghost use Rattle.smt_trees.specs.Places.{LiesIn, size_of};
ghost use Rattle.smt_trees.specs.Sexp.{Cons, Items};
ghost use Rattle.smt_trees.specs.View.{sexp_of, sexps_of};
ghost use Rattle.smt_terms.specs.Internal.Calls.{GivesLabels, HasSort, HasTheSame, SeesTheSame};
ghost use Rattle.smt_terms.specs.Internal.DraftView.{IsPlaced, argument_sorts, is_open, seen_by};
ghost use Rattle.smt_terms.specs.Internal.Frames.{AreNested, Begins, Begun, Chain, Enters, HasFault, IsCalled, IsDone};
ghost use Rattle.smt_terms.specs.Internal.Frames.{IsLess, IsLessStep, IsNested, IsNext, IsStep, Lie};
ghost use Rattle.smt_terms.specs.Internal.Frames.{MayGoOn, begun, place_behind, work};
ghost use Rattle.smt_terms.specs.Internal.SoFar.{IsPlainHead};
ghost use Rattle.smt_terms.specs.Internal.NodesView.{GrowsTo, Stands};
ghost use Rattle.smt_terms.specs.declared.library.frames.Next.TheVariants.{Checked, Enter};

use crate::library::Library;
use crate::library::draft::{CheckedTerm, Draft};
use crate::library::frames::{Application, Frame, Next, Part, Step, narrow, place_before};
use smt_faults::TermFault;
use smt_forms::{applied_flaw, is_as, is_bang, is_let, is_underscore};
use smt_trees::{Tree, Trees, Word};

impl Library<'_> {
    /// The sort and the node of a term over these names and the variables that it sees, or its first fault. Unless it
    /// fails, the draft then has the variables and the arguments of before. The draft may gain nodes and labels, at a
    /// fault too. This many annotations without a label are directly round the term already; its node keeps how many
    /// there are with those that the term begins with. The parts of a term start from none.
    #[inline(always)]
    pub(crate) fn sort_of<'a>(
        &self,
        draft: &mut Draft<'a>,
        term: Tree<'a>,
        around: u32,
    ) -> Result<CheckedTerm, TermFault>
        requires { IsPlaced (seen_by draft.old) draft.old.base }
        ensures sort { HasSort self.now draft.old (sexp_of term.entry) result }
        ensures labels { GivesLabels self.now draft.old draft.new (sexp_of term.entry) result }
        ensures kept { OnOk result (SeesTheSame draft.old draft.new) }
        ensures waiting { OnOk result (HasTheSame draft.old draft.new) }
        ensures open { IfOk result (λ c. c.is_open ≡ is_open draft.old (sexp_of term.entry)) }
        ensures node { IfOk result (Stands self.now draft.old draft.new around (sexp_of term.entry)) }
        ensures longer { GrowsTo draft.old draft.new }
    {
        match term {
            Tree::List(whole) => self.sort_of_list(draft, whole, around),
            _ => self.sort_of_atom(draft, term, around),
        }
    }

    // The sort and the node of a term that is a list of these parts, or its first fault.
    fn sort_of_list<'a>(
        &self,
        draft: &mut Draft<'a>,
        whole: Trees<'a>,
        around: u32,
    ) -> Result<CheckedTerm, TermFault>
        requires { IsPlaced (seen_by draft.old) draft.old.base }
        ensures done { IfOk result
            (IsDone self.now (begun (Items (sexps_of whole.entry)) around draft.old) draft.new) }
        ensures fault { IfErr result
            (HasFault self.now (begun (Items (sexps_of whole.entry)) around draft.old)) }
        ensures longer { GrowsTo draft.old draft.new }
    {
        let mut frames = draft.arguments.take_frames(self.alloc);
        let checked = self.walk(draft, &mut frames, whole, around)?;
        draft.arguments.keep_frames(frames);
        Ok(checked)
    }

    // The same, on a stack that is empty.
    pub(super) fn walk<'a>(
        &self,
        draft: &mut Draft<'a>,
        frames: &mut Vec<Frame>,
        whole: Trees<'a>,
        around: u32,
    ) -> Result<CheckedTerm, TermFault>
        requires placed { IsPlaced (seen_by draft.old) draft.old.base }
        requires none { frames.old.items ≡ [] }
        ensures done { IfOk result
            (IsDone self.now (begun (Items (sexps_of whole.entry)) around draft.old) draft.new) }
        ensures fault { IfErr result
            (HasFault self.now (begun (Items (sexps_of whole.entry)) around draft.old)) }
        ensures longer { GrowsTo draft.old draft.new }
    {
        let from = narrow(whole.size())?;
        let mut step = Step::Next(Next::Enter(Part {
            from,
            to: 0,
            around,
        }));
        loop {
            step = match step {
                Step::Next(Next::Enter(part)) => self.enter(draft, frames, whole, part)?,
                Step::Next(Next::Checked(checked)) => match frames.pop() {
                    Some(frame) => self.go_on(draft, frames, whole, frame, checked)?,
                    None => return Ok(checked),
                },
                Step::Arguments {
                    application,
                    left,
                    is_open,
                } => {
                    let left = whole.between(left as usize, application.end as usize);
                    let next = self.check_arguments(
                        draft,
                        frames,
                        whole,
                        application,
                        left,
                        is_open,
                    )?;
                    Step::Next(next)
                }
            };
        }
    }

    // Begins the check of a list.
    #[inline(always)]
    fn enter<'a>(
        &self,
        draft: &mut Draft<'a>,
        frames: &mut Vec<Frame>,
        whole: Trees<'a>,
        part: Part,
    ) -> Result<Step, TermFault>
        requires { IsPlaced (seen_by draft.old) draft.old.base }
        ensures next { (first : Begun)
            → Enters self.now whole.entry (reverse frames.old.items) first draft.old part
            → MatchResult result (IsStep self.now whole.entry (reverse frames.new.items) first draft.new)
            (HasFault self.now first) }
        ensures less { IsNested (reverse frames.old.items) (Enter part) → IfOk result
            (IsLessStep (reverse frames.new.items) (work (reverse frames.old.items) (Enter part))) }
        ensures longer { GrowsTo draft.old draft.new }
    {
        let parts = whole.between(part.from as usize, part.to as usize);
        let Some((head, args)) = parts.split_placed() else {
            return Err(TermFault::Form);
        };
        if is_underscore(head) {
            let checked = self.sort_of_indexed_alone(draft, args, part.around)?;
            return Ok(Step::Next(Next::Checked(checked)));
        }
        if is_let(head) {
            let next = self.enter_let(draft, frames, whole, args, part)?;
            return Ok(Step::Next(next));
        }
        if is_bang(head) {
            let next = self.enter_annotated(draft, frames, args, part)?;
            return Ok(Step::Next(next));
        }
        if is_as(head) {
            let checked = self.sort_of_qualified(draft, args, part.around)?;
            return Ok(Step::Next(Next::Checked(checked)));
        }
        self.enter_application(draft, frames, whole, head, args, part)
    }

    // Begins the check of a list with another head.
    #[inline(always)]
    fn enter_application<'a>(
        &self,
        draft: &mut Draft<'a>,
        frames: &mut Vec<Frame>,
        whole: Trees<'a>,
        head: Tree<'a>,
        args: Trees<'a>,
        part: Part,
    ) -> Result<Step, TermFault>
        requires { IsPlaced (seen_by draft.old) draft.old.base }
        ensures next { (first : Begun) → IsPlainHead (sexp_of head.entry)
            → Lie whole.entry part.from part.to (Cons (sexp_of head.entry) (sexps_of args.entry))
            → LiesIn whole.entry args.entry part.to
            → Chain self.now whole.entry (reverse frames.old.items) first
            (begun (Items (Cons (sexp_of head.entry) (sexps_of args.entry))) part.around draft.old)
            → MatchResult result (IsStep self.now whole.entry (reverse frames.new.items) first draft.new)
            (HasFault self.now first) }
        ensures less { IsNested (reverse frames.old.items) (Enter part) → size_of args.entry + part.to < part.from
            → IfOk result (IsLessStep (reverse frames.new.items) (work (reverse frames.old.items) (Enter part))) }
        ensures longer { GrowsTo draft.old draft.new }
    {
        if let Some(flaw) = applied_flaw(self.sorts.theories.wide, head, args) {
            return Err(TermFault::from(flaw));
        }
        let start = narrow(draft.arguments.len())?;
        let application = Application {
            parts: part.from,
            end: part.to,
            start,
            around: part.around,
        };
        Ok(Step::Arguments {
            application,
            left: place_before(args.size(), part.to)?,
            is_open: false,
        })
    }

    // Checks the arguments that are left of an application up to one that is a list, or the application where there is
    // none.
    #[inline(always)]
    fn check_arguments<'a>(
        &self,
        draft: &mut Draft<'a>,
        frames: &mut Vec<Frame>,
        whole: Trees<'a>,
        application: Application,
        left: Trees<'a>,
        is_open: bool,
    ) -> Result<Next, TermFault>
        requires placed { IsPlaced (seen_by draft.old) draft.old.base }
        requires start { application.start ≤ length (argument_sorts draft.old.arguments) }
        ensures next { (first outer : Begun) → IsPlaced (seen_by outer.draft) outer.draft.base
            → IsCalled self.now whole.entry application left.entry is_open outer draft.old
            → Chain self.now whole.entry (reverse frames.old.items) first outer
            → MatchResult result (IsNext self.now whole.entry (reverse frames.new.items) first draft.new)
            (HasFault self.now first) }
        ensures less { AreNested (reverse frames.old.items)
            → place_behind (reverse frames.old.items) ≤ application.end
            → IfOk result (IsLess (reverse frames.new.items)
            (3 * (size_of left.entry + application.end) + 2 + 2 * length (reverse frames.old.items))) }
        ensures longer { GrowsTo draft.old draft.new }
    {
        let mut is_open = is_open;
        let mut left = left;
        while let Some((term, rest)) = left.split_placed() {
            match self.begin(draft, term, rest.size(), application.end, 0)? {
                Next::Checked(checked) => {
                    draft.arguments.push(checked.sort, checked.node)?;
                    is_open |= checked.is_open;
                    left = rest;
                }
                Next::Enter(part) => {
                    frames.push(Frame::Argument {
                        application,
                        left: part.to,
                        is_open,
                    })?;
                    return Ok(Next::Enter(part));
                }
            }
        }
        let checked = self.sort_of_application(draft, whole, application, is_open)?;
        draft.arguments.truncate(application.start as usize);
        Ok(Next::Checked(checked))
    }

    // Begins the check of a term that ends so many cells before a place: finds the sort and the node of what is no
    // list. An identifier with indexes is no list here.
    #[inline(always)]
    pub(super) fn begin<'a>(
        &self,
        draft: &mut Draft<'a>,
        term: Tree<'a>,
        behind: usize,
        end: u32,
        around: u32,
    ) -> Result<Next, TermFault>
        requires { IsPlaced (seen_by draft.old) draft.old.base }
        ensures begun { IfOk result
            (Begins self.now (begun (sexp_of term.entry) around draft.old) draft.new term.entry (behind + end)) }
        ensures fault { IfErr result (HasFault self.now (begun (sexp_of term.entry) around draft.old)) }
        ensures longer { GrowsTo draft.old draft.new }
    {
        match term {
            Tree::List(parts) => match parts.split_first() {
                Some((Tree::Reserved(Word::Underscore), args)) => Ok(Next::Checked(
                    self.sort_of_indexed_alone(draft, args, around)?,
                )),
                _ => {
                    let to = place_before(behind, end)?;
                    let from = place_before(parts.size(), to)?;
                    Ok(Next::Enter(Part { from, to, around }))
                }
            },
            _ => Ok(Next::Checked(self.sort_of_atom(draft, term, around)?)),
        }
    }

    // Goes on with the part that waited for this one.
    #[inline(always)]
    fn go_on<'a>(
        &self,
        draft: &mut Draft<'a>,
        frames: &mut Vec<Frame>,
        whole: Trees<'a>,
        frame: Frame,
        checked: CheckedTerm,
    ) -> Result<Step, TermFault>
        requires placed { IsPlaced (seen_by draft.old) draft.old.base }
        requires ready { MayGoOn self.now whole frame draft.old checked }
        ensures next { (first inner : Begun) → IsDone self.now inner draft.old checked
            → Chain self.now whole.entry (frame ∷ reverse frames.old.items) first inner
            → MatchResult result (IsStep self.now whole.entry (reverse frames.new.items) first draft.new)
            (HasFault self.now first) }
        ensures less { AreNested (frame ∷ reverse frames.old.items) → IfOk result
            (IsLessStep (reverse frames.new.items) (work (frame ∷ reverse frames.old.items) (Checked checked))) }
        ensures longer { GrowsTo draft.old draft.new }
    {
        match frame {
            Frame::Argument {
                application,
                left,
                is_open,
            } => {
                draft.arguments.push(checked.sort, checked.node)?;
                Ok(Step::Arguments {
                    application,
                    left,
                    is_open: is_open | checked.is_open,
                })
            }
            Frame::Binding {
                binder,
                left,
                distinct,
                is_open,
            } => {
                draft.arguments.push(checked.sort, checked.node)?;
                let is_open = is_open | checked.is_open;
                let left = whole.between(left as usize, binder.body as usize);
                let next = self.check_bindings(
                    draft, frames, whole, binder, left, distinct, is_open,
                )?;
                Ok(Step::Next(next))
            }
            Frame::Body { body, is_open } => {
                let next = self.end_let(draft, body, is_open, checked)?;
                Ok(Step::Next(next))
            }
            Frame::Labelled(labelled) => {
                let next = self.end_labelled(draft, whole, labelled, checked)?;
                Ok(Step::Next(next))
            }
        }
    }
}
