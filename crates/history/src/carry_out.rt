// A list of calls is carried out on a new plan, one call after the other.
ghost use Rattle.std.specs.Prelude.{◌≡◌, map, IfOk, IfSome, MatchOption};
ghost use Rattle.std.specs.Option.{option_map};
ghost use Rattle.history.specs.Calls.{answer_to, answers, answered, memory_after, new, plan_after, state_after, after_open, after_settled, stated_call};
ghost use Rattle.history.specs.Lent.{Lent, lent};
ghost use Rattle.history.specs.Questions.{meaning_by};
ghost use Rattle.history.specs.States.{state_of};

use crate::call::Call;
use crate::memory::Memory;
use crate::question::{Question, Reply, ask};
use crate::trial::Trial;
use levels::Levels;
use plan::{OpenPlan, SettledPlan};
use preferences::{Preference, Scored};
use std::alloc::{AllocError, Global};

/// What a call returned, and what memory held then.
#[derive(Drop)]
pub struct Answer {
    /// What the call returned.
    pub reply: Reply,
    /// All of the lent memory, after the call.
    pub memory: Memory,
}

/// The answers to a list of calls, and the plan that it left. A call that there is not in the state of the plan, or with
/// its levels, ends the list: the answers before it stand, and no plan is left.
#[derive(Drop)]
pub struct Outcome<L: Levels> {
    /// One for each call, up to the one that ends the list.
    pub answers: Vec<Answer>,
    /// The plan in the end; none where a call ended the list.
    pub plan: Option<Trial<L>>,
}

// Carries out calls on a new plan.
pub(crate) fn carry_out<L: Levels, P: Preference<L>, S: Scored<L>>(
    alloc: Global,
    calls: &[Call<&[u8], Question<P, S, &[u64]>>],
    memory: &mut Memory,
) -> Result<Outcome<L>, AllocError>
    ensures answers { let stated = map (stated_call (meaning_by P.good S.good S.points)) calls.now in
        IfOk result (λ o.
        map answered o.answers.items ≡ answers L.model stated new (lent memory.old)) }
    ensures plan { let stated = map (stated_call (meaning_by P.good S.good S.points)) calls.now in
        IfOk result (λ o. option_map state_of o.plan ≡ plan_after L.model stated new) }
    ensures memory { let stated = map (stated_call (meaning_by P.good S.good S.points)) calls.now in
        IfOk result (λ o. lent memory.new ≡ memory_after L.model stated new (lent memory.old)) }
{
    let mut trial = Trial::Open(OpenPlan::new());
    let mut answers = Vec::new(alloc);
    for call in calls {
        let Some((reply, next)) = step(trial, call, memory) else {
            return Ok(Outcome {
                answers,
                plan: None,
            });
        };
        trial = next;
        answers.push(Answer {
            reply,
            memory: memory.copied()?,
        })?;
    }
    Ok(Outcome {
        answers,
        plan: Some(trial),
    })
}

// One call, by the state of the plan.
fn step<L: Levels, P: Preference<L>, S: Scored<L>>(
    trial: Trial<L>,
    call: &Call<&[u8], Question<P, S, &[u64]>>,
    memory: &mut Memory,
) -> Option<(Reply, Trial<L>)>
    ensures state { let stated = stated_call (meaning_by P.good S.good S.points) call.now in
        option_map (λ r. state_of r.1) result ≡ state_after L.model stated (state_of trial) }
    ensures answer { let stated = stated_call (meaning_by P.good S.good S.points) call.now in
        MatchOption result
        (lent memory.new ≡ lent memory.old)
        (λ r. (r.0, lent memory.new)
        ≡ answer_to L.model stated (state_of trial).content (lent memory.old)) }
{
    match trial {
        Trial::Open(plan) => step_open(plan, call),
        Trial::Settled(plan) => step_settled(plan, call, memory),
    }
}

// One call on an open plan.
#[tactic(auto, using(crate::proofs::Changed::changed_reply))]
fn step_open<L: Levels, P: Preference<L>, S: Scored<L>>(
    mut plan: OpenPlan<L>,
    call: &Call<&[u8], Question<P, S, &[u64]>>,
) -> Option<(Reply, Trial<L>)>
    ensures state { let stated = stated_call (meaning_by P.good S.good S.points) call.now in
        option_map (λ r. state_of r.1) result ≡ after_open L.model stated plan }
    ensures answer { let stated = stated_call (meaning_by P.good S.good S.points) call.now in
        IfSome result (λ r. (m : Lent) → (r.0, m) ≡ answer_to L.model stated plan m) }
{
    let result = match call {
        Call::Start(n) => plan.start(*n),
        Call::Read(file) => plan.read(*file),
        Call::Admit(side, word) => plan.admit(*side, *word),
        Call::Strike(side, place) => plan.strike(*side, *place),
        Call::Settle => return Some((Reply::Changed(Ok(())), Trial::Settled(plan.settle()))),
        Call::Reopen | Call::Ask(_) => return None,
    };
    Some((Reply::Changed(result), Trial::Open(plan)))
}

// One call on a settled plan.
fn step_settled<L: Levels, P: Preference<L>, S: Scored<L>>(
    plan: SettledPlan<L>,
    call: &Call<&[u8], Question<P, S, &[u64]>>,
    memory: &mut Memory,
) -> Option<(Reply, Trial<L>)>
    ensures state { let stated = stated_call (meaning_by P.good S.good S.points) call.now in
        option_map (λ r. state_of r.1) result ≡ after_settled L.model stated plan }
    ensures answer { let stated = stated_call (meaning_by P.good S.good S.points) call.now in
        MatchOption result
        (lent memory.new ≡ lent memory.old)
        (λ r. (r.0, lent memory.new) ≡ answer_to L.model stated plan (lent memory.old)) }
{
    match call {
        Call::Reopen => Some((Reply::Changed(Ok(())), Trial::Open(plan.reopen()))),
        Call::Ask(question) => {
            let reply = ask(&plan, question, memory)?;
            Some((reply, Trial::Settled(plan)))
        }
        Call::Start(_) | Call::Read(_) | Call::Admit(..) | Call::Strike(..) | Call::Settle => None,
    }
}
