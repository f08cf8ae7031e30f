// Calls on a new plan, with the best generators and equal answers of the plan that they leave.
ghost use Rattle.std.specs.Prelude.{◌≡◌, List, map, true, IfOk, IfSome};
ghost use Rattle.std.specs.Option.{option_map};
ghost use Rattle.contents.specs.Content.{Content};
ghost use Rattle.history.specs.BestAndEqual.{AnswersInPlace, BestGeneratorsAndEqualAnswers, Settles};
ghost use Rattle.history.specs.Calls.{StatedCall, answered, answers, memory_after, new, plan_after, stated_call};
ghost use Rattle.history.specs.Questions.{meaning_by};
ghost use Rattle.history.specs.Lent.{lent};
ghost use Rattle.history.specs.States.{state_of};

use crate::call::Call;
use crate::carry_out::{Outcome, carry_out};
use crate::memory::Memory;
use crate::question::Question;
use levels::Levels;
use preferences::{Preference, Scored};
use std::alloc::{AllocError, Global};

/// Carries out calls on a new plan, questions among them, and tells what each returned and what memory held then.
///
/// Whatever the calls were, a plan that they leave settled shows the best generators on both sides under every lawful
/// preference, and answers as every settled plan that generates the same words. An error says that there is no memory
/// for the answers; lent memory may then hold some of them.
pub fn best_generators_and_equal_answers<L: Levels, P: Preference<L>, S: Scored<L>>(
    alloc: Global,
    calls: &[Call<&[u8], Question<P, S, &[u64]>>],
    memory: &mut Memory,
) -> Result<Outcome<L>, AllocError>
    // What each call answers is worked out from the calls alone, and so are plan and memory in the end.
    ensures answers { let stated = map (stated_call (meaning_by P.good S.good S.points)) calls.now in
        IfOk result (λ o.
        map answered o.answers.items ≡ answers L.model stated new (lent memory.old)) }
    ensures plan { let stated = map (stated_call (meaning_by P.good S.good S.points)) calls.now in
        IfOk result (λ o. option_map state_of o.plan ≡ plan_after L.model stated new) }
    ensures memory { let stated = map (stated_call (meaning_by P.good S.good S.points)) calls.now in
        IfOk result (λ o. lent memory.new ≡ memory_after L.model stated new (lent memory.old)) }

    // A question in the list is answered of the content that the calls before it settled.
    ensures in_place { let stated = map (stated_call (meaning_by P.good S.good S.points)) calls.now in
        IfOk result (λ o.
        AnswersInPlace L.model stated (lent memory.old) (map answered o.answers.items)) }

    // The promise, of all that any calls settle, and of the plan that came out of these.
    ensures of_calls { (made : List StatedCall) (p : Content) →
        Settles L.model made p → BestGeneratorsAndEqualAnswers L.model p }
    ensures of_plan { IfOk result (λ o. IfSome (option_map state_of o.plan)
        (λ w. w.settled ≡ true → BestGeneratorsAndEqualAnswers L.model w.content)) }
{
    carry_out(alloc, calls, memory)
}
