// A phase on the core itself.
ghost use Rattle.std.specs.Prelude.{◌≡◌, ◌+◌, ◌≤◌, length, vec_capacity, vec_len};
ghost use Rattle.desk_workers.specs.Phases.{HasPhase};

use acs_tree::Slate;
use sms_construct::Answer;
use sms_core::{Core, Work};
use sms_desk::Gate;
use sms_keeper::Keeper;
use sms_script::Item;
use std::sync::Wait;

/// Answers the items of a phase one after the other, behind the other answers.
pub fn answer_items<P: Keeper, R: Wait, G: Gate>(
    rt: &R,
    items: &[Item],
    core: &mut Core<P>,
    slate: &mut Slate,
    answers: &mut Vec<Answer>,
    gate: &G,
)
    requires room { vec_len answers.old + length items.now ≤ vec_capacity answers.old }
    ensures answered { HasPhase items.now answers.old.items answers.new.items core.old.journal core.new.journal }
    ensures capacity { vec_capacity answers.new ≡ vec_capacity answers.old }
    ensures opening { core.new.opening ≡ core.old.opening }
    ensures mark { core.new.mark ≡ core.old.mark }
{
    for item in items {
        let answer = core.step(&item.request, Work::Nothing, slate);
        gate.after(rt, &item.request.job, item.request.number.get());
        answers.push_reserved(answer);
    }
}
