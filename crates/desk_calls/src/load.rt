// The generated script and its summary.
ghost use Rattle.std.specs.Prelude.{◌≡◌, ◌≤◌, IfOk, IfSome, OnErr};
ghost use Rattle.sms_keeper.specs.Tables.{AreSame, no_rows};
ghost use Rattle.desk_law.specs.Records.{empty_opening};
ghost use Rattle.desk_common.specs.Limits.{most_items};
ghost use Rattle.desk_calls.specs.Headline.{IsLoadLeft, IsSummed, SumsUp, seen_keeper};

use crate::script_run::run_alone;
use desk_generator::{generate, summary};
use sms_construct::Answer;
use sms_core::Core;
use sms_keeper::Keeper;
use std::alloc::{AllocError, Global};
use std::mem::forget;

/// The summary of the answers to the generated script, from an empty desk over the keeper. Script, answers and what the
/// core holds aren't freed: a program that ends behind it gives all back at once.
pub fn load_text<P: Keeper>(
    alloc: Global,
    seed: u32,
    count: u32,
    keeper: P,
) -> (Result<Vec<u8>, AllocError>, P)
    requires few { count ≤ most_items }
    requires tables { IfSome (P.told keeper) (λ rows. AreSame rows no_rows) }
    ensures summed { IfOk result.0 (λ text. IsSummed seed count
        (seen_keeper P.told P.count keeper) (seen_keeper P.told P.count result.1) text.items) }
    ensures left { OnErr result.0 (IsLoadLeft seed count
        (seen_keeper P.told P.count keeper) (seen_keeper P.told P.count result.1)) }
{
    let Ok(script) = generate(alloc, seed, count) else {
        return (Err(AllocError), keeper);
    };
    let (answers, core) = run_alone(alloc, &script, Core::new(alloc, keeper));
    let Ok(answers) = answers else {
        let (keeper, _journal) = core.into_parts();
        return (Err(AllocError), keeper);
    };
    let text = summary_text(alloc, seed, count, answers.as_slice(), &core);
    let keeper = core.into_keeper();
    forget(script);
    forget(answers);
    (text, keeper)
}

// The summary of these answers, which left the core so.
fn summary_text<P: Keeper>(
    alloc: Global,
    seed: u32,
    count: u32,
    answers: &[Answer],
    core: &Core<P>,
) -> Result<Vec<u8>, AllocError>
    requires { core.now.opening ≡ empty_opening }
    ensures { IfOk result (λ text. SumsUp seed count answers.now core.now.journal text.items) }
{
    let entries = core.journal().len() as u64;
    let rows = core.vol_rows()?;
    summary(alloc, seed, count, answers, rows.as_slice(), entries)
}
