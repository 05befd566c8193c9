// The allocations that are asked for.
ghost use Rattle.std.specs.Prelude.{◌≡◌, filter, map, IfOk};
ghost use Rattle.sms_explain.specs.Picking.{is_job, is_number, is_picked};

use dsn_mask::Name;
use sms_script::Item;
use std::alloc::{AllocError, Global};

/// The items of this job and with this number, where one is asked for.
pub fn picked_items<'a>(
    alloc: Global,
    items: &[&'a Item],
    job: &Option<Name>,
    number: Option<u32>,
) -> Result<Vec<&'a Item>, AllocError>
    ensures { IfOk result (λ picked. map (λ item. item.now) picked.items ≡
        filter (is_picked job.now number) (map (λ item. item.now) items.entry.now)) }
{
    let mut picked = Vec::new(alloc);
    let mut rest = items;
    while let [item, others @ ..] = rest {
        let item = *item;
        if is_picked(job, number, item) {
            picked.push(item)?;
        }
        rest = others;
    }
    Ok(picked)
}

fn is_picked(job: &Option<Name>, number: Option<u32>, item: &Item) -> bool
    ensures { result ≡ is_picked job.now number item.now }
{
    is_job(job, &item.request.job) && is_number(number, item.request.number.get())
}

fn is_job(asked: &Option<Name>, job: &Name) -> bool
    ensures { result ≡ is_job asked.now job.now }
{
    match asked {
        Some(asked) => *job == *asked,
        None => true,
    }
}

fn is_number(asked: Option<u32>, number: u32) -> bool
    ensures { result ≡ is_number asked number }
{
    match asked {
        Some(asked) => number == asked,
        None => true,
    }
}
