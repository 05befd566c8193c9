//! The generated script.
ghost use Rattle.std.specs.Prelude.{◌≡◌, ◌≤◌, ◌<◌, ◌^◌, ◌+◌, ℕ, IfOk, OnOk, ◌++◌, ◌∷◌, [], length};
ghost use Rattle.desk_common.specs.Limits.{most_items};
ghost use Rattle.desk_generator.specs.Generated.{drawn_at, generated, items_up_to};

use crate::deck::first_request;
use crate::drawing::{MODULUS, drawn_from, next_number, request_behind};
use desk_common::Items;
use sms_construct::Request;
use sms_script::{Item, Phase, Script};
use std::alloc::{AllocError, Global};

/// The generated script: the activation of its deck and behind it so many items, 1 to 40,000, which the seed
/// determines (docs/manual/generator.md).
pub fn generate(alloc: Global, seed: u32, count: u32) -> Result<Script, AllocError>
    requires { count ≤ most_items }
    ensures { IfOk result (λ script. script ≡ generated seed count) }
{
    let mut items = Items::new(alloc);
    push_item(&mut items, first_request(alloc)?)?;
    let mut number = u64::from(seed) % MODULUS;
    for place in 0..count {
        number = next_number(number);
        push_behind(alloc, &mut items, place, drawn_from(number))?;
    }
    let mut script = Items::new(alloc);
    script.push(items)?;
    Ok(script)
}

// One item more, on the line behind the last.
fn push_item(items: &mut Phase, request: Request) -> Result<(), AllocError>
    requires { length items.old < 2 ^ 31 }
    ensures { OnOk result (items.new ≡ items.old ++ record { line = length items.old + 1; request = request } ∷ []) }
{
    let line = items.len() as u32 + 1;
    items.push(Item { line, request })
}

// The item behind the one at this place, which is the last.
fn push_behind(alloc: Global, items: &mut Phase, place: u32, drawn: u32) -> Result<(), AllocError>
    requires last { length items.old ≡ place + 1 }
    requires few { place < most_items }
    requires drawn { drawn < 32768 }
    ensures { OnOk result ((seed : ℕ) → drawn ≡ drawn_at seed (place + 1) → items.old ≡ items_up_to seed place →
        items.new ≡ items_up_to seed (place + 1)) }
{
    let last = &items.as_slice()[place as usize];
    let request = request_behind(alloc, &last.request, place + 1, drawn)?;
    push_item(items, request)?;
    Ok(())
}
