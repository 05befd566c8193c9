// What is drawn for an item of a generated script.
ghost use Rattle.std.specs.Prelude.{◌≡◌, ◌≤◌, ◌<◌, ◌/◌, ◌^◌, IfOk};
ghost use Rattle.desk_generator.specs.Generated.{drawn_op, drawn_request, drawn_space, next_number, request_behind};

use crate::names::{job_at, numbered_name};
use sms_construct::{Op, Request, RequestNumber, Space, Unit};
use std::alloc::{AllocError, Global};

/// The numbers of the chain are below this one.
pub const MODULUS: u64 = 2_147_483_648;

/// The number behind another in the chain.
pub fn next_number(number: u64) -> u64
    requires { number < 2 ^ 31 }
    ensures value { result ≡ next_number number }
    ensures small { result < 2 ^ 31 }
{
    (number * 1_103_515_245 + 12_345) % MODULUS
}

/// What is drawn where the chain has this number.
pub fn drawn_from(number: u64) -> u32
    requires { number < 2 ^ 31 }
    ensures value { result ≡ number / 65536 }
    ensures small { result < 32768 }
{
    (number / 65_536) as u32
}

/// The request behind another, for the item at this place.
pub fn request_behind(
    alloc: Global,
    before: &Request,
    item: u32,
    drawn: u32,
) -> Result<Request, AllocError>
    requires item { (1 ≤ item) × (item < 100000) }
    requires drawn { drawn < 32768 }
    ensures { IfOk result (λ request. request ≡ request_behind before.now item drawn) }
{
    if drawn % 8 == 7 && item != 1 {
        return before.copy();
    }
    drawn_request(alloc, item, drawn)
}

fn drawn_request(alloc: Global, item: u32, drawn: u32) -> Result<Request, AllocError>
    requires item { (1 ≤ item) × (item < 100000) }
    requires drawn { drawn < 32768 }
    ensures { IfOk result (λ request. request ≡ drawn_request item drawn) }
{
    Ok(Request {
        job: job_at(item),
        number: RequestNumber::new(item).unwrap(),
        op: drawn_op(alloc, item, drawn)?,
    })
}

fn drawn_op(alloc: Global, item: u32, drawn: u32) -> Result<Op, AllocError>
    requires item { (1 ≤ item) × (item < 100000) }
    requires drawn { drawn < 32768 }
    ensures { IfOk result (λ op. op ≡ drawn_op item drawn) }
{
    match drawn % 8 {
        5 => Ok(Op::Extend(numbered_name(1 + drawn % item))),
        6 => Ok(Op::Delete(numbered_name(1 + drawn % item))),
        _ => Op::plain(alloc, numbered_name(item), drawn_space(drawn)),
    }
}

fn drawn_space(drawn: u32) -> Space
    ensures { result ≡ drawn_space drawn }
{
    Space::new(Unit::Trk, 1 + drawn % 50, 1 + drawn % 7).unwrap()
}
