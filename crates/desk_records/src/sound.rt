//! What the types of requests ensure.
ghost use Rattle.std.specs.Prelude.{IfSome};
ghost use Rattle.sms_construct.specs.Quantities.{IsRequestNumber, IsSpace, IsVolumeCount};
ghost use Rattle.desk_law.specs.Rule.{IsSound, IsSoundAlloc};

use sms_construct::{Alloc, Op, Request, Space, VolumeCount};

/// The number of a request and the quantities of its op are in their ranges (docs/manual/limits.md): a fact for proofs,
/// which every request has.
pub fn request_is_sound(request: &Request)
    ensures number { IsRequestNumber request.now.number }
    ensures sound { IsSound request.now.op }
{
    request.number.get();
    op_is_sound(&request.op);
}

fn op_is_sound(op: &Op)
    ensures { IsSound op.now }
{
    match op {
        Op::Alloc(alloc) => alloc_is_sound(alloc.get()),
        Op::Purge { floor, .. } => {
            floor.get();
        }
        Op::Activate(_)
        | Op::Extend(_)
        | Op::Delete(_)
        | Op::Used { .. }
        | Op::Release(_)
        | Op::Display(_)
        | Op::Vary { .. } => (),
    }
}

fn alloc_is_sound(alloc: &Alloc)
    ensures { IsSoundAlloc alloc.now }
{
    space_is_sound(alloc.space);
    volumes_are_sound(alloc.volumes);
}

fn space_is_sound(space: Option<Space>)
    ensures { IfSome space IsSpace }
{
    if let Some(space) = space {
        space.primary();
    }
}

fn volumes_are_sound(volumes: Option<VolumeCount>)
    ensures { IfSome volumes IsVolumeCount }
{
    if let Some(count) = volumes {
        count.get();
    }
}
