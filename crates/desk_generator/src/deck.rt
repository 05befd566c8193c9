// The deck that a generated script activates.
ghost use Rattle.std.specs.Prelude.{◌≡◌, IfOk};
ghost use Rattle.desk_generator.specs.Generated.{first_request, generated_deck};

use desk_common::{Items, Shared};
use dsn_mask::Name;
use sms_construct::{DeckText, Op, Request, RequestNumber};
use std::alloc::{AllocError, Global};

// Two storage groups with a volume each, and a routine that takes one by the first qualifier.
const DECK: &[u8] = b"version = 1
[storclass.SCGEN]
[storgroup.SGA.volume.GEN001]
device = \"3390-9\"
[storgroup.SGB.volume.GEN002]
device = \"3390-9\"
[routine]
storclass = \"PROC STORCLAS SET &STORCLAS = 'SCGEN' END\"
storgroup = \"PROC STORGRP IF &HLQ = 'GA' THEN SET &STORGRP = 'SGA' ELSE SET &STORGRP = 'SGB' END\"
";

/// The request that activates the deck.
pub fn first_request(alloc: Global) -> Result<Request, AllocError>
    ensures { IfOk result (λ request. request ≡ first_request) }
{
    Ok(Request {
        job: Name::new(b"SMSADMIN").unwrap(),
        number: RequestNumber::new(1).unwrap(),
        op: Op::Activate(deck_text(alloc)?),
    })
}

fn deck_text(alloc: Global) -> Result<DeckText, AllocError>
    ensures { IfOk result (λ deck. deck ≡ generated_deck) }
{
    Shared::new(alloc, Items::from_slice(alloc, DECK)?)
}
