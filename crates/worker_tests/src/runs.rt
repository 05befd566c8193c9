// A script answered by several workers.
use crate::holding::Holding;
use crate::running::{class_of, run};
use sms_construct::Answer;
use std::test::Fail;

// A deck is activated, and then one job allocates while another deck is activated.
const LIVE: &str = "SMSADMIN 1 ACTIVATE
version = 1
[storclass.SC1]
[storgroup.SG1.volume.VOL001]
tracks = 100
[routine]
storclass = \"PROC STORCLAS SET &STORCLAS = 'SC1' END\"
storgroup = \"PROC STORGRP SET &STORGRP = 'SG1' END\"
./END
SYNC
JOB1 1 DISPLAY SMS,VOLUME(VOL001)
SYNC
JOB1 2 ALLOC A.B SPACE=(TRK,1)
SMSADMIN 2 ACTIVATE
version = 1
[storclass.SC2]
[storgroup.SG1.volume.VOL001]
tracks = 100
[routine]
storclass = \"PROC STORCLAS SET &STORCLAS = 'SC2' END\"
storgroup = \"PROC STORGRP SET &STORGRP = 'SG1' END\"
./END
";

// The place and the storage class of each answer: the ALLOC was classified under the first deck, and is answered under
// the second.
static TOLD: &[(u64, u8)] = &[(1, 0), (2, 0), (4, b'2'), (3, 0)];

fn are_told(answers: &[Answer]) -> bool {
    let mut good = answers.len() == TOLD.len();
    for (answer, (place, class)) in answers.iter().zip(TOLD) {
        good &= answer.place == *place && class_of(&answer.reply) == *class;
    }
    good
}

#[test]
fn an_activation_comes_between_a_classification_and_its_turn(rt: HostRuntime) -> Result<(), Fail> {
    let gate = Holding::new();
    let answers = run(rt.alloc(), &rt, LIVE, 2, &gate)?;
    let is_held = gate.shown() == [u64::from(b'1'), u64::from(b'2'), 1];
    assert!(rt; is_held && are_told(answers.as_slice()));
    Ok(())
}
