// A gate that holds a job up.
use deck_meaning::Config;
use dsn_mask::Name;
use sms_classes::Classified;
use sms_construct::Request;
use sms_desk::Gate;
use std::sync::Wait;
use std::sync::atomic::{AtomicU64, Ordering};

// How often a held worker looks before it goes on.
const LOOKS: u32 = 10_000_000;

// Holds each classification of round 1 until the administrator's second request has its answer, and keeps the last
// letter of the storage class that it was shown in each round.
#[derive(Drop)]
pub struct Holding {
    answered: AtomicU64,
    first: AtomicU64,
    second: AtomicU64,
}

impl Holding {
    pub fn new() -> Self {
        Holding {
            answered: AtomicU64::new(0),
            first: AtomicU64::new(0),
            second: AtomicU64::new(0),
        }
    }

    // What was shown in round 1 and in round 2, and whether the administrator's second request was answered.
    pub fn shown(&self) -> [u64; 3] {
        [
            self.first.load(Ordering::SeqCst),
            self.second.load(Ordering::SeqCst),
            self.answered.load(Ordering::SeqCst),
        ]
    }

    fn hold(&self) {
        for _ in 0..LOOKS {
            if self.answered.load(Ordering::SeqCst) == 1 {
                return;
            }
            std::thread::yield_now();
        }
    }
}

impl Gate for Holding {
    fn between<R: Wait>(
        &self,
        _rt: &R,
        _request: &Request,
        _config: &Config,
        made: &Classified,
        round: u8,
    ) {
        let class = u64::from(made.values.storclas.bytes().last().copied().unwrap_or(0));
        if round == 1 {
            self.first.store(class, Ordering::SeqCst);
            self.hold();
        } else {
            self.second.store(class, Ordering::SeqCst);
        }
    }

    fn after<R: Wait>(&self, _rt: &R, job: &Name, number: u32) {
        if job.bytes() == b"SMSADMIN".as_slice() && number == 2 {
            self.answered.store(1, Ordering::SeqCst);
        }
    }
}
