//! How jobs are numbered.
ghost use Rattle.std.specs.Prelude.{◌≡◌, IfOk, OnOk, is_some};
ghost use Rattle.sms_script.specs.Script.{items_of};
ghost use Rattle.desk_plan.specs.Plan.{number_in};
ghost use Rattle.desk_plan.specs.Numbering.{AreNumbersOf, Renumbers, numbered_jobs, with_job, with_jobs};

use crate::job_numbers::JobNumbers;
use dsn_mask::Name;
use sms_script::{Item, Phase};
use std::alloc::{AllocError, Global};

/// The job whose items go to the first worker.
const ADMIN: &[u8] = b"SMSADMIN";

impl JobNumbers {
    /// Numbers the jobs of a script but SMSADMIN, in the order in which they first appear.
    pub fn of(alloc: Global, phases: &[Phase]) -> Result<JobNumbers, AllocError>
        ensures numbered { IfOk result (λ numbers. AreNumbersOf (numbered_jobs (items_of phases.now)) numbers) }
    {
        let mut numbers = JobNumbers::new(alloc);
        for phase in phases {
            numbers.add_phase(phase.as_slice())?;
        }
        Ok(numbers)
    }

    // Numbers the jobs of one more phase behind those before it.
    fn add_phase(&mut self, items: &[Item]) -> Result<(), AllocError>
        ensures added { OnOk result (Renumbers (λ jobs. with_jobs jobs items.now) self.old self.new) }
    {
        for item in items {
            self.add(&item.request.job)?;
        }
        Ok(())
    }

    // Gives a job the next number, unless it is the administrator's or has one.
    fn add(&mut self, job: &Name) -> Result<(), AllocError>
        ensures added { OnOk result (Renumbers (λ jobs. with_job jobs job.now) self.old self.new) }
    {
        if job.bytes() == ADMIN || self.has(job) {
            return Ok(());
        }
        if self.count == usize::MAX {
            return Err(AllocError);
        }
        self.numbers.reserve()?;
        self.numbers.put(*job, self.count);
        self.count += 1;
        Ok(())
    }

    // Whether a job has a number.
    fn has(&self, job: &Name) -> bool
        ensures { result ≡ is_some (number_in self.now job.now) }
    {
        self.numbers.get(job).copied().is_some()
    }
}
