// A batch of columns for C, exported: crates/store_batches' call, with its clause. c/batch.h declares it.
#![tactic(auto)]

ghost use Rattle.std.specs.Prelude.{◌≡◌, map};
ghost use Rattle.store_batches.specs.Jobs.{done_job};

use store_batches::Job;

#[unsafe(no_mangle)]
pub extern "C" fn search_batch(soft: &[u8], jobs: &mut [Job], limit: u64)
    ensures { jobs.new ≡ map (done_job soft.now limit) jobs.old }
{
    store_batches::search_batch(soft, jobs, limit)
}
