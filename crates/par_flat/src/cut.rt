//! How the items of a flattening are cut.
ghost use Rattle.std.specs.Prelude.{◌≡◌, ◌<◌, ◌≤◌, ◌+◌, ◌*◌, ◌^◌};
ghost use Rattle.par_flat.specs.Parts.{first_of, most_of, share_of};
ghost use Rattle.par_flat.specs.declared.limits.TheConstants.{MOST_WORKERS};

/// How the items are cut: each worker has a share, and each of the first so many one item more. The last worker has all that are left.
#[derive(Clone, Copy)]
pub struct Cut {
    pub workers: u32,
    pub share: u64,
    pub more: u32,
}

/// The cut of so many items in which no worker has more than one item more than another.
pub fn even_cut(workers: u32, count: u64) -> Cut
    requires { 1 ≤ workers }
    ensures workers { result.workers ≡ workers }
    ensures all { result.workers * result.share + result.more ≡ count }
    ensures even { result.more < result.workers }
{
    let all = u64::from(workers);
    Cut {
        workers,
        share: count / all,
        more: (count % all) as u32,
    }
}

/// How many items stand before those of a worker.
pub fn first_of(cut: Cut, worker: u32) -> u64
    requires one { worker < cut.workers }
    requires fits { cut.workers * cut.share + cut.more < 2 ^ 64 }
    ensures { result ≡ first_of cut worker }
{
    u64::from(worker) * cut.share + u64::from(worker.min(cut.more))
}

/// How many items a worker has, but for those that are left to the last one.
fn share_of(cut: Cut, worker: u32) -> u64
    requires one { worker < cut.workers }
    requires fits { cut.workers * cut.share + cut.more < 2 ^ 64 }
    ensures { result ≡ share_of cut worker }
{
    if worker < cut.more {
        return cut.share + 1;
    }
    cut.share
}

/// The most items that a worker gives: no limit for the last one.
pub fn most_of(cut: Cut, worker: u32) -> Option<u64>
    requires one { worker < cut.workers }
    requires few { cut.workers ≤ MOST_WORKERS }
    requires fits { cut.workers * cut.share + cut.more < 2 ^ 64 }
    ensures { result ≡ most_of cut worker }
{
    if worker + 1 < cut.workers {
        return Some(share_of(cut, worker));
    }
    None
}
