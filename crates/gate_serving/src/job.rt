//! Work for threads: it goes into a thread by value and comes back by value.

ghost use Rattle.std.specs.Prelude.{◌≤◌, ◌<◌, ◌++◌, [], ◌∷◌, vec_len, vec_capacity};
ghost use Rattle.std.specs.List.{AllZip};
ghost use Rattle.std.specs.Thread.{IsSend, IsSync};
ghost use Rattle.gate_serving.specs.Lines.{MayBeDone};
ghost use Rattle.gate_serving.specs.Passed.{WasDone};

use std::alloc::Global;
use std::snapshot::Snapshot;
use std::sync::Wait;
use std::sync::atomic::{AtomicBool, Ordering};
use std::thread;
use std::thread::{Promise, Threads};

/// Work that a thread does, with what it needs.
pub(crate) trait Job {
    // What was done between the job as it was and as it came back.
    ghost did: { Self → Self → Type 0 };

    /// Does the work and comes back with the result. It ends soon once the flag is set. It starts no thread.
    fn run<R: Wait>(self, rt: &R, alloc: Global, flag: &AtomicBool) -> Self
        ensures did { did self result };
}

/// Says that a job comes back done, or as it was.
#[derive(Drop)]
struct Keeps<J>(Snapshot<J>);

impl<J: Job> Promise<J> for Keeps<J> {
    ghost kept_by = { λ p job. MayBeDone J.did p.0.value job };
}

/// Does a job, unless no thread could be started for it: then the flag is set.
fn run_unless<R: Wait, J: Job>(
    rt: &R,
    alloc: Global,
    flag: &AtomicBool,
    is_refused: &AtomicBool,
    job: J,
) -> J
    ensures did { MayBeDone J.did job result }
{
    if is_refused.load(Ordering::SeqCst) {
        return job;
    }
    job.run(rt, alloc, flag)
}

/// Does all jobs at once, each in a thread of its own, and gives them back in their order; meanwhile the calling thread
/// does the job that is to be done there. If a thread can't be started the flag is set, and the jobs that had none come
/// back undone. Takes no memory of its own.
pub(crate) fn run_all<
    R: Threads + Wait + Sync,
    A: Job + Send + Drop,
    B: Job + Send + Drop,
    M: Job + Drop,
>(
    rt: &R,
    alloc: Global,
    flag: &AtomicBool,
    pairs: Vec<(A, B)>,
    meanwhile: Option<M>,
) -> (Vec<(A, B)>, Option<M>)
    ensures did { AllZip (λ old new. MayBeDone A.did old.0 new.0 × MayBeDone B.did old.1 new.1)
        pairs.items result.0.items }
    ensures meanwhile { WasDone M.did meanwhile result.1 }
{
    let is_refused = AtomicBool::new(false);
    run_pairs(rt, alloc, flag, &is_refused, pairs, meanwhile)
}

/// Does the last pair's jobs in threads of their own, and all before it likewise meanwhile. Once all have threads the
/// calling thread does its own.
fn run_pairs<R: Threads + Wait + Sync, A: Job + Send + Drop, B: Job + Send + Drop, M: Job + Drop>(
    rt: &R,
    alloc: Global,
    flag: &AtomicBool,
    is_refused: &AtomicBool,
    mut pairs: Vec<(A, B)>,
    meanwhile: Option<M>,
) -> (Vec<(A, B)>, Option<M>)
    ensures did { AllZip (λ old new. MayBeDone A.did old.0 new.0 × MayBeDone B.did old.1 new.1)
        pairs.items result.0.items }
    ensures meanwhile { WasDone M.did meanwhile result.1 }
    ensures capacity { vec_capacity pairs ≤ vec_capacity result.0 }
{
    let Some((first, second)) = pairs.pop() else {
        return (pairs, run_here(rt, alloc, flag, meanwhile));
    };
    thread::scope(
        thread::scope_env(),
        rt,
        |scope| -> (Vec<(A, B)>, Option<M>)
            requires { IsSync R.row × IsSend A.row × IsSend B.row × (vec_len pairs < vec_capacity pairs) }
            ensures did { AllZip (λ old new. MayBeDone A.did old.0 new.0 × MayBeDone B.did old.1 new.1)
                (pairs.items ++ (first, second) ∷ []) result.0.items }
            ensures meanwhile { WasDone M.did meanwhile result.1 }
            ensures capacity { vec_capacity pairs ≤ vec_capacity result.0 }
        {
            let promise = Keeps(Snapshot::of(&first));
            let one = scope.spawn_with(
                promise,
                move || run_unless(rt, alloc, flag, is_refused, first),
            );
            let promise = Keeps(Snapshot::of(&second));
            let other = scope.spawn_with(
                promise,
                move || run_unless(rt, alloc, flag, is_refused, second),
            );
            if one.is_err() || other.is_err() {
                is_refused.store(true, Ordering::SeqCst);
                flag.store(true, Ordering::SeqCst);
            }
            let (back, done) = run_pairs(rt, alloc, flag, is_refused, pairs, meanwhile);
            let mut back = back;
            let first = match one {
                Ok(handle) => handle.join(rt),
                Err(refused) => (refused.value)(),
            };
            let second = match other {
                Ok(handle) => handle.join(rt),
                Err(refused) => (refused.value)(),
            };
            let Ok(()) = back.push((first, second)) else {
                unreachable!()
            };
            (back, done)
        },
    )
}

/// Does a job in the calling thread, if there is one.
fn run_here<R: Wait, M: Job>(rt: &R, alloc: Global, flag: &AtomicBool, job: Option<M>) -> Option<M>
    ensures { WasDone M.did job result }
{
    match job {
        Some(job) => Some(job.run(rt, alloc, flag)),
        None => None,
    }
}
