ghost use Rattle.std.specs.Prelude.{◌≡◌, ◌<◌, ℕ, IfOk, vec_len};
ghost use Rattle.std.specs.Fn.{FnReturns};
ghost use Rattle.std.specs.Fork.{GivesEach};

use std::alloc::Global;
use std::thread::{Threads, join};
use vc_types::NoMemory;

/// Calls f(0) to f(n - 1), each but the first in a thread of its own where one can be made, and gives the
/// results in order. This thread starts all the others, where `map_indices` has new ones start more: a thread
/// that is new may have to wait for a processor before it can.
#[cycle(calls)]
pub(crate) fn map_side_by_side<R: Threads + Sync, X: Send + Drop, F: Fn(usize) -> X + Sync>(
    rt: &R,
    alloc: Global,
    n: usize,
    f: &F,
) -> Result<Vec<X>, NoMemory>
    requires { (i : ℕ) → i < n → F.pre f.now i }
    ensures len { IfOk result (λ v. vec_len v ≡ n) }
    ensures each { IfOk result (λ v. GivesEach F.Fn f.now n v.items) }
{
    if n < 2 {
        return at_most_one(alloc, n, f);
    }
    let last = n - 1;
    let before = || -> Result<Vec<X>, NoMemory>
        requires { (i : ℕ) → i < last → F.pre f.now i }
        ensures { IfOk result (λ v. (vec_len v ≡ last) × GivesEach F.Fn f.entry.now last v.items) }
    { map_side_by_side(rt, alloc, last, f) };
    let (answer, before) = join(rt, || call(f, last), before);
    let mut answers = before?;
    answers.push(answer)?;
    Ok(answers)
}

fn at_most_one<X: Send + Drop, F: Fn(usize) -> X>(
    alloc: Global,
    n: usize,
    f: &F,
) -> Result<Vec<X>, NoMemory>
    requires few { n < 2 }
    requires accepts { (i : ℕ) → i < n → F.pre f.now i }
    ensures len { IfOk result (λ v. vec_len v ≡ n) }
    ensures each { IfOk result (λ v. GivesEach F.Fn f.now n v.items) }
{
    let mut answers = Vec::new(alloc);
    if n == 1 {
        answers.push(f(0))?;
    }
    Ok(answers)
}

fn call<X, F: Fn(usize) -> X>(f: &F, number: usize) -> X
    requires { F.pre f.now number }
    ensures { FnReturns F.Fn f.now (number, tt) result }
{
    f(number)
}
