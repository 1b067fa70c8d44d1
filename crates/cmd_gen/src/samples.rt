ghost use Rattle.std.specs.Prelude.{◌≡◌, ◌≤◌, ◌<◌, ◌^◌, IfOk, length};
ghost use Rattle.cmd_gen.specs.Generator.{generated_samples, next_state, sample_of, state_behind};

use std::alloc::Global;
use vc_types::NoMemory;

/// The multiplier and the increment of a step.
const MULTIPLIER: u64 = 6364136223846793005;

const INCREMENT: u64 = 1442695040888963407;

/// The state of the next sample.
#[tactic(auto, using(crate::proofs::States::step_wraps))]
pub fn next_state(state: u64) -> u64
    ensures { result ≡ next_state state }
{
    state.wrapping_mul(MULTIPLIER).wrapping_add(INCREMENT)
}

/// The sample of a state: so many of its upper bits, 1 to 16.
pub fn sample_of(depth: u8, state: u64) -> u16
    requires some { 1 ≤ depth }
    requires few { depth ≤ 16 }
    ensures { result ≡ sample_of depth state }
{
    (state >> (64 - u32::from(depth))) as u16
}

/// So many samples behind a state, and the state behind them.
#[tactic(auto, using(crate::proofs::States::one_more, crate::proofs::States::behind_one_more), unfolding(crate::specs::Generator::generated_samples, crate::specs::Generator::state_behind))]
pub(crate) fn gen_samples(
    alloc: Global,
    depth: u8,
    state: u64,
    count: usize,
) -> Result<(Vec<u16>, u64), NoMemory>
    requires some { 1 ≤ depth }
    requires few { depth ≤ 16 }
    ensures samples { IfOk result
        (λ made. made.0.items ≡ generated_samples depth state count) }
    ensures state { IfOk result (λ made. made.1 ≡ state_behind state count) }
{
    let mut samples = Vec::with_capacity(alloc, count)?;
    let mut state = state;
    for i in 0..count {
        state = next_state(state);
        samples.push(sample_of(depth, state))?;
    }
    Ok((samples, state))
}
