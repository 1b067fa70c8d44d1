ghost use Rattle.std.specs.Prelude.{◌≡◌, ◌≤◌, ◌<◌, ◌^◌, ℕ, All};
ghost use Rattle.cmd_gen.specs.Differences.{differences};
ghost use Rattle.cmd_gen.specs.Generating.{generated_bytes};
ghost use Rattle.cmd_gen.specs.Generator.{generated_samples, state_behind};
ghost use Rattle.vc_types.specs.declared.settings.GenSettings.{GenSettings};
ghost use Rattle.vc_types.specs.SenderSettings.{generating_view};

/// The first three states from seed 0.
#[tactic(auto, unfolding(crate::specs::Generator::state_behind, crate::specs::Generator::next_state))]
pub fn seed_0_begins_so()
    ensures first { state_behind 0 1 ≡ 1442695040888963407 }
    ensures second { state_behind 0 2 ≡ 1876011003808476466 }
    ensures third { state_behind 0 3 ≡ 11166244414315200793 }
{}

/// No sample has more bits than it may.
pub fn samples_have_their_bits()
    ensures { (depth z count : ℕ) → depth ≤ 64
        → All (λ sample. sample < 2 ^ depth) (generated_samples depth z count) }
{}

/// Where the generated frames were written as they are, no sample is different.
pub fn whole_frames_have_no_differences()
    ensures { (g : GenSettings)
        → differences (generating_view g) (generated_bytes (generating_view g)) ≡ 0 }
{}
