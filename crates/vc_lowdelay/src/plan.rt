ghost use Rattle.std.specs.Prelude.{◌≡◌, ◌≤◌, ◌/◌};

use vc_types::Plan;

/// How a low-delay picture was transformed and cut into slices (ST 2042-1, transform parameters): the plan,
/// without prefix bytes and with scaler 1, and how many bytes a slice has on an average, as a fraction. The
/// transform is the same across as down.
#[derive(Clone, Copy)]
pub struct LowPlan {
    pub plan: Plan,
    pub numerator: u32,
    pub denominator: u32,
    pub ghost same_wavelets: { plan.wavelet_ho ≡ plan.wavelet },
    pub ghost no_levels_across: { plan.depth_ho ≡ 0 },
    pub ghost some_denominator: { 1 ≤ denominator },
    pub ghost some_bytes: { denominator ≤ numerator },
    pub ghost few_bytes: { numerator / denominator ≤ 65535 },
}

impl LowPlan {
    ghost use Rattle.std.specs.Prelude.{◌^◌, ◌<◌, length, take, drop};
    ghost use Rattle.vc_lowdelay.specs.OfPlan.{picture_size, slice_count, slice_size, slice_start};

    /// How many slices a picture has.
    pub(crate) fn slice_count(&self) -> u32
        ensures value { result ≡ slice_count self.now }
        ensures range { result ≤ 131072 }
    {
        self.plan.slices_x * self.plan.slices_y
    }

    /// How many bytes all slices have.
    pub(crate) fn picture_size(&self) -> u64
        ensures { result ≡ picture_size self.now }
    {
        self.slice_start(self.slice_count())
    }

    /// Where a slice begins among the bytes of all slices (ST 2042-1, low-delay slices).
    fn slice_start(&self, slice: u32) -> u64
        requires { slice ≤ 131072 }
        ensures { result ≡ slice_start self.now slice }
    {
        u64::from(slice) * u64::from(self.numerator) / u64::from(self.denominator)
    }

    /// The bytes of a slice, of which these are all.
    pub(crate) fn slice_bytes<'a>(&self, slice: u32, bytes: &'a [u8]) -> &'a [u8]
        requires slice { slice < slice_count self.now }
        requires whole { picture_size self.now ≤ length bytes.now }
        ensures value { result.now
            ≡ take (slice_size self.now slice) (drop (slice_start self.now slice) bytes.now) }
        ensures some { 1 ≤ length result.now }
        ensures few { length result.now ≤ 2 ^ 16 }
    {
        let from = self.slice_start(slice) as usize;
        let to = self.slice_start(slice + 1) as usize;
        &bytes[from..to]
    }
}
