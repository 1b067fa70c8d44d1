ghost use Rattle.std.specs.Prelude.{◌≡◌, ◌^◌, ◌<◌, ◌≤◌, ℕ, All, length, unsigned_abs, if◌then◌else◌};
ghost use Rattle.vc_types.specs.Lifting.{line_of};
ghost use Rattle.vc_types.specs.Transforms.{halved, doubled};
ghost use Rattle.vc_types.specs.Wavelets.{is_shifted};

/// Whether samples are shifted after each level (ST 2042-1, wavelet filters).
pub(crate) fn is_shifted(wavelet: u8) -> bool
    requires { wavelet ≤ 6 }
    ensures { result ≡ is_shifted wavelet }
{
    match wavelet {
        3 => false,
        5 => false,
        _ => true,
    }
}

/// Shifts samples down by one bit, rounded, if that is wanted.
#[inline(always)]
pub(crate) fn halve(samples: &mut [i128], wanted: bool)
    requires { All (λ z. unsigned_abs z < 2 ^ 126) samples.old }
    ensures { (k : ℕ) → k < length samples.old
        → line_of samples.new k
        ≡ (if wanted then halved (line_of samples.old k) else line_of samples.old k) }
{
    if wanted {
        halve_all(samples);
    }
}

/// Doubles samples, if that is wanted.
#[inline(always)]
pub(crate) fn double(samples: &mut [i128], wanted: bool)
    requires { All (λ z. unsigned_abs z < 2 ^ 126) samples.old }
    ensures { (k : ℕ) → k < length samples.old
        → line_of samples.new k
        ≡ (if wanted then doubled (line_of samples.old k) else line_of samples.old k) }
{
    if wanted {
        double_all(samples);
    }
}

#[inline(always)]
fn halve_all(samples: &mut [i128])
    requires { All (λ z. unsigned_abs z < 2 ^ 126) samples.old }
    ensures { (k : ℕ) → k < length samples.old
        → line_of samples.new k ≡ halved (line_of samples.old k) }
{
    for sample in samples.iter_mut() {
        *sample = halved(*sample);
    }
}

#[inline(always)]
fn halved(sample: i128) -> i128
    requires { unsigned_abs sample < 2 ^ 126 }
    ensures { result ≡ halved sample }
{
    (sample + 1) >> 1
}

#[inline(always)]
fn double_all(samples: &mut [i128])
    requires { All (λ z. unsigned_abs z < 2 ^ 126) samples.old }
    ensures { (k : ℕ) → k < length samples.old
        → line_of samples.new k ≡ doubled (line_of samples.old k) }
{
    for sample in samples.iter_mut() {
        *sample = doubled(*sample);
    }
}

#[inline(always)]
fn doubled(sample: i128) -> i128
    requires { unsigned_abs sample < 2 ^ 126 }
    ensures { result ≡ doubled sample }
{
    2 * sample
}
