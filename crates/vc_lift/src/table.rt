ghost use Rattle.std.specs.Prelude.{◌≡◌, ◌≤◌, map};
ghost use Rattle.vc_types.specs.Wavelets.{synthesis_steps};
ghost use Rattle.vc_lift.specs.Steps.{lifting_step};

use self::Parity::{Even, Odd};

/// The samples that a step changes.
#[derive(Clone, Copy)]
pub(crate) enum Parity {
    Even,
    Odd,
}

const PLUS: bool = true;

const MINUS: bool = false;

/// A row of the standard's table of steps (ST 2042-1, wavelet filters): which samples it changes, whether the
/// change is added, the taps, S and D.
#[derive(Clone, Copy)]
pub(crate) struct Row(pub Parity, pub bool, pub &'static [i32], pub u32, pub i8);

static DESLAURIERS_DUBUC_9_7: [Row; 2] = [
    Row(Even, MINUS, &[1, 1], 2, 0),
    Row(Odd, PLUS, &[-1, 9, 9, -1], 4, -1),
];

static LEGALL_5_3: [Row; 2] = [
    Row(Even, MINUS, &[1, 1], 2, 0),
    Row(Odd, PLUS, &[1, 1], 1, 0),
];

static DESLAURIERS_DUBUC_13_7: [Row; 2] = [
    Row(Even, MINUS, &[-1, 9, 9, -1], 5, -1),
    Row(Odd, PLUS, &[-1, 9, 9, -1], 4, -1),
];

static HAAR: [Row; 2] = [Row(Even, MINUS, &[1], 1, 1), Row(Odd, PLUS, &[1], 0, 0)];

static FIDELITY: [Row; 2] = [
    Row(Odd, PLUS, &[-2, 10, -25, 81, 81, -25, 10, -2], 8, -3),
    Row(Even, MINUS, &[-8, 21, -46, 161, 161, -46, 21, -8], 8, -3),
];

static DAUBECHIES_9_7: [Row; 4] = [
    Row(Even, MINUS, &[1817, 1817], 12, 0),
    Row(Odd, MINUS, &[113, 113], 7, 0),
    Row(Even, PLUS, &[217, 217], 12, 0),
    Row(Odd, PLUS, &[6497, 6497], 12, 0),
];

/// The steps of synthesis of a wavelet.
#[tactic(auto, unfolding(vc_types::specs::Wavelets::synthesis_steps))]
pub(crate) fn rows(wavelet: u8) -> &'static [Row]
    requires { wavelet ≤ 6 }
    ensures { map lifting_step result.now ≡ synthesis_steps wavelet }
{
    match wavelet {
        0 => &DESLAURIERS_DUBUC_9_7,
        1 => &LEGALL_5_3,
        2 => &DESLAURIERS_DUBUC_13_7,
        3 => &HAAR,
        4 => &HAAR,
        5 => &FIDELITY,
        _ => &DAUBECHIES_9_7,
    }
}
