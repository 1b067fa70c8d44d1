ghost use Rattle.std.specs.Prelude.{◌≡◌, ◌+◌, ◌<◌, ◌≤◌, ◌^◌, ◌++◌, true, false, replicate, unsigned_abs};
ghost use Rattle.vc_types.specs.Codes.{sint_bits};
ghost use Rattle.vc_bits.specs.Bits.{word_bits};
ghost use Rattle.vc_golomb.specs.Short.{HasCode, IsShort, number_in};

/// The signed code of a number, or several: the number that the bits make, and how many they are.
#[derive(Clone, Copy)]
pub(crate) struct Code {
    pub(crate) bits: u64,
    pub(crate) count: u32,
}

/// Whether the table has the code of a number.
#[inline(always)]
pub(crate) fn is_short(v: i64) -> bool
    ensures short { result ≡ true → IsShort v }
    ensures long { result ≡ false → 256 ≤ unsigned_abs v }
{
    v >= -256 && v < 256
}

/// The signed code of such a number.
#[inline(always)]
pub(crate) fn short_code(v: i64) -> Code
    requires { IsShort v }
    ensures value { word_bits result.count result.bits ≡ sint_bits v }
    ensures count { result.count ≤ 18 }
    ensures range { result.bits < 2 ^ result.count }
{
    let entry = code_at((v + 256) as usize);
    Code {
        bits: u64::from(entry / 32),
        count: entry % 32,
    }
}

#[inline(always)]
fn code_at(place: usize) -> u32
    requires { place < 512 }
    ensures { HasCode (number_in place) result }
{
    CODES[place]
}

/// A code behind so many ones.
#[inline(always)]
pub(crate) fn behind_ones(ones: u32, code: Code) -> Code
    requires ones { ones ≤ 14 }
    requires count { code.count ≤ 18 }
    requires range { code.bits < 2 ^ code.count }
    ensures value { word_bits result.count result.bits
        ≡ replicate ones true ++ word_bits code.count code.bits }
    ensures count { result.count ≤ 32 }
    ensures range { result.bits < 2 ^ result.count }
{
    Code {
        bits: (((1 << ones) - 1) << code.count) + code.bits,
        count: ones + code.count,
    }
}

/// Two codes, one behind the other.
#[inline(always)]
pub(crate) fn code_behind(first: Code, second: Code) -> Code
    requires counts { first.count + second.count < 64 }
    requires first { first.bits < 2 ^ first.count }
    requires second { second.bits < 2 ^ second.count }
    ensures value { word_bits result.count result.bits
        ≡ word_bits first.count first.bits ++ word_bits second.count second.bits }
    ensures count { result.count ≡ first.count + second.count }
    ensures range { result.bits < 2 ^ result.count }
{
    Code {
        bits: (first.bits << second.count) + second.bits,
        count: first.count + second.count,
    }
}

// The codes of the numbers from -256 to 255. The last five bits of an entry say how many bits the code has.
static CODES: [u32; 512] = [
    242, 114, 699120, 698992, 698608, 698480, 697072, 696944, 696560, 696432, 690928, 690800,
    690416, 690288, 688880, 688752, 688368, 688240, 666352, 666224, 665840, 665712, 664304, 664176,
    663792, 663664, 658160, 658032, 657648, 657520, 656112, 655984, 655600, 655472, 568048, 567920,
    567536, 567408, 566000, 565872, 565488, 565360, 559856, 559728, 559344, 559216, 557808, 557680,
    557296, 557168, 535280, 535152, 534768, 534640, 533232, 533104, 532720, 532592, 527088, 526960,
    526576, 526448, 525040, 524912, 524528, 524400, 174832, 174704, 174320, 174192, 172784, 172656,
    172272, 172144, 166640, 166512, 166128, 166000, 164592, 164464, 164080, 163952, 142064, 141936,
    141552, 141424, 140016, 139888, 139504, 139376, 133872, 133744, 133360, 133232, 131824, 131696,
    131312, 131184, 43760, 43632, 43248, 43120, 41712, 41584, 41200, 41072, 35568, 35440, 35056,
    34928, 33520, 33392, 33008, 32880, 10992, 10864, 10480, 10352, 8944, 8816, 8432, 8304, 2800,
    2672, 2288, 2160, 752, 624, 240, 112, 174830, 174702, 174318, 174190, 172782, 172654, 172270,
    172142, 166638, 166510, 166126, 165998, 164590, 164462, 164078, 163950, 142062, 141934, 141550,
    141422, 140014, 139886, 139502, 139374, 133870, 133742, 133358, 133230, 131822, 131694, 131310,
    131182, 43758, 43630, 43246, 43118, 41710, 41582, 41198, 41070, 35566, 35438, 35054, 34926,
    33518, 33390, 33006, 32878, 10990, 10862, 10478, 10350, 8942, 8814, 8430, 8302, 2798, 2670,
    2286, 2158, 750, 622, 238, 110, 43756, 43628, 43244, 43116, 41708, 41580, 41196, 41068, 35564,
    35436, 35052, 34924, 33516, 33388, 33004, 32876, 10988, 10860, 10476, 10348, 8940, 8812, 8428,
    8300, 2796, 2668, 2284, 2156, 748, 620, 236, 108, 10986, 10858, 10474, 10346, 8938, 8810, 8426,
    8298, 2794, 2666, 2282, 2154, 746, 618, 234, 106, 2792, 2664, 2280, 2152, 744, 616, 232, 104,
    742, 614, 230, 102, 228, 100, 33, 68, 196, 70, 198, 582, 710, 72, 200, 584, 712, 2120, 2248,
    2632, 2760, 74, 202, 586, 714, 2122, 2250, 2634, 2762, 8266, 8394, 8778, 8906, 10314, 10442,
    10826, 10954, 76, 204, 588, 716, 2124, 2252, 2636, 2764, 8268, 8396, 8780, 8908, 10316, 10444,
    10828, 10956, 32844, 32972, 33356, 33484, 34892, 35020, 35404, 35532, 41036, 41164, 41548,
    41676, 43084, 43212, 43596, 43724, 78, 206, 590, 718, 2126, 2254, 2638, 2766, 8270, 8398, 8782,
    8910, 10318, 10446, 10830, 10958, 32846, 32974, 33358, 33486, 34894, 35022, 35406, 35534,
    41038, 41166, 41550, 41678, 43086, 43214, 43598, 43726, 131150, 131278, 131662, 131790, 133198,
    133326, 133710, 133838, 139342, 139470, 139854, 139982, 141390, 141518, 141902, 142030, 163918,
    164046, 164430, 164558, 165966, 166094, 166478, 166606, 172110, 172238, 172622, 172750, 174158,
    174286, 174670, 174798, 80, 208, 592, 720, 2128, 2256, 2640, 2768, 8272, 8400, 8784, 8912,
    10320, 10448, 10832, 10960, 32848, 32976, 33360, 33488, 34896, 35024, 35408, 35536, 41040,
    41168, 41552, 41680, 43088, 43216, 43600, 43728, 131152, 131280, 131664, 131792, 133200,
    133328, 133712, 133840, 139344, 139472, 139856, 139984, 141392, 141520, 141904, 142032, 163920,
    164048, 164432, 164560, 165968, 166096, 166480, 166608, 172112, 172240, 172624, 172752, 174160,
    174288, 174672, 174800, 524368, 524496, 524880, 525008, 526416, 526544, 526928, 527056, 532560,
    532688, 533072, 533200, 534608, 534736, 535120, 535248, 557136, 557264, 557648, 557776, 559184,
    559312, 559696, 559824, 565328, 565456, 565840, 565968, 567376, 567504, 567888, 568016, 655440,
    655568, 655952, 656080, 657488, 657616, 658000, 658128, 663632, 663760, 664144, 664272, 665680,
    665808, 666192, 666320, 688208, 688336, 688720, 688848, 690256, 690384, 690768, 690896, 696400,
    696528, 696912, 697040, 698448, 698576, 698960, 699088, 82,
];
