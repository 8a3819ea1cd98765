//! The places of the errors: those whose power of alpha has its inverse among the locator's roots.
ghost use Rattle.std.specs.Prelude.{◌≡◌, ℕ, ◌*◌, ◌<◌, ◌≤◌, length, take, slice_index_or};
ghost use Rattle.gf1024.specs.Symbol.{gf, zero_symbol};
ghost use Rattle.field_base.specs.Poly.{value};
ghost use Rattle.rs_decode.specs.Recurrence.{StartsAs};
ghost use Rattle.rs_decode.specs.Repair.{place, back_power, roots_below};

use arrayvec::ArrayVec;
use gf_lanes::{Gf32, add, horner, mul};
use gf1024::{Gf, Poly};
use rs_code::by_powers;

/// The places of a word of `count` symbols at which the locator has a root, of which it takes the
/// first sixteen.
pub fn root_places(locator: &Poly, count: usize) -> ArrayVec<usize, 16>
    requires some { 1 ≤ length locator.now }
    requires few { length locator.now ≤ 16 }
    requires inside { count ≤ 544 }
    ensures { result.items ≡ take 16 (roots_below count locator.now) }
{
    let mut places = ArrayVec::new();
    let step = inverse_powers_of(32);
    let mut scaled = mul(inverse_powers_of(31), lanes_of(locator));
    for row in 0..17usize {
        let values = values_in_row(scaled, locator.len());
        for k in 0..32usize {
            let place = 32 * row + k;
            if values.lane(31 - k).is_zero() && place < count && places.len() < 16 {
                places.push(place);
            }
        }
        scaled = mul(step, scaled);
    }
    places
}

// The values of the polynomial of the first lanes at `alpha^k` in each lane `k`. Where the locator's
// coefficients were taken times the powers of `alpha^-(place + 31)`, these are its own at the places
// from there on, the last lane's first.
#[inline(always)]
fn values_in_row(coefficients: Gf32, count: usize) -> Gf32
    requires some { 1 ≤ count }
    requires few { count ≤ 16 }
    ensures { (k : ℕ) → k < 32 → slice_index_or result k zero_symbol ≡ value gf (take count coefficients) (place k) }
{
    let mut values = Gf32::new([coefficients.lane(0); 32]);
    for j in 1..count {
        values = add(values, by_powers(coefficients.lane(j), j));
    }
    values
}

// The first powers of `alpha^-i`, one a lane.
fn inverse_powers_of(i: usize) -> Gf32
    requires { i ≤ 32 }
    ensures { (j : ℕ) → j < 16 → slice_index_or result j zero_symbol ≡ back_power (i * j) }
{
    let mut list = [Gf::low(0); 32];
    for j in 0..16usize {
        list[j] = inverse_power(i * j);
    }
    Gf32::new(list)
}

/// The values of the polynomial at the points, lane by lane.
#[inline(always)]
pub fn values_at(poly: &Poly, points: Gf32) -> Gf32
    ensures { (j : ℕ) → j < 32
        → slice_index_or result j zero_symbol ≡ value gf poly.now (slice_index_or points j zero_symbol) }
{
    let count = poly.len();
    let highest = poly.at(count.saturating_sub(1));
    let mut sums = Gf32::new([highest; 32]);
    for i in 1..count {
        sums = horner(sums, points, poly.at(count - 1 - i));
    }
    sums
}

/// The coefficients, one a lane.
pub fn lanes_of(poly: &Poly) -> Gf32
    ensures { StartsAs 32 poly.now result }
{
    let mut list = [Gf::low(0); 32];
    for k in 0..32usize {
        list[k] = poly.at(k);
    }
    Gf32::new(list)
}

/// alpha^-i.
#[inline(always)]
pub fn inverse_power(i: usize) -> Gf
    requires { i < 544 }
    ensures { result ≡ back_power i }
{
    Gf::low(INVERSE_POWERS[i])
}

static INVERSE_POWERS: [u16; 544] = [
    1, 516, 258, 129, 580, 290, 145, 588, 294, 147, 589, 802, 401, 716, 358, 179, 605, 810, 405,
    718, 359, 695, 863, 939, 977, 1004, 502, 251, 633, 824, 412, 206, 103, 567, 799, 907, 961, 996,
    498, 249, 632, 316, 158, 79, 547, 789, 910, 455, 743, 887, 959, 987, 1001, 1008, 504, 252, 126,
    63, 539, 777, 896, 448, 224, 112, 56, 28, 14, 7, 519, 775, 903, 967, 999, 1015, 1023, 1019,
    1017, 1016, 508, 254, 127, 571, 793, 904, 452, 226, 113, 572, 286, 143, 579, 805, 918, 459,
    737, 884, 442, 221, 618, 309, 670, 335, 675, 853, 942, 471, 751, 883, 957, 986, 493, 754, 377,
    696, 348, 174, 87, 559, 787, 909, 962, 481, 756, 378, 189, 602, 301, 658, 329, 672, 336, 168,
    84, 42, 21, 526, 263, 647, 839, 935, 983, 1007, 1011, 1021, 1018, 509, 762, 381, 698, 349, 682,
    341, 686, 343, 687, 851, 941, 978, 489, 752, 376, 188, 94, 47, 531, 781, 898, 449, 740, 370,
    185, 600, 300, 150, 75, 545, 788, 394, 197, 614, 307, 669, 842, 421, 726, 363, 689, 860, 430,
    215, 623, 819, 925, 970, 485, 758, 379, 697, 856, 428, 214, 107, 561, 796, 398, 199, 615, 823,
    927, 971, 993, 1012, 506, 253, 634, 317, 666, 333, 674, 337, 684, 342, 171, 593, 812, 406, 203,
    609, 820, 410, 205, 610, 305, 668, 334, 167, 599, 815, 915, 973, 994, 497, 764, 382, 191, 603,
    809, 912, 456, 228, 114, 57, 536, 268, 134, 67, 549, 790, 395, 705, 868, 434, 217, 616, 308,
    154, 77, 546, 273, 652, 326, 163, 597, 814, 407, 719, 867, 949, 990, 495, 755, 893, 954, 477,
    746, 373, 702, 351, 683, 849, 940, 470, 235, 625, 828, 414, 207, 611, 821, 926, 463, 739, 885,
    958, 479, 747, 881, 956, 478, 239, 627, 829, 922, 461, 738, 369, 700, 350, 175, 595, 813, 914,
    457, 736, 368, 184, 92, 46, 23, 527, 771, 901, 966, 483, 757, 894, 447, 731, 873, 944, 472,
    236, 118, 59, 537, 776, 388, 194, 97, 564, 282, 141, 578, 289, 660, 330, 165, 598, 299, 657,
    844, 422, 211, 621, 818, 409, 712, 356, 178, 89, 552, 276, 138, 69, 550, 275, 653, 834, 417,
    724, 362, 181, 606, 303, 659, 845, 930, 465, 748, 374, 187, 601, 808, 404, 202, 101, 566, 283,
    649, 832, 416, 208, 104, 52, 26, 13, 514, 257, 644, 322, 161, 596, 298, 149, 590, 295, 663,
    847, 931, 981, 1006, 503, 767, 891, 953, 984, 492, 246, 123, 569, 792, 396, 198, 99, 565, 798,
    399, 707, 869, 950, 475, 745, 880, 440, 220, 110, 55, 543, 779, 897, 964, 482, 241, 636, 318,
    159, 587, 801, 916, 458, 229, 630, 315, 665, 840, 420, 210, 105, 560, 280, 140, 70, 35, 533,
    782, 391, 711, 871, 951, 991, 1003, 1009, 1020, 510, 255, 635, 825, 920, 460, 230, 115, 573,
    794, 397, 706, 353, 692, 346, 173, 594, 297, 656, 328, 164, 82, 41, 528, 264, 132, 66, 33, 532,
    266, 133, 582, 291, 661, 846, 423, 727, 879, 947, 989, 1002, 501, 766, 383, 699, 857, 936, 468,
    234, 117, 574, 287, 651, 833, 932, 466, 233, 624, 312, 156, 78,
];
