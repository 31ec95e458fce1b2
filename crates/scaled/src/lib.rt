// Scaled numbers (document 01, request R-4): sum, product and quotient, each the scaled number nearest to the exact result, of two equally
// near the one with even m.
// Each operation has two forms: `wide_` for operands that are known to be scaled numbers, which answers (m, e) with e of any size, and
// the public form that tests its operands and the range.
#![tactic(auto)]

ghost use Rattle.std.specs.Prelude.{◌≡◌, ◌&&◌, true, ◌≢◌, ◌+◌, ◌*◌, ◌/◌, ◌%◌, ◌≤◌, ◌<◌, T, ◌-ℤ◌};
ghost use Rattle.std.specs.Int.Signed.{mag, non_neg};
ghost use Rattle.scaled.specs.Scaled.{zero_number, is_zero, top_bit, exponent_in_range, ranged_number, is_scaled, is_number, sum_of, product_of, quotient_of, sum_with_product};
ghost use Rattle.scaled.specs.Scaled.{dyadic, aligned_sum, to_nearest, nearest, exact_sum, exact_product, exact_quotient};
ghost use Rattle.scaled.specs.Nearest.{RoundedToNearest};
ghost use Rattle.scaled.specs.Units.{one, val, NoneExactly, one_number, Converts};

// m * 2^e: Zero is (0, 0); any other scaled number has m from 2^31 on and e from -16384 to 16383.
#[derive(Clone, Copy)]
pub struct Scaled {
    pub m: u32,
    pub e: i32,
}

// Zero.
pub fn zero() -> Scaled
    ensures { result ≡ zero_number }
{
    Scaled { m: 0, e: 0 }
}

// The number 1.
#[tactic(auto, unfolding(crate::specs::Units::one_number))]
pub fn one() -> Scaled
    ensures { result ≡ one_number }
{
    Scaled {
        m: 0x8000_0000,
        e: -31,
    }
}

// Whether a is Zero, for a scaled number a.
#[tactic(auto, unfolding(crate::specs::Scaled::is_zero))]
pub fn is_zero(a: Scaled) -> bool
    ensures { result ≡ is_zero a }
{
    a.m == 0
}

fn in_range(e: i32) -> bool
    ensures { result ≡ exponent_in_range e }
{
    (-16384..=16383).contains(&e)
}

// x, or none where its e is outside the range.
fn ranged(x: Scaled) -> Option<Scaled>
    ensures { result ≡ ranged_number x }
{
    in_range(x.e).then_some(x)
}

// Whether a is a scaled number.
#[tactic(auto, unfolding(crate::specs::Scaled::is_scaled, crate::specs::Scaled::is_scaled_at))]
pub fn is_scaled(a: Scaled) -> bool
    ensures { result ≡ is_scaled a }
{
    if a.m == 0 {
        a.e == 0
    } else {
        0x8000_0000 <= a.m && in_range(a.e)
    }
}

// The upper 32 bits of x, rounded to nearest: half a unit of them, less 1, and their last bit are added to x, so that they rise above half,
// and at half where they are odd.
fn upper_half(x: u64) -> u64
    requires { x < 18446744071562067968 }
    ensures below_half { x % 4294967296 < 2147483648 → result ≡ x / 4294967296 }
    ensures half_even { x % 4294967296 ≡ 2147483648 → x / 4294967296 % 2 ≡ 0 → result ≡ x / 4294967296 }
    ensures half_odd { x % 4294967296 ≡ 2147483648 → x / 4294967296 % 2 ≡ 1 → result ≡ x / 4294967296 + 1 }
    ensures above_half { 2147483648 < x % 4294967296 → result ≡ x / 4294967296 + 1 }
    ensures size { (x / 4294967296 ≤ result) × (result < 4294967296) }
{
    (x + 0x7fff_ffff + (x >> 32) % 2) >> 32
}

// x * 2^(e - 32), rounded to nearest, for an x with its highest bit at the top. From 2^64 - 2^31 on that is the first number of the next binade.
fn judged(x: u64, e: i32) -> Scaled
    requires { (9223372036854775808 ≤ x) × (mag e < 131072) }
    ensures result_value { ranged_number result ≡ to_nearest top_bit x 4294967296 e }
    ensures le_m { 2147483648 ≤ result.m }
{
    if x < 0xffff_ffff_8000_0000 {
        return Scaled {
            m: upper_half(x) as u32,
            e,
        };
    }
    Scaled {
        m: 0x8000_0000,
        e: e + 1,
    }
}

// t * 2^e, rounded to nearest.
fn nearest(t: u64, e: i32) -> Scaled
    requires { (0 < t) × (mag e < 65536) }
    ensures { ranged_number result ≡ nearest top_bit (dyadic t e) }
{
    let z = t.leading_zeros();
    judged(t << z, e + 32 - z as i32)
}

// How many zeros stand above the highest bit of the product of two mantissas, which has 63 bits or 64. (By `leading_zeros`, as in `nearest`,
// an elimination takes a fifteenth longer.)
fn zeros_above(t: u64) -> u64
    requires { 4611686018427387904 ≤ t }
    ensures { (t < 9223372036854775808 → result ≡ 1) × (9223372036854775808 ≤ t → result ≡ 0) }
{
    1 - (t >> 63)
}

// t * 2^e, rounded to nearest, for such a product t.
fn nearest_product(t: u64, e: i32) -> Scaled
    requires { (4611686018427387904 ≤ t) × (mag e < 65536) }
    ensures result_value { ranged_number result ≡ nearest top_bit (dyadic t e) }
    ensures le_m { 2147483648 ≤ result.m }
{
    let z = zeros_above(t);
    judged(t << z, e + 32 - z as i32)
}

// a + b, rounded to nearest, for an a whose e is not below that of b. From a distance of 33 on, b is less than half a unit of a.
fn aligned_sum(a: Scaled, b: Scaled) -> Scaled
    requires { (2147483648 ≤ a.m) × (mag a.e < 16384) × (mag b.e < 16384) × T (non_neg (a.e -ℤ b.e)) }
    ensures { ranged_number result ≡ nearest top_bit (aligned_sum a b) }
{
    let d = (a.e - b.e) as u32;
    if 32 < d {
        return a;
    }
    nearest(((a.m as u64) << d) + b.m as u64, b.e)
}

// The sum of two scaled numbers that are not Zero. (With a test of the order of their e in place of the difference, an elimination takes a
// twentieth longer.)
fn positive_sum(a: Scaled, b: Scaled) -> Scaled
    requires scaled { (is_scaled a ≡ true) × (is_scaled b ≡ true) }
    requires positive { (0 < a.m) × (0 < b.m) }
    ensures { ranged_number result ≡ sum_of a b }
{
    if a.e - b.e < 0 {
        aligned_sum(b, a)
    } else {
        aligned_sum(a, b)
    }
}

// The sum of two scaled numbers: the exact sum is rounded, never an operand. Its e may be of any size.
pub fn wide_sum(a: Scaled, b: Scaled) -> Scaled
    requires { (is_scaled a ≡ true) × (is_scaled b ≡ true) }
    ensures { ranged_number result ≡ sum_of a b }
{
    if a.m == 0 {
        return b;
    }
    if b.m == 0 {
        return a;
    }
    positive_sum(a, b)
}

// The product of two scaled numbers. Its e may be of any size.
pub fn wide_product(a: Scaled, b: Scaled) -> Scaled
    requires { (is_scaled a ≡ true) × (is_scaled b ≡ true) }
    ensures { ranged_number result ≡ product_of a b }
{
    let t = a.m as u64 * b.m as u64;
    if t == 0 {
        return zero();
    }
    nearest_product(t, a.e + b.e)
}

// Two bits with which a quotient goes on where r is left of d: whether that is half of d or more, and whether anything is left then. (Of two
// mantissas exactly half is never left. A `match` on `cmp` takes five instructions more.)
fn last_bits(r: u64, d: u64) -> u64
    requires { (r < d) × (d < 4294967296) }
    ensures { (r ≡ 0 → result ≡ 0) × (0 < r → 2 * r < d → result ≡ 1) × (2 * r ≡ d → result ≡ 2) × (d < 2 * r → result ≡ 3) }
{
    if 2 * r < d {
        u64::from(0 < r)
    } else if 2 * r == d {
        2
    } else {
        3
    }
}

// The quotient of two scaled numbers, the second not Zero. Its e may be of any size. One division gives 32 bits or 33, its rest two more.
pub fn wide_quotient(a: Scaled, b: Scaled) -> Scaled
    requires { (is_scaled a ≡ true) × (is_scaled b ≡ true) × (b ≢ zero_number) }
    ensures { ranged_number result ≡ quotient_of a b }
{
    if a.m == 0 {
        return zero();
    }
    let n = a.m as u64 * 0x1_0000_0000;
    let d = b.m as u64;
    nearest(4 * (n / d) + last_bits(n % d, d), a.e - b.e - 34)
}

// Whether both operands are scaled numbers.
fn are_scaled(a: Scaled, b: Scaled) -> bool
    ensures { result ≡ (is_scaled a && is_scaled b) }
{
    is_scaled(a) && is_scaled(b)
}

// The sum, or none.
pub fn sum(a: Scaled, b: Scaled) -> Option<Scaled>
    ensures value { result ≡ sum_of a b }
    ensures rounded_to_nearest { RoundedToNearest top_bit a b (exact_sum a b) result }
    ensures none_exactly { is_scaled a ≡ true → is_scaled b ≡ true → NoneExactly (val a + val b) 1 result }
{
    if !are_scaled(a, b) {
        return None;
    }
    ranged(wide_sum(a, b))
}

// The product, or none.
pub fn product(a: Scaled, b: Scaled) -> Option<Scaled>
    ensures value { result ≡ product_of a b }
    ensures rounded_to_nearest { RoundedToNearest top_bit a b (exact_product a b) result }
    ensures none_exactly { is_scaled a ≡ true → is_scaled b ≡ true → NoneExactly (val a * val b) one result }
{
    if !are_scaled(a, b) {
        return None;
    }
    ranged(wide_product(a, b))
}

// The quotient, or none: by Zero there is none.
pub fn quotient(a: Scaled, b: Scaled) -> Option<Scaled>
    ensures value { result ≡ quotient_of a b }
    ensures rounded_to_nearest { RoundedToNearest top_bit a b (exact_quotient a b) result }
    ensures none_exactly { is_scaled a ≡ true → is_scaled b ≡ true → b ≢ zero_number → NoneExactly (one * val a) (val b) result }
{
    if !are_scaled(a, b) || is_zero(b) {
        return None;
    }
    ranged(wide_quotient(a, b))
}

// x plus the product of a and t, each result rounded, for a caller who knows that x, a, t and the product are scaled numbers.
// The factors are tested for Zero and not their product, of whose test the compiler makes slower code (docs/DECISIONS.md, "Adding a product").
pub fn add_product(x: Scaled, a: Scaled, t: Scaled) -> Scaled
    requires { (is_scaled x ≡ true) × (is_scaled a ≡ true) × (is_scaled t ≡ true) × (is_number (product_of a t) ≡ true) }
    ensures { ranged_number result ≡ sum_with_product x a t }
{
    if a.m == 0 {
        return x;
    }
    if t.m == 0 {
        return x;
    }
    let n = a.m as u64 * t.m as u64;
    let p = nearest_product(n, a.e + t.e);
    if x.m == 0 {
        return p;
    }
    positive_sum(x, p)
}

// A rate, converted exactly: its highest bit is brought to the top of m. The scaled number means the rate.
pub fn from_rate(x: u32) -> Scaled
    ensures { Converts x result }
{
    if x == 0 {
        return zero();
    }
    let z = x.leading_zeros();
    Scaled {
        m: x << z,
        e: -(z as i32),
    }
}
