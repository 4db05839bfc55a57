//! Arithmetic within `i128`.

ghost use Rattle.std.specs.Prelude.{◌≡◌, ℤ, pos, ◌+ℤ◌, ◌*ℤ◌, ◌≤ℤ◌, ◌<ℤ◌, IfSome, IfNone, FitsSigned};
ghost use Rattle.std.specs.Option.{SomeIff};
ghost use Rattle.og_search_rows.specs.Bounds.{least};
ghost use mir.Syntax.{w128};

// The greatest common divisor.
fn common_divisor(a: u128, b: u128) -> u128 {
    let mut high = a;
    let mut low = b;
    while low != 0 {
        let rest = high % low;
        high = low;
        low = rest;
    }
    high
}

/// The greatest common divisor of two magnitudes, or 1 where it is no `i128`.
pub fn common(a: i128, b: i128) -> i128 {
    if b.unsigned_abs() == 1 {
        return 1;
    }
    let divisor = common_divisor(a.unsigned_abs(), b.unsigned_abs());
    i128::try_from(divisor).unwrap_or(1)
}

// The quotient rounded down, for a divisor above 0.
fn divided_down(a: i128, divisor: i128) -> i128
    requires { pos 0 <ℤ divisor }
    ensures { ((result *ℤ divisor) ≤ℤ a) × (a <ℤ (result *ℤ divisor +ℤ divisor)) }
{
    a.div_euclid(divisor)
}

/// The greatest whole number that is not above the quotient, for a divisor above 0; without a
/// division by 1, the most frequent one.
pub(crate) fn floor_div(a: i128, divisor: i128) -> i128
    requires { pos 0 <ℤ divisor }
    ensures { ((result *ℤ divisor) ≤ℤ a) × (a <ℤ (result *ℤ divisor +ℤ divisor)) }
{
    match divisor {
        1 => a,
        _ => divided_down(a, divisor),
    }
}

/// The least whole number that is not below the quotient, for a divisor above 0; none for the least
/// `i128`.
pub(crate) fn ceil_div(a: i128, divisor: i128) -> Option<i128>
    requires { pos 0 <ℤ divisor }
    ensures quotient { IfSome result
        (λ q. (a ≤ℤ (q *ℤ divisor)) × ((q *ℤ divisor) <ℤ (a +ℤ divisor))) }
    ensures least { IfNone result (a ≡ least) }
{
    floor_div(a.checked_neg()?, divisor).checked_neg()
}

/// The product, where it fits; that of 1 or -1, the most frequent one, without a multiplication.
pub(crate) fn product(times: i128, value: i128) -> Option<i128>
    ensures { SomeIff result (FitsSigned w128 (times *ℤ value)) (times *ℤ value) }
{
    match times {
        1 => Some(value),
        -1 => value.checked_neg(),
        _ => times.checked_mul(value),
    }
}

/// m times one number and k times another, where each product and the sum fit.
pub(crate) fn mixed(m: i128, a: i128, k: i128, b: i128) -> Option<i128>
    ensures { IfSome result (λ z. z ≡ m *ℤ a +ℤ k *ℤ b) }
{
    product(m, a)?.checked_add(product(k, b)?)
}
