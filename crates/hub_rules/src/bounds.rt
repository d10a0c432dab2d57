//! The bounds of a whole number's node, and whether a factor keeps them.
ghost use Rattle.std.specs.Prelude.{◌≡◌, ◌<◌, ◌≤◌, ◌&&◌, not, pos, negsuc, ◌*ℤ◌, int_lt, FitsSigned};
ghost use Rattle.std.specs.Int.{w128};
ghost use Rattle.struct_schema.specs.ShapeOf.{own_of};
ghost use Rattle.hub_cells.specs.Cross.{quotient};
ghost use Rattle.hub_rules.specs.Refusal.{greater, lesser_of, or_bound, format_least, format_greatest, least, greatest, is_between, products_fit, quotients_fit, scale_fits};

use struct_schema::{IntFormat, Schema};

// A product of a factor and a number of 64 bits has 128.
#[tactic(auto, using(crate::proofs::Products::product_fits))]
fn fits_i128(by: u32, n: i64)
    requires { by ≤ 1000000000 }
    ensures { FitsSigned w128 (pos by *ℤ n) }
{}

fn greater(a: i64, b: i64) -> i64
    ensures { result ≡ greater a b }
{
    if a < b { b } else { a }
}

fn lesser_of(a: i64, b: i64) -> i64
    ensures { result ≡ lesser_of a b }
{
    if a < b { a } else { b }
}

fn or_least(bound: Option<i64>) -> i64
    ensures { result ≡ or_bound (negsuc 9223372036854775807) bound }
{
    match bound {
        None => -9223372036854775808,
        Some(m) => m,
    }
}

fn or_greatest(bound: Option<i64>) -> i64
    ensures { result ≡ or_bound (pos 9223372036854775807) bound }
{
    match bound {
        None => 9223372036854775807,
        Some(m) => m,
    }
}

fn format_least(format: Option<IntFormat>) -> i64
    ensures { result ≡ format_least format }
{
    match format {
        None => -9223372036854775808,
        Some(IntFormat::Int32) => -2147483648,
        Some(IntFormat::Int64) => -9223372036854775808,
    }
}

fn format_greatest(format: Option<IntFormat>) -> i64
    ensures { result ≡ format_greatest format }
{
    match format {
        None => 9223372036854775807,
        Some(IntFormat::Int32) => 2147483647,
        Some(IntFormat::Int64) => 9223372036854775807,
    }
}

fn least(s: &Schema) -> i64
    ensures { result ≡ least (own_of s.now) }
{
    greater(or_least(s.minimum), format_least(s.format))
}

fn greatest(s: &Schema) -> i64
    ensures { result ≡ greatest (own_of s.now) }
{
    lesser_of(or_greatest(s.maximum), format_greatest(s.format))
}

fn is_between(s: &Schema, n: i128) -> bool
    ensures { result ≡ is_between (own_of s.now) n }
{
    !(n < i128::from(least(s))) && !(i128::from(greatest(s)) < n)
}

fn product_between(by: u32, n: i64, s: &Schema) -> bool
    requires { by ≤ 1000000000 }
    ensures { result ≡ is_between (own_of s.now) (pos by *ℤ n) }
{
    fits_i128(by, n);
    is_between(s, i128::from(by) * i128::from(n))
}

fn quotient_between(by: u32, n: i64, s: &Schema) -> bool
    requires { 0 < by }
    ensures { result ≡ is_between (own_of s.now) (quotient by n) }
{
    is_between(s, i128::from(n.div_euclid(i64::from(by))))
}

fn products_fit(by: u32, spoke: &Schema, hub: &Schema) -> bool
    requires { by ≤ 1000000000 }
    ensures { result ≡ products_fit by (own_of spoke.now) (own_of hub.now) }
{
    let low = least(spoke);
    let high = greatest(spoke);
    product_between(by, low, hub) && product_between(by, high, hub)
}

fn quotients_fit(by: u32, spoke: &Schema, hub: &Schema) -> bool
    requires { 0 < by }
    ensures { result ≡ quotients_fit by (own_of spoke.now) (own_of hub.now) }
{
    let low = least(hub);
    let high = greatest(hub);
    quotient_between(by, low, spoke) && quotient_between(by, high, spoke)
}

// Whether the products of the spoke's bounds are within the hub's, and the quotients of the hub's bounds
// within the spoke's.
pub(crate) fn scale_fits(by: u32, spoke: &Schema, hub: &Schema) -> bool
    requires factor { 0 < by }
    requires most { by ≤ 1000000000 }
    ensures { result ≡ scale_fits by (own_of spoke.now) (own_of hub.now) }
{
    products_fit(by, spoke, hub) && quotients_fit(by, spoke, hub)
}
