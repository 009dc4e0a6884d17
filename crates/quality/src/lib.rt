// The quality figure of a list of permutations (document 01, "Quality figure and program"; document 02, CR 4; source document 000, section 4).
#![tactic(auto)]

ghost use Rattle.std.specs.Prelude.{◌≡◌, true, ◌<◌, ◌≤◌};
ghost use Rattle.quality.specs.Rounding.{nearest_of};
ghost use Rattle.quality.specs.Efficiency.{max_labelled, has_efficiency, efficiency_of};

// The most labelled solutions that the figure is given for.
pub const MAX_LABELLED: u64 = 1000000000000;

// Whether three counts have an efficiency.
pub fn has_efficiency(labelled: u64, unlabelled: u64, allowed: u64) -> bool
    ensures { result ≡ has_efficiency labelled unlabelled allowed }
{
    unlabelled <= allowed
        && allowed <= labelled
        && labelled != unlabelled
        && labelled <= MAX_LABELLED
}

// The efficiency to the nearest hundredth of a percent.
pub fn efficiency(labelled: u64, unlabelled: u64, allowed: u64) -> u64
    requires { has_efficiency labelled unlabelled allowed ≡ true }
    ensures { result ≡ efficiency_of labelled unlabelled allowed }
{
    nearest(10000 * (labelled - allowed), labelled - unlabelled)
}

// x / y to the nearest whole number, an exact half to the even one. Two tests and no match on an order, which takes a quarter more
// instructions for an efficiency.
fn nearest(x: u64, y: u64) -> u64
    requires y_nonzero { 0 < y }
    requires y_le_max_labelled { y ≤ max_labelled }
    ensures { result ≡ nearest_of x y }
{
    let below = x / y;
    let twice = 2 * (x % y);
    if twice < y {
        return below;
    }
    if twice == y {
        return below + below % 2;
    }
    below + 1
}
