//! The least of faults.
ghost use Rattle.std.specs.Prelude.{◌≡◌, map};
ghost use Rattle.std.specs.Ordering.{is_lt};
ghost use Rattle.std.specs.Option.{option_map};
ghost use Rattle.link_model.specs.Faults.{fault_cmp, earlier, least};
ghost use Rattle.mod_faults.specs.Views.{fault_view};

use crate::fault::Fault;

/// The least of these faults, by unit, then byte, then number. None where there are none.
pub fn least(faults: &[Fault]) -> Option<Fault>
    ensures { option_map fault_view result ≡ least (map fault_view faults.now) }
{
    let mut found = None;
    let mut rest = faults.len();
    while rest > 0 {
        rest -= 1;
        found = Some(earlier(faults[rest], found));
    }
    found
}

// The other fault where it comes before this one, and else this one.
fn earlier(fault: Fault, other: Option<Fault>) -> Fault
    ensures { fault_view result ≡ earlier (fault_view fault) (option_map fault_view other) }
{
    match other {
        Some(other) if is_before(other, fault) => other,
        _ => fault,
    }
}

fn is_before(one: Fault, other: Fault) -> bool
    ensures { result ≡ is_lt (fault_cmp (fault_view one) (fault_view other)) }
{
    one.unit
        .cmp(&other.unit)
        .then(
            one.byte
                .cmp(&other.byte)
                .then(one.number.cmp(&other.number)),
        )
        .is_lt()
}
