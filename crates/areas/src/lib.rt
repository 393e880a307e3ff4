// The lent areas: whether they have their lengths (number 1), and all their bytes set to 0; the shares of the heap (number 19).
#![tactic(auto)]

ghost use Rattle.std.specs.Prelude.{◌≡◌, length};
ghost use Rattle.rules.specs.Limits.{most_scripts};
ghost use Rattle.rules.specs.Joint.{fit_together, shares_fit};
ghost use Rattle.rules.specs.Areas.{cleared};
ghost use Rattle.areas.specs.Lengths.{areas_fit};

use rules::Machine;

// Have the work area and another one, of so many bytes, their lengths?
pub fn fit(work: &[u8], other: &[u8], bytes: usize) -> bool
    ensures { result ≡ areas_fit work.now other.now bytes }
{
    if work.len() != Machine::WORK_BYTES {
        return false;
    }
    other.len() == bytes
}

// All bytes 0.
pub fn clear(area: &mut [u8])
    ensures { area.new ≡ cleared area.old }
{
    area.fill(0);
}

// Is none of the shares 0, and do they come to no more objects than the heap has? What is left of it is counted down, so that no sum can wrap.
fn fit_together(shares: &[u32]) -> bool
    ensures { result ≡ fit_together shares.now }
{
    let mut left = Machine::OBJECTS as u32;
    for &k in shares {
        if k == 0 {
            return false;
        }
        if k > left {
            return false;
        }
        left -= k;
    }
    true
}

// Are there so many scripts, and do their shares fit into the heap? The shares stay a slice: docs/ARCHITECTURE.md names this function, and an array
// would be a narrower type than it took.
pub fn shares_fit(scripts: u32, shares: &[u32]) -> bool
    requires { length shares.now ≡ most_scripts }
    ensures { result ≡ shares_fit scripts shares.now }
{
    let n = scripts as usize;
    if n == 0 {
        return false;
    }
    if n > Machine::SCRIPTS {
        return false;
    }
    fit_together(&shares[..n])
}
