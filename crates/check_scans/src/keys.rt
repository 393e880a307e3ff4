// Keys that name a variable, and keys with one variable in the place of another.
ghost use Rattle.std.specs.Prelude.{◌≡◌};
ghost use Rattle.check_scans.specs.Sides.{renamed_key, mentions_key};

use check_equality::State;

// A key, with the variable `to` for x.
pub fn rename(k: u64, x: u8, to: u8) -> u64
    ensures { result ≡ renamed_key x to k }
{
    if k == check_equality::variable_key(x) {
        return check_equality::variable_key(to);
    }
    let first = check_equality::path_key(x, 0);
    if k < first {
        return k;
    }
    if k - first < State::PATHS {
        return check_equality::path_key(to, 0) + (k - first);
    }
    k
}

// Does a key name x?
pub fn mentions(k: u64, x: u8) -> bool
    ensures { result ≡ mentions_key x k }
{
    if k == check_equality::variable_key(x) {
        return true;
    }
    std::num::wrapping_sub_u64(k, check_equality::path_key(x, 0)) < State::PATHS
}
