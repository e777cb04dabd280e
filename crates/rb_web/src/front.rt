//! Bytes at the front of a place.
ghost use Rattle.std.specs.Prelude.{◌≡◌, ◌≤◌, ◌++◌, length, drop};

/// Puts the bytes at the front of the place, which is long enough. What is behind them stays.
pub fn put_front(place: &mut [u8], bytes: &[u8])
    requires { length bytes.now ≤ length place.old }
    ensures { place.new ≡ bytes.now ++ drop (length bytes.now) place.old }
{
    place[..bytes.len()].copy_from_slice(bytes);
}
