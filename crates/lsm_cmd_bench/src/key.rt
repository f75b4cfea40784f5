//! Keys.

ghost use Rattle.std.specs.Prelude.{◌≡◌};
ghost use Rattle.lsm_cmd_bench.specs.Pairs.{digits};

/// The key of a number, as `db_bench` has it: 16 decimal digits, the last ones where it has more.
pub(crate) fn key_of(number: u64) -> [u8; 16]
    ensures { result ≡ digits 16 number }
{
    let mut key = [b'0'; 16];
    let mut rest = number;
    'digits: for place in 0..16 {
        key[15 - place] = b'0' + (rest % 10) as u8;
        rest /= 10;
    }
    key
}
