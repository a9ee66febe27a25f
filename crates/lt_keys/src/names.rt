// The names of the sets of keys.
ghost use Rattle.std.specs.Prelude.{◌≡◌, ◌<◌};
ghost use Rattle.lt_keys.specs.Keys.{digit, key_name};

/// The name of the set with this number among those of keys: `key.` and five digits.
pub fn key_name(number: u32) -> [u8; 9]
    ensures { result ≡ key_name number }
{
    [
        b'k',
        b'e',
        b'y',
        b'.',
        digit(number, 10_000),
        digit(number, 1_000),
        digit(number, 100),
        digit(number, 10),
        digit(number, 1),
    ]
}

fn digit(number: u32, unit: u32) -> u8
    requires { 0 < unit }
    ensures { result ≡ digit number unit }
{
    48 + (number / unit % 10) as u8
}
