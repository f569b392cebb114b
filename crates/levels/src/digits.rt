// A table of 16 numbers below 16, as the hexadecimal digits of a word, the lowest first: an array would be made anew at each use.
ghost use Rattle.std.specs.Prelude.{◌≡◌, ◌*◌, ◌/◌, ◌%◌, ◌^◌, ◌<◌};

pub fn digit(word: u64, i: u32) -> u32
    requires { i < 16 }
    ensures { result ≡ word / 2 ^ (4 * i) % 16 }
{
    ((word >> (4 * i)) % 16) as u32
}
