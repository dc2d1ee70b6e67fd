// Powers by squaring.
ghost use Rattle.std.specs.Prelude.{◌≡◌, ◌%◌, ◌^◌, ◌<◌};

// The power of a base by a modulus.
pub fn power(base: u64, exponent: u64, modulus: u64) -> u64
    requires { (1 < modulus) × (modulus < 2 ^ 31) × (base < modulus) }
    ensures { result ≡ base ^ exponent % modulus }
{
    let mut result = 1;
    let mut square = base;
    let mut left = exponent;
    while left > 0 {
        if left % 2 == 1 {
            result = result * square % modulus;
        }
        square = square * square % modulus;
        left /= 2;
    }
    result
}
