// Whole bytes as one number, high byte first, in and out. Fields are then quotients and remainders of the number.
ghost use Rattle.std.specs.Prelude.{◌≡◌, ◌*◌, ◌≤◌, length};
ghost use Rattle.rules.specs.Fields.{field, bytes_of};

// A field of ticks, as an age, a time or a deadline, has 30 bits: it is a remainder by this.
pub const TICKS: u64 = 1_073_741_824;

// The number in the bytes.
pub fn word(bytes: &[u8]) -> u64
    requires { length bytes.now ≤ 8 }
    ensures { result ≡ field bytes.now 0 (8 * length bytes.now) }
{
    let mut eight = [0; 8];
    eight[8 - bytes.len()..].copy_from_slice(bytes);
    u64::from_be_bytes(eight)
}

// The bytes become the number's.
pub fn put_word(bytes: &mut [u8], v: u64)
    requires { length bytes.old ≤ 8 }
    ensures { bytes.new ≡ bytes_of (length bytes.old) v }
{
    let behind = 8 - bytes.len();
    bytes.copy_from_slice(&v.to_be_bytes()[behind..]);
}
