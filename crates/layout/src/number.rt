// The bytes of a number.
ghost use Rattle.std.specs.Prelude.{◌≡◌, ◌+◌, ◌≤◌, length};
ghost use Rattle.std.specs.List.{between};

// The N bytes from `at` on.
pub fn field<const N: usize>(bytes: &[u8], at: usize) -> [u8; N]
    requires { at + N ≤ length bytes.now }
    ensures { result ≡ between at (at + N) bytes.now }
{
    *bytes[at..].first_chunk().unwrap()
}
