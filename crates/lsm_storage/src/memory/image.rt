//! An image in memory.

ghost use Rattle.std.specs.Prelude.{◌≡◌, ◌≤◌, ◌^◌, length};

/// The bytes of a table.
#[derive(Drop)]
pub struct Image {
    /// The number under which it was put.
    pub(crate) number: u64,
    pub(crate) bytes: Vec<u8>,
    ghost limit: { length bytes.items ≤ 2 ^ 30 },
}

impl Image {
    pub(crate) fn of(number: u64, bytes: Vec<u8>) -> Image
        requires { length bytes.items ≤ 2 ^ 30 }
        ensures number { result.number ≡ number }
        ensures bytes { result.bytes ≡ bytes }
    {
        Image { number, bytes }
    }
}
