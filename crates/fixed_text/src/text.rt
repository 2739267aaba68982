//! Texts of a fixed width, in arrays.
ghost use Rattle.std.specs.Prelude.{◌≡◌, ◌+◌, ◌≤◌, ◌++◌, length};
ghost use Rattle.arrayvec.specs.ArrayVec.{array_vec_len};

use arrayvec::ArrayVec;

/// Appends these bytes to the text, which must have room for them.
pub fn put<const N: usize>(text: &mut ArrayVec<u8, N>, bytes: &[u8])
    requires room { array_vec_len text.old + length bytes.now ≤ N }
    ensures items { text.new.items ≡ text.old.items ++ bytes.now }
    ensures len { array_vec_len text.new ≡ array_vec_len text.old + length bytes.now }
{
    if text.try_extend_from_slice(bytes).is_err() {
        unreachable!()
    }
}

/// Returns the bytes of a text that is full.
pub fn whole<const N: usize>(text: ArrayVec<u8, N>) -> [u8; N]
    requires full { array_vec_len text ≡ N }
    ensures { result ≡ text.entry.items }
{
    match text.into_inner() {
        Ok(bytes) => bytes,
        Err(_) => unreachable!(),
    }
}
