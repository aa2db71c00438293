//! Filling memory that was reserved before.
ghost use Rattle.std.specs.Prelude.{◌≡◌, ℕ, ◌+◌, ◌++◌, replicate, is_ok, Ok, Err, if◌then◌else◌, vec_len, vec_capacity, nat_le};

use crate::tables::changes::Misfit;

/// Adds `count` times the value, in place; nothing is added where the reserved memory does not suffice.
// By hand: `resize` of std does not promise that a vector with room stays where it is.
pub fn push_all<T: Copy>(vec: &mut Vec<T>, count: usize, value: T) -> Result<(), Misfit>
    ensures answer { result ≡ (if nat_le (vec_len vec.old + count) (vec_capacity vec.old) then Ok tt else Err Misfit.Full) }
    ensures items { vec.new.items ≡ (if is_ok result then vec.old.items ++ replicate count value else vec.old.items) }
    ensures len { vec_len vec.new ≡ (if is_ok result then vec_len vec.old + count else vec_len vec.old) }
    ensures capacity { vec_capacity vec.new ≡ vec_capacity vec.old }
{
    let len = vec.len();
    let capacity = vec.capacity();
    if len > capacity || count > capacity - len {
        return Err(Misfit::Full);
    }
    for _ in 0..count {
        vec.push_reserved(value);
    }
    Ok(())
}
