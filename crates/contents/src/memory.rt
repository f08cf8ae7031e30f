// The memory that a call is lent for its answer.
ghost use Rattle.std.specs.Prelude.{◌≡◌};
ghost use Rattle.contents.specs.Memory.{holding, wrote};

use crate::refusal::Refusal;

/// An answer is put at the start of the memory, if it fits.
pub fn store<T: Copy>(answer: &[T], memory: &mut [T]) -> Result<usize, Refusal>
    ensures stored { memory.new ≡ holding answer.now memory.old }
    ensures count { result ≡ wrote answer.now memory.old }
{
    if memory.len() < answer.len() {
        return Err(Refusal::Memory);
    }
    memory[..answer.len()].copy_from_slice(answer);
    Ok(answer.len())
}
